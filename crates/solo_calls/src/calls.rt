//! The buffers of the calls of a script, and which call answers a line.
ghost use Rattle.std.specs.Prelude.{◌≡◌, IfErr};
ghost use Rattle.turn_cell.specs.Desks.{IsFreeAlone, view_alone, opening_alone, table_alone};
ghost use Rattle.turn_cell.specs.Steps.{IsWorn};
ghost use Rattle.system_state.specs.Cores.{core_of};
ghost use Rattle.desk_turns.specs.Passing.{core_seen, Does};
ghost use Rattle.lambda_calls.specs.Books.{opening_in};
ghost use Rattle.lambda_calls.specs.Words.{IsSmall};
ghost use Rattle.solo_runs.specs.Line.{MayAnswer, LineSays};

use crate::data::data_line;
use crate::lambda::lambda_line;
use crate::quick::quick_line;
use crate::sync::sync_line;
use call_job::Job;
use flash_die::Die;
use lambda_calls::System;
use page_base::{NoMemory, Page};
use plain_files::{Call, Numbered, Request};
use solo_runs::LineCalls;
use std::alloc::Global;
use turn_cell::{Alone, Worn};

/// What answers the calls of a script, with the buffers that their writes go through.
#[derive(Drop)]
pub struct Calls {
    alloc: Global,
    page: Page,
    pages: Vec<Page>,
}

impl Calls {
    /// Answers for scripts, or `NoMemory`. The calls take their memory from `alloc`.
    pub fn new(alloc: Global) -> Result<Calls, NoMemory> {
        let page = Page::zero(alloc)?;
        let pages = Vec::new(alloc);
        Ok(Calls { alloc, page, pages })
    }
}

impl<D: Die> LineCalls<D, Job> for Calls {
    fn answer(
        &mut self,
        alone: &mut Alone<System<D, Job>>,
        lane: u32,
        request: &Request,
    ) -> Result<Numbered, Worn>
        requires free { IsFreeAlone opening_in alone.old }
        requires may { MayAnswer (core_seen (core_of D.seen) (opening_alone opening_in alone.old) (view_alone alone.old)) lane request.now }
        requires small { IsSmall (opening_alone opening_in alone.old).value }
        ensures free { IsFreeAlone opening_in alone.new }
        ensures worn { IfErr result (λ x. IsWorn x.count (view_alone alone.new)) }
        ensures turn { (table_alone alone.new ≡ table_alone alone.old) × (opening_alone opening_in alone.new ≡ opening_alone opening_in alone.old) }
        ensures did { Does (view_alone alone.old) (view_alone alone.new) (LineSays D.seen (opening_alone opening_in alone.old) (view_alone alone.old) (view_alone alone.new) lane request.now result) }
    {
        match &request.call {
            Call::Sync => sync_line(alone, lane, request, &mut self.page, &mut self.pages),
            Call::Read(..) | Call::Write(..) | Call::Append(..) | Call::Trunc(..) => {
                data_line(self.alloc, alone, lane, request, &mut self.page)
            }
            Call::Readl { .. } | Call::Writel { .. } => {
                lambda_line(self.alloc, alone, lane, request, &mut self.page)
            }
            _ => quick_line(self.alloc, alone, lane, request),
        }
    }
}
