//! The hands of a crew: which call answers a lane's request, and how a worker works.
ghost use Rattle.std.specs.Prelude.{◌≡◌, Ok, IfErr};
ghost use Rattle.turn_cell.specs.Events.{events_of};
ghost use Rattle.turn_cell.specs.Steps.{IsWorn};
ghost use Rattle.plain_files.specs.declared.calls.Numbered.{Numbered};
ghost use Rattle.core_state.specs.declared.actor.Actor.TheVariants.{Lane, Worker};
ghost use Rattle.core_state.specs.Happens.{HoldsNone};
ghost use Rattle.core_state.specs.History.{calls_of};
ghost use Rattle.system_state.specs.Cores.{core_of};
ghost use Rattle.desk_turns.specs.Passing.{ActsFor, core_seen, Does};
ghost use Rattle.lambda_calls.specs.Making.{IsFree};
ghost use Rattle.lambda_calls.specs.Words.{IsNumbered, IsSmall};
ghost use Rattle.crews.specs.JobTurns.{IsUnbusy};
ghost use Rattle.crews.specs.Calls.{CallSays, WorkSays};
ghost use Rattle.crews.specs.Seats.{view_at, opening_at, table_at, IsFreeSeat};

use crate::calls::{data_answer, lambda_answer, quick_answer, sync_answer};
use call_job::Job;
use crews::Hands;
use drive_worker::worker_loop;
use flash_die::Die;
use gates::Gate;
use lambda_calls::System;
use page_base::Page;
use plain_files::{Call, Numbered, Request};
use std::alloc::Global;
use std::sync::Wait;
use turn_cell::{Seated, Worn};

/// What makes the calls of a crew's lanes and does the work of its workers.
#[derive(Clone, Copy)]
pub struct CallHands {
    alloc: Global,
}

impl CallHands {
    /// Hands for a crew. The calls take their memory from `alloc`.
    pub fn new(alloc: Global) -> CallHands {
        CallHands { alloc }
    }
}

impl<D: Die, R: Wait, G: Gate> Hands<D, Job, R, G> for CallHands {
    /// The reply is `nomemory` where memory ran out before the call began, and `fault` where a die failed.
    fn call<'a>(
        &self,
        desk: &mut Seated<'a, System<D, Job>, R>,
        gate: &G,
        lane: u32,
        request: &Request,
        page: &mut Page,
    ) -> Result<Numbered, Worn>
        requires free { IsFreeSeat desk.old }
        requires acts { ActsFor (core_of D.seen) (opening_at desk.old) (view_at desk.old) (Lane lane) }
        requires lane { IsFree (core_seen (core_of D.seen) (opening_at desk.old) (view_at desk.old)) lane }
        requires small { IsSmall (opening_at desk.old).value }
        ensures free { IsFreeSeat desk.new }
        ensures worn { IfErr result (λ x. IsWorn x.count (view_at desk.new)) }
        ensures turn { (table_at desk.new ≡ table_at desk.old) × (opening_at desk.new ≡ opening_at desk.old) }
        ensures did { Does (view_at desk.old) (view_at desk.new) (CallSays (core_of D.seen) (opening_at desk.old) (view_at desk.new) lane request.now result) }
        ensures numbered { (n : Numbered) → result ≡ Ok n → IsNumbered (opening_at desk.old).value.last (calls_of (events_of (view_at desk.new).seen)) n.number (record { lane = lane; call = request.now.call; reply = n.reply }) }
    {
        match &request.call {
            Call::Sync => sync_answer(self.alloc, desk, lane, request, page),
            Call::Read(..) | Call::Write(..) | Call::Append(..) | Call::Trunc(..) => {
                data_answer(self.alloc, desk, lane, request, page)
            }
            Call::Readl { .. } | Call::Writel { .. } => {
                lambda_answer(self.alloc, desk, gate, lane, request, page)
            }
            _ => quick_answer(self.alloc, desk, lane, request),
        }
    }

    fn work<'a>(
        &self,
        desk: &mut Seated<'a, System<D, Job>, R>,
        gate: &G,
        worker: u32,
        _page: &mut Page,
    ) -> Result<(), Worn>
        requires free { IsFreeSeat desk.old }
        requires acts { ActsFor (core_of D.seen) (opening_at desk.old) (view_at desk.old) (Worker worker) }
        requires unbusy { IsUnbusy (core_seen (core_of D.seen) (opening_at desk.old) (view_at desk.old)) worker }
        requires none { HoldsNone (core_seen (core_of D.seen) (opening_at desk.old) (view_at desk.old)) (Worker worker) }
        requires small { IsSmall (opening_at desk.old).value }
        ensures free { IsFreeSeat desk.new }
        ensures worn { IfErr result (λ x. IsWorn x.count (view_at desk.new)) }
        ensures turn { (table_at desk.new ≡ table_at desk.old) × (opening_at desk.new ≡ opening_at desk.old) }
        ensures did { Does (view_at desk.old) (view_at desk.new) (WorkSays (core_of D.seen) (opening_at desk.old) (view_at desk.new) worker result) }
    {
        worker_loop(desk, gate, worker)
    }
}
