//! The calls that run a function.
ghost use Rattle.std.specs.Prelude.{◌≡◌, true, IfErr};
ghost use Rattle.turn_cell.specs.Desks.{IsFreeAlone, view_alone, opening_alone, table_alone};
ghost use Rattle.turn_cell.specs.Steps.{IsWorn};
ghost use Rattle.core_state.specs.Reach.{is_lambda};
ghost use Rattle.system_state.specs.Cores.{core_of};
ghost use Rattle.desk_turns.specs.Passing.{core_seen, Does};
ghost use Rattle.lambda_calls.specs.Books.{opening_in};
ghost use Rattle.lambda_calls.specs.Words.{IsSmall};
ghost use Rattle.solo_runs.specs.Line.{MayAnswer, LineSays};

use call_job::Job;
use flash_die::Die;
use gates::OpenGate;
use lambda_calls::{System, read_lambda_alone, write_lambda_alone};
use page_base::Page;
use plain_files::{Call, Numbered, Request};
use std::alloc::Global;
use turn_cell::{Alone, Worn};

/// Answers a `readl` or a `writel`, by way of `page`, which may change. The reply is `nomemory` where memory ran out before it began, and
/// `fault` where a die failed. At `Worn` it hasn't ended.
pub fn lambda_line<D: Die>(
    alloc: Global,
    alone: &mut Alone<System<D, Job>>,
    lane: u32,
    request: &Request,
    page: &mut Page,
) -> Result<Numbered, Worn>
    requires free { IsFreeAlone opening_in alone.old }
    requires may { MayAnswer (core_seen (core_of D.seen) (opening_alone opening_in alone.old) (view_alone alone.old)) lane request.now }
    requires kind { is_lambda request.now.call ≡ true }
    requires small { IsSmall (opening_alone opening_in alone.old).value }
    ensures free { IsFreeAlone opening_in alone.new }
    ensures worn { IfErr result (λ x. IsWorn x.count (view_alone alone.new)) }
    ensures turn { (table_alone alone.new ≡ table_alone alone.old) × (opening_alone opening_in alone.new ≡ opening_alone opening_in alone.old) }
    ensures did { Does (view_alone alone.old) (view_alone alone.new) (LineSays D.seen (opening_alone opening_in alone.old) (view_alone alone.old) (view_alone alone.new) lane request.now result) }
{
    match &request.call {
        Call::Readl { .. } => read_lambda_alone(alloc, alone, &OpenGate, lane, request, page),
        Call::Writel { .. } => write_lambda_alone(alloc, alone, &OpenGate, lane, request, page),
        _ => unreachable!(),
    }
}
