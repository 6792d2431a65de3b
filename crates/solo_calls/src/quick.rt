//! The calls that need no page.
ghost use Rattle.std.specs.Prelude.{◌≡◌, true, IfErr};
ghost use Rattle.turn_cell.specs.Desks.{IsFreeAlone, view_alone, opening_alone, table_alone};
ghost use Rattle.turn_cell.specs.Steps.{IsWorn};
ghost use Rattle.core_state.specs.LaneEvents.{is_quick};
ghost use Rattle.system_state.specs.Cores.{core_of};
ghost use Rattle.desk_turns.specs.Passing.{core_seen, Does};
ghost use Rattle.lambda_calls.specs.Books.{opening_in};
ghost use Rattle.lambda_calls.specs.Words.{IsSmall};
ghost use Rattle.solo_runs.specs.Line.{MayAnswer, LineSays};

use flash_die::Die;
use load_decoding::loading_of;
use plain_files::{Numbered, Request};
use std::alloc::Global;
use sync_calls::{Loading, System, quick_call_alone, skip_call_alone};
use system_state::CallJob;
use turn_cell::{Alone, Worn};

/// Answers a call that needs no page. The code of a `load` is decoded first; where memory for that runs out the reply is `nomemory`. At
/// `Worn` it made no event.
pub fn quick_line<D: Die, J: CallJob>(
    alloc: Global,
    alone: &mut Alone<System<D, J>>,
    lane: u32,
    request: &Request,
) -> Result<Numbered, Worn>
    requires free { IsFreeAlone opening_in alone.old }
    requires may { MayAnswer (core_seen (core_of D.seen) (opening_alone opening_in alone.old) (view_alone alone.old)) lane request.now }
    requires kind { is_quick request.now.call ≡ true }
    requires small { IsSmall (opening_alone opening_in alone.old).value }
    ensures free { IsFreeAlone opening_in alone.new }
    ensures worn { IfErr result (λ x. IsWorn x.count (view_alone alone.new)) }
    ensures turn { (table_alone alone.new ≡ table_alone alone.old) × (opening_alone opening_in alone.new ≡ opening_alone opening_in alone.old) }
    ensures did { Does (view_alone alone.old) (view_alone alone.new) (LineSays D.seen (opening_alone opening_in alone.old) (view_alone alone.old) (view_alone alone.new) lane request.now result) }
{
    match loading_of(alloc, &request.call) {
        Ok(loading) => {
            let mut loading = loading;
            quick_call_alone(alone, lane, request, &mut loading)
        }
        Err(_) => skip_call_alone(alone, lane, request),
    }
}
