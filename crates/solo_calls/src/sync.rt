//! The call `sync`.
ghost use Rattle.std.specs.Prelude.{◌≡◌, true, IfErr};
ghost use Rattle.turn_cell.specs.Desks.{IsFreeAlone, view_alone, opening_alone, table_alone};
ghost use Rattle.turn_cell.specs.Steps.{IsWorn};
ghost use Rattle.core_state.specs.Reach.{is_sync};
ghost use Rattle.system_state.specs.Cores.{core_of};
ghost use Rattle.desk_turns.specs.Passing.{core_seen, Does};
ghost use Rattle.lambda_calls.specs.Books.{opening_in};
ghost use Rattle.lambda_calls.specs.Words.{IsSmall};
ghost use Rattle.solo_runs.specs.Line.{MayAnswer, LineSays};

use flash_die::Die;
use page_base::Page;
use plain_files::{Numbered, Request};
use sync_calls::{System, sync_call_alone};
use system_state::CallJob;
use turn_cell::{Alone, Worn};

/// Answers a `sync`, by way of `page`, which may change. `pages` are any, and none of them is used. The reply is `fault` where a write of it
/// failed. At `Worn` it hasn't ended.
pub fn sync_line<D: Die, J: CallJob>(
    alone: &mut Alone<System<D, J>>,
    lane: u32,
    request: &Request,
    page: &mut Page,
    pages: &mut Vec<Page>,
) -> Result<Numbered, Worn>
    requires free { IsFreeAlone opening_in alone.old }
    requires may { MayAnswer (core_seen (core_of D.seen) (opening_alone opening_in alone.old) (view_alone alone.old)) lane request.now }
    requires kind { is_sync request.now.call ≡ true }
    requires small { IsSmall (opening_alone opening_in alone.old).value }
    ensures free { IsFreeAlone opening_in alone.new }
    ensures worn { IfErr result (λ x. IsWorn x.count (view_alone alone.new)) }
    ensures turn { (table_alone alone.new ≡ table_alone alone.old) × (opening_alone opening_in alone.new ≡ opening_alone opening_in alone.old) }
    ensures did { Does (view_alone alone.old) (view_alone alone.new) (LineSays D.seen (opening_alone opening_in alone.old) (view_alone alone.old) (view_alone alone.new) lane request.now result) }
{
    sync_call_alone(alone, lane, request, page, pages)
}
