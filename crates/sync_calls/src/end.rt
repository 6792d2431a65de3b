//! A `sync` ends.
ghost use Rattle.std.specs.Prelude.{◌≡◌, ℕ, true, false, [], Ok, IfErr};
ghost use Rattle.turn_cell.specs.Events.{events_of};
ghost use Rattle.turn_cell.specs.Steps.{IsWorn};
ghost use Rattle.plain_files.specs.declared.calls.Numbered.{Numbered};
ghost use Rattle.core_state.specs.declared.actor.Actor.TheVariants.{Lane};
ghost use Rattle.core_state.specs.History.{calls_of};
ghost use Rattle.system_state.specs.Cores.{core_of};
ghost use Rattle.desk_turns.specs.Passing.{ActsFor, core_seen, Does};
ghost use Rattle.quick_calls.specs.Words.{IsNumbered, IsSmall};
ghost use Rattle.sync_calls.specs.Stages.{IsAtEnd, EndedSays};

use flash_die::Die;
use page_base::Page;
use plain_files::{Numbered, Request};
use quick_calls::{System, turn_end_sync};
use system_state::CallJob;
use turn_cell::{Desk, Worn};

/// Ends the call, which has written all pages of the meta data, with `done`, or whose lane has a mark, with `fault`.
pub(crate) fn finish<D: Die, J: CallJob, K: Desk<System<D, J>>>(
    desk: &mut K,
    lane: u32,
    request: &Request,
    fault: bool,
    pages: &mut Vec<Page>,
) -> Result<Numbered, Worn>
    requires free { K.is_free desk.old }
    requires acts { ActsFor (core_of D.seen) (K.opening desk.old) (K.view desk.old) (Lane lane) }
    requires at { IsAtEnd (K.view desk.old).alone (core_seen (core_of D.seen) (K.opening desk.old) (K.view desk.old)) lane request.now fault }
    requires small { IsSmall (K.opening desk.old).value }
    ensures free { K.is_free desk.new }
    ensures worn { IfErr result (λ x. IsWorn x.count (K.view desk.new)) }
    ensures turn { (K.table desk.new ≡ K.table desk.old) × (K.opening desk.new ≡ K.opening desk.old) }
    ensures did { Does (K.view desk.old) (K.view desk.new) (EndedSays D.seen (K.opening desk.old) (K.view desk.old) (K.view desk.new) lane request.now fault result) }
    ensures numbered { (n : Numbered) → result ≡ Ok n → IsNumbered (K.opening desk.old).value.last (calls_of (events_of (K.view desk.new).seen)) n.number (record { lane = lane; call = request.now.call; reply = n.reply }) }
{
    turn_end_sync(desk, lane, request, fault, pages)
}
