//! A call that is refused before it begins.
ghost use Rattle.std.specs.Prelude.{◌≡◌, ◌≤◌, ◌+◌, ◌-◌, ◌^◌, ◌∷◌, ◌++◌, [], ℕ, List, Some};
ghost use Rattle.turn_cell.specs.declared.book.Entry.{Entry};
ghost use Rattle.turn_cell.specs.History.{entry};
ghost use Rattle.plain_files.specs.Plain.{early};
ghost use Rattle.core_state.specs.declared.actor.Actor.TheVariants.{Lane};
ghost use Rattle.core_state.specs.declared.event.Event.{Event};
ghost use Rattle.core_state.specs.declared.event.Event.TheVariants.{Quick};
ghost use Rattle.core_state.specs.PlainOf.{plain};
ghost use Rattle.core_state.specs.LaneEvents.{IsReady};
ghost use Rattle.core_state.specs.Happens.{HoldsNone};
ghost use Rattle.system_state.specs.Cores.{core_of};
ghost use Rattle.system_state.specs.Made.{Made};
ghost use Rattle.system_state.specs.Stands.{IsStanding, Stands};
ghost use Rattle.system_state.specs.declared.state.State.{State};

use crate::notes::note_refusal;
use crate::rows::count_reply;
use core_state::Event;
use flash_die::Die;
use plain_files::{Reply, Request};
use system_state::{CallJob, State};
use turn_cell::Entry;

/// A call that is refused before it begins gets its number. Nothing but its lane has changed.
pub fn refuse<D: Die, J: CallJob>(
    state: &mut State<D, J>,
    lane: u32,
    request: &Request,
    reply: &Reply,
) -> u64
    requires standing { IsStanding D.seen J.suits state.old }
    requires hands { HoldsNone (core_of D.seen state.old) (Lane lane) }
    requires ready { IsReady (core_of D.seen state.old) lane request.now }
    requires refusal { early (plain (core_of D.seen state.old)) request.now.call ≡ Some reply.now }
    requires number { state.old.last ≤ 2 ^ 64 - 3 }
    ensures number { result ≡ state.old.last + 1 }
    ensures made { Made D.seen J.suits state.old (Quick lane request.now reply.now) state.new }
    ensures stands { (o : State D J) (h : List (Entry Event)) (n : ℕ) → Stands D.seen J.suits state.old o h →
        Stands D.seen J.suits state.new o (h ++ entry n (Quick lane request.now reply.now) ∷ []) }
{
    count_reply(&mut state.lanes, lane);
    state.last += 1;
    state.told = note_refusal(&state.told, &lane, request, reply);
    state.made = state.made.wrapping_add(1);
    state.last
}
