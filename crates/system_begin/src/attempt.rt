//! A call is to begin: it waits for another one, is refused, or begins.
ghost use Rattle.std.specs.Prelude.{◌≡◌, ◌≤◌, ◌-◌, ◌+◌, ◌^◌, ◌∷◌, ◌++◌, ◌⊎◌, [], ℕ, List, IfOk, IfErr, Err, false, true};
ghost use Rattle.turn_cell.specs.declared.book.Entry.{Entry};
ghost use Rattle.turn_cell.specs.History.{entry};
ghost use Rattle.core_state.specs.declared.actor.Actor.TheVariants.{Lane};
ghost use Rattle.core_state.specs.declared.event.Event.{Event};
ghost use Rattle.core_state.specs.Reach.{is_data, is_sync};
ghost use Rattle.core_state.specs.LaneEvents.{IsIdle};
ghost use Rattle.core_state.specs.Happens.{HoldsNone};
ghost use Rattle.system_state.specs.Cores.{core_of};
ghost use Rattle.system_state.specs.Made.{Made};
ghost use Rattle.system_state.specs.Stands.{IsStanding, Stands};
ghost use Rattle.system_state.specs.declared.not_yet.NotYet.TheVariants.{NoRoom};
ghost use Rattle.system_state.specs.declared.state.State.{State};
ghost use Rattle.system_begin.specs.Begun.{side_of};
ghost use Rattle.system_begin.specs.Ways.{begin_way, way_of, begin_event, IsNext};

use crate::starting::start;
use call_checks::early;
use dispatcher::Side;
use flash_die::Die;
use plain_files::{Numbered, Request};
use system_lanes::{awaited_still, refuse};
use system_state::{CallJob, NotYet, State};
use turn_cell::Entry;

/// What came of a call that was to begin.
#[derive(Debug, Drop)]
pub enum Begun {
    /// It was refused: its number and its reply.
    Ended(Numbered),
    /// It began at a side, and has a span of so many pages.
    Started { side: Side, span: u32 },
}

/// A data call or a `sync` is to begin. In this order: it waits for the call that it awaits (`Awaited`), is refused and has ended, waits
/// for the least call that is in its way (`Conflict`) or for room at its side (`NoRoom`), or begins. Nothing has changed where it waits.
/// `picked` is the side of a call that nothing refuses and that awaits none.
pub fn try_begin<D: Die, J: CallJob>(
    state: &mut State<D, J>,
    lane: u32,
    request: &Request,
    picked: &mut Side,
) -> Result<Begun, NotYet>
    requires standing { IsStanding D.seen J.suits state.old }
    requires hands { HoldsNone (core_of D.seen state.old) (Lane lane) }
    requires idle { IsIdle (core_of D.seen state.old) lane }
    requires unmarked { ((core_of D.seen state.old).lanes lane).mark ≡ false }
    requires kind { (is_data request.now.call ≡ true) ⊎ (is_sync request.now.call ≡ true) }
    requires last { state.old.last ≤ 2 ^ 64 - 3 }
    requires host { state.old.places.host ≤ 2 ^ 64 - 3 }
    requires drive { state.old.places.drive ≤ 2 ^ 64 - 3 }
    ensures way { way_of result ≡ begin_way (core_of D.seen state.old) request.now }
    ensures number { IfOk result (λ x. IsNext state.old.last x) }
    ensures made { IfOk result (λ x. Made D.seen J.suits state.old (begin_event lane request.now x) state.new) }
    ensures stands { IfOk result (λ x. (o : State D J) (h : List (Entry Event)) (n : ℕ) → Stands D.seen J.suits state.old o h →
        Stands D.seen J.suits state.new o (h ++ entry n (begin_event lane request.now x) ∷ [])) }
    ensures picked { (used need : ℕ) → result ≡ Err (NoRoom used need) → picked.new ≡ side_of (core_of D.seen state.old) request.now }
    ensures same { IfErr result (λ y. state.new ≡ state.old) }
{
    if let Some(y) = awaited_still(&state.lanes, request.awaits) {
        return Err(y);
    }
    if let Some(reply) = early(&state.meta.names, &state.functions, &request.call) {
        let number = refuse(state, lane, request, &reply);
        return Ok(Begun::Ended(Numbered { number, reply }));
    }
    match start(state, lane, request, picked) {
        Ok(span) => Ok(Begun::Started {
            side: *picked,
            span,
        }),
        Err(y) => Err(y),
    }
}
