//! The turn in which room is made.
ghost use Rattle.std.specs.Prelude.{◌≡◌, ℕ, ◌+◌, [], Ok, IfOk, IfErr};
ghost use Rattle.turn_cell.specs.Steps.{IsWorn};
ghost use Rattle.core_state.specs.State.{ToFlush};
ghost use Rattle.system_state.specs.Cores.{core_of};
ghost use Rattle.system_state.specs.Errands.{IsFresh};
ghost use Rattle.system_state.specs.declared.errand.Errand.{Errand};
ghost use Rattle.desk_turns.specs.Passing.{ActsFor, core_seen, Turn, Went};
ghost use Rattle.event_turns.specs.Flushing.{MayFlushNow, IsInHand};
ghost use Rattle.page_steps.specs.declared.room.Given.TheVariants.{Sent};
ghost use Rattle.page_steps.specs.Room.{RoomTurn};

use crate::room::{Given, try_room};
use core_state::Actor;
use dispatcher::Side;
use event_turns::System;
use flash_die::Die;
use page_base::Page;
use system_state::CallJob;
use turn_cell::{Desk, Worn};

/// Makes the first possible event for room at a side, in one turn.
pub fn turn_room<D: Die, J: CallJob, K: Desk<System<D, J>>>(
    desk: &mut K,
    actor: Actor,
    side: Side,
    into: &mut Page,
) -> Result<Given<D>, Worn>
    requires free { K.is_free desk.old }
    requires acts { ActsFor (core_of D.seen) (K.opening desk.old) (K.view desk.old) actor }
    requires may { MayFlushNow (core_seen (core_of D.seen) (K.opening desk.old) (K.view desk.old)) actor }
    ensures free { K.is_free desk.new }
    ensures worn { IfErr result (λ x. IsWorn x.count (K.view desk.new)) }
    ensures turn { (K.table desk.new ≡ K.table desk.old) × (K.opening desk.new ≡ K.opening desk.old) }
    ensures went { IfErr result (λ _. Went (K.view desk.old) (K.view desk.new) []) }
    ensures did { IfOk result (λ x. Turn (core_of D.seen) (K.opening desk.old) (K.view desk.old) (K.view desk.new) (RoomTurn actor side into.new x)) }
    ensures out { (e : Errand D) → result ≡ Ok (Sent e) → IsFresh D.seen e × ((version : ℕ) × IsInHand D.seen (K.opening desk.old) (K.view desk.new).seen actor (ToFlush e.subject version into.new) ((K.opening desk.old).value.sizes.meta + e.subject) e) }
{
    let mut system = desk.take()?;
    let given = try_room(&mut system, actor, side, into);
    desk.give(system);
    Ok(given)
}
