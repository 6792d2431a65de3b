//! A last look at the history.
ghost use Rattle.std.specs.Prelude.{◌≡◌, ◌<◌, ◌^◌, true, [], IfOk, IfErr};
ghost use Rattle.turn_cell.specs.Events.{events_of};
ghost use Rattle.turn_cell.specs.History.{entries_of};
ghost use Rattle.turn_cell.specs.Steps.{IsWorn, SeesAllowed, IsStood, count_of};
ghost use Rattle.core_state.specs.declared.actor.Actor.{Actor};
ghost use Rattle.core_state.specs.Happens.{CoreRun, IsClosing};
ghost use Rattle.system_state.specs.Cores.{core_of};
ghost use Rattle.desk_turns.specs.Passing.{ActsFor, IsItsOwn, May, Went, core_seen};
ghost use Rattle.page_steps.specs.Words.{StillHolds};

use flash_die::Die;
use page_steps::System;
use system_state::CallJob;
use turn_cell::{Desk, Worn};

/// Whether the system is closing: every lane has left, and no call is in flight. It makes no event, and its pass has then seen all that it
/// made.
pub fn look<D: Die, J: CallJob, K: Desk<System<D, J>>>(desk: &mut K) -> Result<bool, Worn>
    requires free { K.is_free desk.old }
    ensures free { K.is_free desk.new }
    ensures worn { IfErr result (λ x. IsWorn x.count (K.view desk.new)) }
    ensures room { IfOk result (λ _. count_of (K.view desk.new) < 2 ^ 62) }
    ensures turn { (K.table desk.new ≡ K.table desk.old) × (K.opening desk.new ≡ K.opening desk.old) }
    ensures went { Went (K.view desk.old) (K.view desk.new) [] }
    ensures settled { entries_of (K.view desk.new).number (K.view desk.new).seen ≡ (K.view desk.new).own }
    ensures allowed { SeesAllowed (May (core_of D.seen)) (K.opening desk.old) (K.view desk.new) }
    ensures run { IfOk result (λ _. CoreRun (core_of D.seen (K.opening desk.old).value) (events_of (K.view desk.new).seen) (core_seen (core_of D.seen) (K.opening desk.old) (K.view desk.new))) }
    ensures closing { IfOk result (λ b. b ≡ true → IsClosing (core_seen (core_of D.seen) (K.opening desk.old) (K.view desk.new))) }
    ensures kept { (a : Actor) → ActsFor (core_of D.seen) (K.opening desk.old) (K.view desk.old) a → IsItsOwn (core_seen (core_of D.seen) (K.opening desk.old) (K.view desk.old)) a →
        StillHolds (core_of D.seen) (K.opening desk.old) (K.view desk.old) (K.view desk.new) a }
{
    let system = desk.take()?;
    let closes = system.closing();
    desk.give(system);
    Ok(closes)
}
