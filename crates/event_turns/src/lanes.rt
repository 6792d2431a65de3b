//! Turns of lanes that move no page.
ghost use Rattle.std.specs.Prelude.{◌≡◌, ◌∷◌, ◌≤◌, ◌^◌, [], true, Ok, IfOk, IfErr};
ghost use Rattle.turn_cell.specs.Events.{events_of};
ghost use Rattle.turn_cell.specs.Steps.{IsWorn};
ghost use Rattle.plain_files.specs.declared.calls.Numbered.{Numbered};
ghost use Rattle.core_state.specs.declared.actor.Actor.{Actor};
ghost use Rattle.core_state.specs.declared.actor.Actor.TheVariants.{Lane};
ghost use Rattle.core_state.specs.declared.event.Event.TheVariants.{Enter, Leave};
ghost use Rattle.core_state.specs.LaneEvents.{IsIdle, MayEnter, MayLeave};
ghost use Rattle.core_state.specs.Happens.{HoldsNone};
ghost use Rattle.core_state.specs.History.{calls_of};
ghost use Rattle.system_state.specs.Cores.{core_of};
ghost use Rattle.desk_turns.specs.Passing.{ActsFor, IsItsOwn, core_seen, Turn, Went};
ghost use Rattle.event_turns.specs.Words.{StillHolds, IsNumbered};
ghost use Rattle.event_turns.specs.LaneTurns.{ClosingSays, SkipSays};

use flash_die::Die;
use flushes::System;
use plain_files::{Numbered, Request};
use system_lanes::{closing, enter, leave, skip};
use system_state::{CallJob, NotYet};
use turn_cell::{Desk, Worn};

/// A lane begins, which hasn't entered. At `Worn` nothing was done, and the lane holds what it held.
pub fn turn_enter<D: Die, J: CallJob, K: Desk<System<D, J>>>(
    desk: &mut K,
    lane: u32,
) -> Result<(), Worn>
    requires free { K.is_free desk.old }
    requires acts { ActsFor (core_of D.seen) (K.opening desk.old) (K.view desk.old) (Lane lane) }
    requires may { MayEnter (core_seen (core_of D.seen) (K.opening desk.old) (K.view desk.old)) lane }
    ensures free { K.is_free desk.new }
    ensures worn { IfErr result (λ x. IsWorn x.count (K.view desk.new)) }
    ensures turn { (K.table desk.new ≡ K.table desk.old) × (K.opening desk.new ≡ K.opening desk.old) }
    ensures went { IfErr result (λ _. Went (K.view desk.old) (K.view desk.new) []) }
    ensures kept { IfErr result (λ _. StillHolds (core_of D.seen) (K.opening desk.old) (K.view desk.old) (K.view desk.new) (Lane lane)) }
    ensures did { IfOk result (λ _. Turn (core_of D.seen) (K.opening desk.old) (K.view desk.old) (K.view desk.new) (λ c es. es ≡ Enter lane ∷ [])) }
{
    let mut system = desk.take()?;
    enter(&mut system.state, lane);
    desk.give(system);
    Ok(())
}

/// A lane ends, which has no call in flight, no mark and no die. At `Worn` nothing was done, and the lane holds what it held.
pub fn turn_leave<D: Die, J: CallJob, K: Desk<System<D, J>>>(
    desk: &mut K,
    lane: u32,
) -> Result<(), Worn>
    requires free { K.is_free desk.old }
    requires acts { ActsFor (core_of D.seen) (K.opening desk.old) (K.view desk.old) (Lane lane) }
    requires hands { HoldsNone (core_seen (core_of D.seen) (K.opening desk.old) (K.view desk.old)) (Lane lane) }
    requires may { MayLeave (core_seen (core_of D.seen) (K.opening desk.old) (K.view desk.old)) lane }
    ensures free { K.is_free desk.new }
    ensures worn { IfErr result (λ x. IsWorn x.count (K.view desk.new)) }
    ensures turn { (K.table desk.new ≡ K.table desk.old) × (K.opening desk.new ≡ K.opening desk.old) }
    ensures went { IfErr result (λ _. Went (K.view desk.old) (K.view desk.new) []) }
    ensures kept { IfErr result (λ _. StillHolds (core_of D.seen) (K.opening desk.old) (K.view desk.old) (K.view desk.new) (Lane lane)) }
    ensures did { IfOk result (λ _. Turn (core_of D.seen) (K.opening desk.old) (K.view desk.old) (K.view desk.new) (λ c es. es ≡ Leave lane ∷ [])) }
{
    let mut system = desk.take()?;
    leave(&mut system.state, lane);
    desk.give(system);
    Ok(())
}

/// Whether the system is closing: every lane has left, and no call is in flight. It makes no event, so anybody may ask.
pub fn turn_closing<D: Die, J: CallJob, K: Desk<System<D, J>>>(desk: &mut K) -> Result<bool, Worn>
    requires free { K.is_free desk.old }
    ensures free { K.is_free desk.new }
    ensures worn { IfErr result (λ x. IsWorn x.count (K.view desk.new)) }
    ensures turn { (K.table desk.new ≡ K.table desk.old) × (K.opening desk.new ≡ K.opening desk.old) }
    ensures went { IfErr result (λ _. Went (K.view desk.old) (K.view desk.new) []) }
    ensures kept { IfErr result (λ _. (a : Actor) → ActsFor (core_of D.seen) (K.opening desk.old) (K.view desk.old) a → IsItsOwn (core_seen (core_of D.seen) (K.opening desk.old) (K.view desk.old)) a →
        StillHolds (core_of D.seen) (K.opening desk.old) (K.view desk.old) (K.view desk.new) a) }
    ensures did { IfOk result (λ x. Turn (core_of D.seen) (K.opening desk.old) (K.view desk.old) (K.view desk.new) (ClosingSays x)) }
{
    let system = desk.take()?;
    let closes = closing(&system.state);
    desk.give(system);
    Ok(closes)
}

/// A call that hasn't begun is answered by `fault`, where a die event for the lane has failed since its last reply, or by `nomemory`. `NotYet`:
/// the call that it awaits hasn't ended. At `Worn` nothing was done, and the lane holds what it held.
pub fn turn_skip<D: Die, J: CallJob, K: Desk<System<D, J>>>(
    desk: &mut K,
    lane: u32,
    request: &Request,
    fault: bool,
) -> Result<Result<Numbered, NotYet>, Worn>
    requires free { K.is_free desk.old }
    requires acts { ActsFor (core_of D.seen) (K.opening desk.old) (K.view desk.old) (Lane lane) }
    requires hands { HoldsNone (core_seen (core_of D.seen) (K.opening desk.old) (K.view desk.old)) (Lane lane) }
    requires idle { IsIdle (core_seen (core_of D.seen) (K.opening desk.old) (K.view desk.old)) lane }
    requires marked { fault ≡ true → ((core_seen (core_of D.seen) (K.opening desk.old) (K.view desk.old)).lanes lane).mark ≡ true }
    requires small { (K.opening desk.old).value.last ≤ 2 ^ 62 }
    ensures free { K.is_free desk.new }
    ensures worn { IfErr result (λ x. IsWorn x.count (K.view desk.new)) }
    ensures turn { (K.table desk.new ≡ K.table desk.old) × (K.opening desk.new ≡ K.opening desk.old) }
    ensures went { IfErr result (λ _. Went (K.view desk.old) (K.view desk.new) []) }
    ensures kept { IfErr result (λ _. StillHolds (core_of D.seen) (K.opening desk.old) (K.view desk.old) (K.view desk.new) (Lane lane)) }
    ensures did { IfOk result (λ x. Turn (core_of D.seen) (K.opening desk.old) (K.view desk.old) (K.view desk.new) (SkipSays lane request.now fault x)) }
    ensures numbered { (n : Numbered) → result ≡ Ok (Ok n) → IsNumbered (K.opening desk.old).value.last (calls_of (events_of (K.view desk.new).seen)) n.number (record { lane = lane; call = request.now.call; reply = n.reply }) }
{
    let mut system = desk.take()?;
    let answer = skip(&mut system.state, lane, request, fault);
    desk.give(system);
    Ok(answer)
}
