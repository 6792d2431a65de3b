//! The turn in which a call begins, or is refused.
ghost use Rattle.std.specs.Prelude.{◌≡◌, ◌⊎◌, [], true, false, Ok, IfOk, IfErr};
ghost use Rattle.turn_cell.specs.Events.{events_of};
ghost use Rattle.turn_cell.specs.Steps.{IsWorn};
ghost use Rattle.plain_files.specs.declared.calls.Numbered.{Numbered};
ghost use Rattle.core_state.specs.declared.actor.Actor.TheVariants.{Lane};
ghost use Rattle.core_state.specs.Reach.{is_data, is_sync};
ghost use Rattle.core_state.specs.LaneEvents.{IsIdle};
ghost use Rattle.core_state.specs.Happens.{HoldsNone};
ghost use Rattle.core_state.specs.History.{calls_of};
ghost use Rattle.system_state.specs.Cores.{core_of};
ghost use Rattle.page_steps.specs.BegunAnswer.TheVariants.{Ended};
ghost use Rattle.desk_turns.specs.Passing.{ActsFor, core_seen, Turn, Went};
ghost use Rattle.page_steps.specs.Words.{StillHolds, IsNumbered, IsSmall};
ghost use Rattle.call_turns.specs.Beginning.{BeginSays};

use dispatcher::Side;
use flash_die::Die;
use page_steps::{Begun, System, try_begin};
use plain_files::Request;
use system_state::{CallJob, NotYet};
use turn_cell::{Desk, Worn};

/// A data call or a `sync` of a lane that is free begins, or is refused and has ended. `NotYet`: the call that it awaits hasn't ended, or a call
/// is in its way, or its side has no room for it; `picked` is that side then. At `Worn` nothing was done, and the lane holds what it held.
pub fn turn_begin<D: Die, J: CallJob, K: Desk<System<D, J>>>(
    desk: &mut K,
    lane: u32,
    request: &Request,
    picked: &mut Side,
) -> Result<Result<Begun, NotYet>, Worn>
    requires free { K.is_free desk.old }
    requires acts { ActsFor (core_of D.seen) (K.opening desk.old) (K.view desk.old) (Lane lane) }
    requires hands { HoldsNone (core_seen (core_of D.seen) (K.opening desk.old) (K.view desk.old)) (Lane lane) }
    requires idle { IsIdle (core_seen (core_of D.seen) (K.opening desk.old) (K.view desk.old)) lane }
    requires unmarked { ((core_seen (core_of D.seen) (K.opening desk.old) (K.view desk.old)).lanes lane).mark ≡ false }
    requires kind { (is_data request.now.call ≡ true) ⊎ (is_sync request.now.call ≡ true) }
    requires small { IsSmall (K.opening desk.old).value }
    ensures free { K.is_free desk.new }
    ensures worn { IfErr result (λ x. IsWorn x.count (K.view desk.new)) }
    ensures turn { (K.table desk.new ≡ K.table desk.old) × (K.opening desk.new ≡ K.opening desk.old) }
    ensures went { IfErr result (λ _. Went (K.view desk.old) (K.view desk.new) []) }
    ensures kept { IfErr result (λ _. StillHolds (core_of D.seen) (K.opening desk.old) (K.view desk.old) (K.view desk.new) (Lane lane)) }
    ensures did { IfOk result (λ x. Turn (core_of D.seen) (K.opening desk.old) (K.view desk.old) (K.view desk.new) (BeginSays lane request.now picked.new x)) }
    ensures numbered { (n : Numbered) → result ≡ Ok (Ok (Ended n)) → IsNumbered (K.opening desk.old).value.last (calls_of (events_of (K.view desk.new).seen)) n.number (record { lane = lane; call = request.now.call; reply = n.reply }) }
{
    let mut system = desk.take()?;
    let answer = try_begin(&mut system.state, lane, request, picked);
    desk.give(system);
    Ok(answer)
}
