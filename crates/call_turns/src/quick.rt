//! The turn of a call that needs no page.
ghost use Rattle.std.specs.Prelude.{◌≡◌, [], true, false, Ok, IfOk, IfErr};
ghost use Rattle.turn_cell.specs.Events.{events_of};
ghost use Rattle.turn_cell.specs.Steps.{IsWorn};
ghost use Rattle.plain_files.specs.declared.calls.Numbered.{Numbered};
ghost use Rattle.core_state.specs.declared.actor.Actor.TheVariants.{Lane};
ghost use Rattle.core_state.specs.LaneEvents.{IsIdle, is_quick};
ghost use Rattle.core_state.specs.Happens.{HoldsNone};
ghost use Rattle.core_state.specs.History.{calls_of};
ghost use Rattle.system_state.specs.Cores.{core_of};
ghost use Rattle.page_steps.specs.QuickTables.{IsDecoded};
ghost use Rattle.desk_turns.specs.Passing.{ActsFor, core_seen, Turn, Went};
ghost use Rattle.page_steps.specs.Words.{StillHolds, IsNumbered, IsSmall};
ghost use Rattle.call_turns.specs.Quick.{QuickSays};

use flash_die::Die;
use page_steps::{Loading, System, try_quick};
use plain_files::{Numbered, Request};
use system_state::{CallJob, NotYet};
use turn_cell::{Desk, Worn};

/// A call that needs no page, of a lane that is free, is answered. `NotYet`: the call that it awaits hasn't ended, or a call in flight holds its
/// file or uses its function; `loading` is as before then. At `Worn` nothing was done, and the lane holds what it held.
pub fn turn_quick<D: Die, J: CallJob, K: Desk<System<D, J>>>(
    desk: &mut K,
    lane: u32,
    request: &Request,
    loading: &mut Loading,
) -> Result<Result<Numbered, NotYet>, Worn>
    requires free { K.is_free desk.old }
    requires acts { ActsFor (core_of D.seen) (K.opening desk.old) (K.view desk.old) (Lane lane) }
    requires hands { HoldsNone (core_seen (core_of D.seen) (K.opening desk.old) (K.view desk.old)) (Lane lane) }
    requires idle { IsIdle (core_seen (core_of D.seen) (K.opening desk.old) (K.view desk.old)) lane }
    requires unmarked { ((core_seen (core_of D.seen) (K.opening desk.old) (K.view desk.old)).lanes lane).mark ≡ false }
    requires kind { is_quick request.now.call ≡ true }
    requires decoded { IsDecoded request.now.call loading.old }
    requires small { IsSmall (K.opening desk.old).value }
    ensures free { K.is_free desk.new }
    ensures worn { IfErr result (λ x. IsWorn x.count (K.view desk.new)) }
    ensures turn { (K.table desk.new ≡ K.table desk.old) × (K.opening desk.new ≡ K.opening desk.old) }
    ensures went { IfErr result (λ _. Went (K.view desk.old) (K.view desk.new) []) }
    ensures kept { IfErr result (λ _. StillHolds (core_of D.seen) (K.opening desk.old) (K.view desk.old) (K.view desk.new) (Lane lane)) }
    ensures did { IfOk result (λ x. Turn (core_of D.seen) (K.opening desk.old) (K.view desk.old) (K.view desk.new) (QuickSays lane request.now loading.old loading.new x)) }
    ensures numbered { (n : Numbered) → result ≡ Ok (Ok n) → IsNumbered (K.opening desk.old).value.last (calls_of (events_of (K.view desk.new).seen)) n.number (record { lane = lane; call = request.now.call; reply = n.reply }) }
{
    let mut system = desk.take()?;
    let answer = try_quick(&mut system.state, lane, request, loading);
    desk.give(system);
    Ok(answer)
}
