//! Calls that need no page.
ghost use Rattle.std.specs.Prelude.{◌≡◌, true, Ok, IfErr};
ghost use Rattle.turn_cell.specs.Desks.{IsFreeAlone, view_alone, opening_alone, table_alone};
ghost use Rattle.turn_cell.specs.Events.{events_of};
ghost use Rattle.turn_cell.specs.Steps.{IsWorn};
ghost use Rattle.plain_files.specs.declared.calls.Numbered.{Numbered};
ghost use Rattle.core_state.specs.declared.actor.Actor.TheVariants.{Lane};
ghost use Rattle.core_state.specs.History.{calls_of};
ghost use Rattle.core_state.specs.LaneEvents.{is_quick};
ghost use Rattle.core_solo.specs.Alone.{IsAlone};
ghost use Rattle.system_state.specs.Cores.{core_of};
ghost use Rattle.desk_turns.specs.Passing.{ActsFor, core_seen, Does};
ghost use Rattle.call_turns.specs.Books.{opening_in};
ghost use Rattle.call_turns.specs.QuickTables.{IsDecoded};
ghost use Rattle.call_turns.specs.Words.{IsNumbered, IsSmall};
ghost use Rattle.call_turns.specs.Making.{IsFree};
ghost use Rattle.quick_calls.specs.Calls.{QuickCallSays};

use call_turns::{Loading, System, turn_quick};
use flash_die::Die;
use plain_files::{Numbered, Request};
use std::sync::Wait;
use system_state::CallJob;
use turn_cell::{Alone, Desk, Seated, Worn};

/// Answers a call that needs no page, of a lane that is free. It waits for the call that it awaits, and for those in flight that hold its file
/// or use its function. At `Worn` it made no event.
pub fn quick_call<'a, D: Die, J: CallJob, R: Wait>(
    desk: &mut Seated<'a, System<D, J>, R>,
    lane: u32,
    request: &Request,
    loading: &mut Loading,
) -> Result<Numbered, Worn>
    requires free { ⟦<Seated<'a, System<D, J>, R> as Desk<System<D, J>>>⟧.is_free desk.old }
    requires acts { ActsFor (core_of D.seen) (⟦<Seated<'a, System<D, J>, R> as Desk<System<D, J>>>⟧.opening desk.old) (⟦<Seated<'a, System<D, J>, R> as Desk<System<D, J>>>⟧.view desk.old) (Lane lane) }
    requires lane { IsFree (core_seen (core_of D.seen) (⟦<Seated<'a, System<D, J>, R> as Desk<System<D, J>>>⟧.opening desk.old) (⟦<Seated<'a, System<D, J>, R> as Desk<System<D, J>>>⟧.view desk.old)) lane }
    requires kind { is_quick request.now.call ≡ true }
    requires decoded { IsDecoded request.now.call loading.old }
    requires small { IsSmall (⟦<Seated<'a, System<D, J>, R> as Desk<System<D, J>>>⟧.opening desk.old).value }
    ensures free { ⟦<Seated<'a, System<D, J>, R> as Desk<System<D, J>>>⟧.is_free desk.new }
    ensures worn { IfErr result (λ x. IsWorn x.count (⟦<Seated<'a, System<D, J>, R> as Desk<System<D, J>>>⟧.view desk.new)) }
    ensures turn { (⟦<Seated<'a, System<D, J>, R> as Desk<System<D, J>>>⟧.table desk.new ≡ ⟦<Seated<'a, System<D, J>, R> as Desk<System<D, J>>>⟧.table desk.old) × (⟦<Seated<'a, System<D, J>, R> as Desk<System<D, J>>>⟧.opening desk.new ≡ ⟦<Seated<'a, System<D, J>, R> as Desk<System<D, J>>>⟧.opening desk.old) }
    ensures did { Does (⟦<Seated<'a, System<D, J>, R> as Desk<System<D, J>>>⟧.view desk.old) (⟦<Seated<'a, System<D, J>, R> as Desk<System<D, J>>>⟧.view desk.new) (QuickCallSays D.seen (⟦<Seated<'a, System<D, J>, R> as Desk<System<D, J>>>⟧.opening desk.old) (⟦<Seated<'a, System<D, J>, R> as Desk<System<D, J>>>⟧.view desk.old) (⟦<Seated<'a, System<D, J>, R> as Desk<System<D, J>>>⟧.view desk.new) lane request.now result) }
    ensures numbered { (n : Numbered) → result ≡ Ok n → IsNumbered (⟦<Seated<'a, System<D, J>, R> as Desk<System<D, J>>>⟧.opening desk.old).value.last (calls_of (events_of (⟦<Seated<'a, System<D, J>, R> as Desk<System<D, J>>>⟧.view desk.new).seen)) n.number (record { lane = lane; call = request.now.call; reply = n.reply }) }
{
    let rt = desk.runtime();
    for _ in rt.forever() {
        let answer = turn_quick(desk, lane, request, loading)?;
        match answer {
            Ok(numbered) => return Ok(numbered),
            Err(_) => desk.pause(),
        }
    }
    unreachable!()
}

/// The same by the only pass, where the lane's call is alone: nobody is in its way, so it never waits.
pub fn quick_call_alone<D: Die, J: CallJob>(
    alone: &mut Alone<System<D, J>>,
    lane: u32,
    request: &Request,
    loading: &mut Loading,
) -> Result<Numbered, Worn>
    requires free { IsFreeAlone opening_in alone.old }
    requires lane { IsFree (core_seen (core_of D.seen) (opening_alone opening_in alone.old) (view_alone alone.old)) lane }
    requires alone { IsAlone (core_seen (core_of D.seen) (opening_alone opening_in alone.old) (view_alone alone.old)) lane request.now }
    requires kind { is_quick request.now.call ≡ true }
    requires decoded { IsDecoded request.now.call loading.old }
    requires small { IsSmall (opening_alone opening_in alone.old).value }
    ensures free { IsFreeAlone opening_in alone.new }
    ensures worn { IfErr result (λ x. IsWorn x.count (view_alone alone.new)) }
    ensures turn { (table_alone alone.new ≡ table_alone alone.old) × (opening_alone opening_in alone.new ≡ opening_alone opening_in alone.old) }
    ensures did { Does (view_alone alone.old) (view_alone alone.new) (QuickCallSays D.seen (opening_alone opening_in alone.old) (view_alone alone.old) (view_alone alone.new) lane request.now result) }
    ensures numbered { (n : Numbered) → result ≡ Ok n → IsNumbered (opening_alone opening_in alone.old).value.last (calls_of (events_of (view_alone alone.new).seen)) n.number (record { lane = lane; call = request.now.call; reply = n.reply }) }
{
    let answer = turn_quick(alone, lane, request, loading)?;
    match answer {
        Ok(numbered) => Ok(numbered),
        Err(_) => unreachable!(),
    }
}
