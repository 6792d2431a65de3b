//! Calls that find no memory before they begin.
ghost use Rattle.std.specs.Prelude.{◌≡◌, ◌≤◌, ◌^◌, Ok, IfErr};
ghost use Rattle.turn_cell.specs.Desks.{IsFreeAlone, view_alone, opening_alone, table_alone};
ghost use Rattle.turn_cell.specs.Events.{events_of};
ghost use Rattle.turn_cell.specs.Steps.{IsWorn};
ghost use Rattle.plain_files.specs.declared.calls.Numbered.{Numbered};
ghost use Rattle.core_state.specs.declared.actor.Actor.TheVariants.{Lane};
ghost use Rattle.core_state.specs.History.{calls_of};
ghost use Rattle.core_state.specs.LaneEvents.{IsIdle, HasAwaited};
ghost use Rattle.core_state.specs.Happens.{HoldsNone};
ghost use Rattle.system_state.specs.Cores.{core_of};
ghost use Rattle.desk_turns.specs.Passing.{ActsFor, core_seen, Does};
ghost use Rattle.call_turns.specs.Books.{opening_in};
ghost use Rattle.call_turns.specs.Words.{IsNumbered};
ghost use Rattle.quick_calls.specs.Calls.{SkipCallSays};

use call_turns::{System, turn_skip};
use flash_die::Die;
use plain_files::{Numbered, Request};
use std::sync::Wait;
use system_state::CallJob;
use turn_cell::{Alone, Desk, Seated, Worn};

/// Answers a call for which no memory could be had before it began, by `nomemory`. It waits for the call that it awaits. At `Worn` it made no
/// event.
pub fn skip_call<'a, D: Die, J: CallJob, R: Wait>(
    desk: &mut Seated<'a, System<D, J>, R>,
    lane: u32,
    request: &Request,
) -> Result<Numbered, Worn>
    requires free { ⟦<Seated<'a, System<D, J>, R> as Desk<System<D, J>>>⟧.is_free desk.old }
    requires acts { ActsFor (core_of D.seen) (⟦<Seated<'a, System<D, J>, R> as Desk<System<D, J>>>⟧.opening desk.old) (⟦<Seated<'a, System<D, J>, R> as Desk<System<D, J>>>⟧.view desk.old) (Lane lane) }
    requires hands { HoldsNone (core_seen (core_of D.seen) (⟦<Seated<'a, System<D, J>, R> as Desk<System<D, J>>>⟧.opening desk.old) (⟦<Seated<'a, System<D, J>, R> as Desk<System<D, J>>>⟧.view desk.old)) (Lane lane) }
    requires idle { IsIdle (core_seen (core_of D.seen) (⟦<Seated<'a, System<D, J>, R> as Desk<System<D, J>>>⟧.opening desk.old) (⟦<Seated<'a, System<D, J>, R> as Desk<System<D, J>>>⟧.view desk.old)) lane }
    requires small { (⟦<Seated<'a, System<D, J>, R> as Desk<System<D, J>>>⟧.opening desk.old).value.last ≤ 2 ^ 62 }
    ensures free { ⟦<Seated<'a, System<D, J>, R> as Desk<System<D, J>>>⟧.is_free desk.new }
    ensures worn { IfErr result (λ x. IsWorn x.count (⟦<Seated<'a, System<D, J>, R> as Desk<System<D, J>>>⟧.view desk.new)) }
    ensures turn { (⟦<Seated<'a, System<D, J>, R> as Desk<System<D, J>>>⟧.table desk.new ≡ ⟦<Seated<'a, System<D, J>, R> as Desk<System<D, J>>>⟧.table desk.old) × (⟦<Seated<'a, System<D, J>, R> as Desk<System<D, J>>>⟧.opening desk.new ≡ ⟦<Seated<'a, System<D, J>, R> as Desk<System<D, J>>>⟧.opening desk.old) }
    ensures did { Does (⟦<Seated<'a, System<D, J>, R> as Desk<System<D, J>>>⟧.view desk.old) (⟦<Seated<'a, System<D, J>, R> as Desk<System<D, J>>>⟧.view desk.new) (SkipCallSays D.seen (⟦<Seated<'a, System<D, J>, R> as Desk<System<D, J>>>⟧.opening desk.old) (⟦<Seated<'a, System<D, J>, R> as Desk<System<D, J>>>⟧.view desk.old) (⟦<Seated<'a, System<D, J>, R> as Desk<System<D, J>>>⟧.view desk.new) lane request.now result) }
    ensures numbered { (n : Numbered) → result ≡ Ok n → IsNumbered (⟦<Seated<'a, System<D, J>, R> as Desk<System<D, J>>>⟧.opening desk.old).value.last (calls_of (events_of (⟦<Seated<'a, System<D, J>, R> as Desk<System<D, J>>>⟧.view desk.new).seen)) n.number (record { lane = lane; call = request.now.call; reply = n.reply }) }
{
    let rt = desk.runtime();
    for _ in rt.forever() {
        let answer = turn_skip(desk, lane, request, false)?;
        match answer {
            Ok(numbered) => return Ok(numbered),
            Err(_) => desk.pause(),
        }
    }
    unreachable!()
}

/// The same by the only pass, where the call that it awaits has ended, so that it never waits.
pub fn skip_call_alone<D: Die, J: CallJob>(
    alone: &mut Alone<System<D, J>>,
    lane: u32,
    request: &Request,
) -> Result<Numbered, Worn>
    requires free { IsFreeAlone opening_in alone.old }
    requires hands { HoldsNone (core_seen (core_of D.seen) (opening_alone opening_in alone.old) (view_alone alone.old)) (Lane lane) }
    requires idle { IsIdle (core_seen (core_of D.seen) (opening_alone opening_in alone.old) (view_alone alone.old)) lane }
    requires awaited { HasAwaited (core_seen (core_of D.seen) (opening_alone opening_in alone.old) (view_alone alone.old)).lanes request.now }
    requires small { (opening_alone opening_in alone.old).value.last ≤ 2 ^ 62 }
    ensures free { IsFreeAlone opening_in alone.new }
    ensures worn { IfErr result (λ x. IsWorn x.count (view_alone alone.new)) }
    ensures turn { (table_alone alone.new ≡ table_alone alone.old) × (opening_alone opening_in alone.new ≡ opening_alone opening_in alone.old) }
    ensures did { Does (view_alone alone.old) (view_alone alone.new) (SkipCallSays D.seen (opening_alone opening_in alone.old) (view_alone alone.old) (view_alone alone.new) lane request.now result) }
    ensures numbered { (n : Numbered) → result ≡ Ok n → IsNumbered (opening_alone opening_in alone.old).value.last (calls_of (events_of (view_alone alone.new).seen)) n.number (record { lane = lane; call = request.now.call; reply = n.reply }) }
{
    let answer = turn_skip(alone, lane, request, false)?;
    match answer {
        Ok(numbered) => Ok(numbered),
        Err(_) => unreachable!(),
    }
}
