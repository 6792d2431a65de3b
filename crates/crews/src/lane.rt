//! A lane: its calls one after the other, from its Enter to its Leave.
ghost use Rattle.std.specs.Prelude.{◌≡◌, ◌≤◌, ◌<◌, ◌+◌, ◌^◌, ◌++◌, ◌∷◌, [], length, IfErr, vec_capacity};
ghost use Rattle.turn_cell.specs.History.{entries_of};
ghost use Rattle.turn_cell.specs.Steps.{IsWorn};
ghost use Rattle.core_state.specs.declared.actor.Actor.TheVariants.{Lane};
ghost use Rattle.system_state.specs.Cores.{core_of};
ghost use Rattle.desk_turns.specs.Passing.{ActsFor, core_seen, Does};
ghost use Rattle.page_steps.specs.Making.{IsFree};
ghost use Rattle.page_steps.specs.Words.{IsSmall};
ghost use Rattle.crews.specs.Lanes.{CallsSay, LaneSays};
ghost use Rattle.crews.specs.Seats.{view_at, opening_at, table_at, IsFreeSeat, IsOutside};

use crate::hands::Hands;
use flash_die::Die;
use gates::Gate;
use page_base::Page;
use page_steps::{System, turn_enter, turn_leave};
use plain_files::{Numbered, Request};
use std::sync::Wait;
use system_state::CallJob;
use turn_cell::{Seated, Worn};

/// A reply more; there is room for it.
fn note(log: &mut Vec<Numbered>, numbered: Numbered)
    requires { length log.old.items < vec_capacity log.old }
    ensures log { log.new.items ≡ log.old.items ++ numbered ∷ [] }
    ensures room { vec_capacity log.old ≤ vec_capacity log.new }
{
    match log.push(numbered) {
        Ok(()) => {}
        Err(_) => unreachable!(),
    }
}

/// Makes the calls of a lane that is free, one after the other, by a pass that has seen all that it made. The log, in which there is room, has
/// their replies with their numbers, which rise; the gate is told of each. At `Worn` the lane ended the first of its requests.
fn run_calls<'a, D: Die, J: CallJob, R: Wait, G: Gate, H: Hands<D, J, R, G>>(
    desk: &mut Seated<'a, System<D, J>, R>,
    gate: &G,
    hands: &H,
    lane: u32,
    requests: &[Request],
    log: &mut Vec<Numbered>,
    page: &mut Page,
) -> Result<(), Worn>
    requires free { IsFreeSeat desk.old }
    requires acts { ActsFor (core_of D.seen) (opening_at desk.old) (view_at desk.old) (Lane lane) }
    requires lane { IsFree (core_seen (core_of D.seen) (opening_at desk.old) (view_at desk.old)) lane }
    requires settled { entries_of (view_at desk.old).number (view_at desk.old).seen ≡ (view_at desk.old).own }
    requires small { IsSmall (opening_at desk.old).value }
    requires few { length requests.now < 2 ^ 32 }
    requires empty { log.old.items ≡ [] }
    requires room { length requests.now ≤ vec_capacity log.old }
    ensures free { IsFreeSeat desk.new }
    ensures worn { IfErr result (λ x. IsWorn x.count (view_at desk.new)) }
    ensures turn { (table_at desk.new ≡ table_at desk.old) × (opening_at desk.new ≡ opening_at desk.old) }
    ensures did { Does (view_at desk.old) (view_at desk.new) (CallsSay (core_of D.seen) (opening_at desk.old).value.last (opening_at desk.old) (view_at desk.new).seen lane requests.now log.new.items result) }
{
    let mut k = 0;
    for request in requests {
        let numbered = hands.call(desk, gate, lane, request, page)?;
        note(log, numbered);
        k += 1;
        gate.replied(lane, k);
    }
    Ok(())
}

/// A lane that hasn't entered enters, makes its calls, and leaves. The log, in which there is room, has the replies with their numbers,
/// which rise. At `Worn` the lane ended the first of its requests.
pub fn run_lane<'a, D: Die, J: CallJob, R: Wait, G: Gate, H: Hands<D, J, R, G>>(
    desk: &mut Seated<'a, System<D, J>, R>,
    gate: &G,
    hands: &H,
    lane: u32,
    requests: &[Request],
    log: &mut Vec<Numbered>,
    page: &mut Page,
) -> Result<(), Worn>
    requires free { IsFreeSeat desk.old }
    requires acts { ActsFor (core_of D.seen) (opening_at desk.old) (view_at desk.old) (Lane lane) }
    requires lane { IsOutside (core_seen (core_of D.seen) (opening_at desk.old) (view_at desk.old)) lane }
    requires small { IsSmall (opening_at desk.old).value }
    requires few { length requests.now < 2 ^ 32 }
    requires empty { log.old.items ≡ [] }
    requires room { length requests.now ≤ vec_capacity log.old }
    ensures free { IsFreeSeat desk.new }
    ensures worn { IfErr result (λ x. IsWorn x.count (view_at desk.new)) }
    ensures turn { (table_at desk.new ≡ table_at desk.old) × (opening_at desk.new ≡ opening_at desk.old) }
    ensures did { Does (view_at desk.old) (view_at desk.new) (LaneSays (core_of D.seen) (opening_at desk.old).value.last (opening_at desk.old) (view_at desk.new).seen lane requests.now log.new.items result) }
{
    turn_enter(desk, lane)?;
    run_calls(desk, gate, hands, lane, requests, log, page)?;
    turn_leave(desk, lane)?;
    Ok(())
}
