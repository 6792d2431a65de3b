//! The lines of a script.
ghost use Rattle.std.specs.Prelude.{◌≡◌, ◌≤◌, ◌<◌, ◌+◌, ◌^◌, ◌∷◌, ◌++◌, ℕ, List, [], length, take, drop, IfOk, IfErr};
ghost use Rattle.turn_cell.specs.Desks.{IsFreeAlone, view_alone, opening_alone, table_alone};
ghost use Rattle.turn_cell.specs.Events.{events_of};
ghost use Rattle.turn_cell.specs.Steps.{IsWorn};
ghost use Rattle.script_words.specs.Lanes.{requests};
ghost use Rattle.core_state.specs.History.{calls_of};
ghost use Rattle.system_state.specs.Cores.{core_of};
ghost use Rattle.desk_turns.specs.Passing.{core_seen, Does};
ghost use Rattle.settling.specs.Books.{opening_in};
ghost use Rattle.settling.specs.Words.{IsSmall};
ghost use Rattle.lane_logs.specs.Logs.{AreLogs, HaveRoom};
ghost use Rattle.solo_runs.specs.Lines.{script_of, IsOrdered, IsBetween, AreCallsOf, OneSays, LinesSay};

use crate::line_calls::LineCalls;
use flash_die::Die;
use lane_logs::{LaneLog, note};
use script_words::Script;
use settling::System;
use system_state::CallJob;
use turn_cell::{Alone, Worn};

/// Answers the line of this number, counted from 0, which is this call of this lane; the lines before have been answered. The first of all calls
/// has the number that follows `last`.
fn run_line<D: Die, J: CallJob, C: LineCalls<D, J>>(
    alone: &mut Alone<System<D, J>>,
    calls: &mut C,
    script: &Script,
    logs: &mut Vec<LaneLog>,
    last: u64,
    at: usize,
    line: (u32, u32),
) -> Result<(), Worn>
    requires free { IsFreeAlone opening_in alone.old }
    requires small { IsSmall (opening_alone opening_in alone.old).value }
    requires script { IsOrdered (script_of script.now) }
    requires line { script.now.order ≡ take at script.now.order ++ line ∷ drop (at + 1) script.now.order }
    requires between { IsBetween (script_of script.now) (take at script.now.order) (core_seen (core_of D.seen) (opening_alone opening_in alone.old) (view_alone alone.old)) }
    requires logs { AreLogs (length script.now.lanes) last (calls_of (events_of (view_alone alone.old).seen)) logs.old.items }
    requires room { HaveRoom (requests script.now) logs.old.items }
    requires told { AreCallsOf last (take at script.now.order) (calls_of (events_of (view_alone alone.old).seen)) }
    requires few { (last ≤ 2 ^ 62) × (length script.now.order ≤ 10000) }
    requires at { at < length script.now.order }
    ensures free { IsFreeAlone opening_in alone.new }
    ensures worn { IfErr result (λ x. IsWorn x.count (view_alone alone.new)) }
    ensures turn { (table_alone alone.new ≡ table_alone alone.old) × (opening_alone opening_in alone.new ≡ opening_alone opening_in alone.old) }
    ensures did { Does (view_alone alone.old) (view_alone alone.new) (OneSays D.seen (opening_alone opening_in alone.old) (view_alone alone.old) (view_alone alone.new) (script_of script.now) (take at script.now.order) line result) }
    ensures logs { IfOk result (λ _. AreLogs (length script.now.lanes) last (calls_of (events_of (view_alone alone.new).seen)) logs.new.items) }
    ensures room { HaveRoom (requests script.now) logs.new.items }
    ensures told { IfOk result (λ _. AreCallsOf last (take at script.now.order ++ line ∷ []) (calls_of (events_of (view_alone alone.new).seen))) }
{
    let (lane, number) = line;
    let lanes = script.lanes.as_slice();
    let requests = lanes[lane as usize].requests.as_slice();
    let request = &requests[number as usize - 1];
    let answered = calls.answer(alone, lane, request)?;
    note(logs, lane, last + at as u64 + 1, answered.reply);
    Ok(())
}

/// Answers the lines of a script, one after the other, and notes the replies.
pub(crate) fn run_lines<D: Die, J: CallJob, C: LineCalls<D, J>>(
    alone: &mut Alone<System<D, J>>,
    calls: &mut C,
    script: &Script,
    logs: &mut Vec<LaneLog>,
    last: u64,
) -> Result<(), Worn>
    requires free { IsFreeAlone opening_in alone.old }
    requires small { IsSmall (opening_alone opening_in alone.old).value }
    requires script { IsOrdered (script_of script.now) }
    requires between { IsBetween (script_of script.now) [] (core_seen (core_of D.seen) (opening_alone opening_in alone.old) (view_alone alone.old)) }
    requires none { calls_of (events_of (view_alone alone.old).seen) ≡ [] }
    requires logs { AreLogs (length script.now.lanes) last [] logs.old.items }
    requires room { HaveRoom (requests script.now) logs.old.items }
    requires few { (last ≤ 2 ^ 62) × (length script.now.order ≤ 10000) }
    ensures free { IsFreeAlone opening_in alone.new }
    ensures worn { IfErr result (λ x. IsWorn x.count (view_alone alone.new)) }
    ensures turn { (table_alone alone.new ≡ table_alone alone.old) × (opening_alone opening_in alone.new ≡ opening_alone opening_in alone.old) }
    ensures did { Does (view_alone alone.old) (view_alone alone.new) (LinesSay D.seen (opening_alone opening_in alone.old) (view_alone alone.old) (view_alone alone.new) (script_of script.now) result) }
    ensures logs { IfOk result (λ _. AreLogs (length script.now.lanes) last (calls_of (events_of (view_alone alone.new).seen)) logs.new.items) }
{
    let order = script.order.as_slice();
    for at in 0..order.len() {
        run_line(alone, calls, script, logs, last, at, order[at])?;
    }
    Ok(())
}
