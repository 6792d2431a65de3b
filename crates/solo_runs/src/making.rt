//! The parts of a run, one after the other.
ghost use Rattle.std.specs.Prelude.{◌≡◌, ◌≤◌, ◌^◌, ℕ, [], length, IfOk, IfErr};
ghost use Rattle.turn_cell.specs.Desks.{IsFreeAlone, view_alone, opening_alone, table_alone};
ghost use Rattle.turn_cell.specs.Events.{events_of};
ghost use Rattle.turn_cell.specs.Steps.{IsWorn};
ghost use Rattle.script_words.specs.Lanes.{requests};
ghost use Rattle.core_state.specs.History.{calls_of};
ghost use Rattle.system_state.specs.Cores.{core_of};
ghost use Rattle.desk_turns.specs.Passing.{core_seen, Does};
ghost use Rattle.settling.specs.Books.{opening_in};
ghost use Rattle.settling.specs.Words.{IsSmall};
ghost use Rattle.lane_logs.specs.Logs.{AreLogs, HaveRoom};
ghost use Rattle.solo_runs.specs.Lines.{script_of};
ghost use Rattle.solo_runs.specs.Run.{MayRun, IsRunnable, ScriptSays, HasRun, RunSays};

use crate::line_calls::LineCalls;
use crate::lines::run_lines;
use flash_die::Die;
use lane_logs::LaneLog;
use page_base::Page;
use script_words::Script;
use settling::{Settled, System, settle_alone};
use solo_lanes::{enter_all, leave_all};
use system_state::CallJob;
use turn_cell::{Alone, Worn};

/// All lanes enter, the lines are answered, and all lanes leave.
fn run_script<D: Die, J: CallJob, C: LineCalls<D, J>>(
    alone: &mut Alone<System<D, J>>,
    calls: &mut C,
    script: &Script,
    logs: &mut Vec<LaneLog>,
    last: u64,
) -> Result<(), Worn>
    requires free { IsFreeAlone opening_in alone.old }
    requires small { IsSmall (opening_alone opening_in alone.old).value }
    requires script { IsRunnable (script_of script.now) }
    requires may { MayRun (script_of script.now) (core_seen (core_of D.seen) (opening_alone opening_in alone.old) (view_alone alone.old)) }
    requires none { (view_alone alone.old).seen ≡ [] }
    requires logs { AreLogs (length script.now.lanes) last [] logs.old.items }
    requires room { HaveRoom (requests script.now) logs.old.items }
    requires few { last ≤ 2 ^ 62 }
    ensures free { IsFreeAlone opening_in alone.new }
    ensures worn { IfErr result (λ x. IsWorn x.count (view_alone alone.new)) }
    ensures turn { (table_alone alone.new ≡ table_alone alone.old) × (opening_alone opening_in alone.new ≡ opening_alone opening_in alone.old) }
    ensures did { Does (view_alone alone.old) (view_alone alone.new) (ScriptSays D.seen (opening_alone opening_in alone.old) (view_alone alone.old) (view_alone alone.new) (script_of script.now) result) }
    ensures logs { IfOk result (λ _. AreLogs (length script.now.lanes) last (calls_of (events_of (view_alone alone.new).seen)) logs.new.items) }
{
    let lanes = script.lanes.len() as u32;
    enter_all(alone, lanes)?;
    run_lines(alone, calls, script, logs, last)?;
    leave_all(alone, lanes)?;
    Ok(())
}

/// The same, and the last sync where it is asked for, by way of `page`.
pub fn make_run<D: Die, J: CallJob, C: LineCalls<D, J>>(
    alone: &mut Alone<System<D, J>>,
    calls: &mut C,
    script: &Script,
    logs: &mut Vec<LaneLog>,
    last: u64,
    page: &mut Page,
    settles: bool,
) -> Result<Settled, Worn>
    requires free { IsFreeAlone opening_in alone.old }
    requires small { IsSmall (opening_alone opening_in alone.old).value }
    requires script { IsRunnable (script_of script.now) }
    requires may { MayRun (script_of script.now) (core_seen (core_of D.seen) (opening_alone opening_in alone.old) (view_alone alone.old)) }
    requires none { (view_alone alone.old).seen ≡ [] }
    requires logs { AreLogs (length script.now.lanes) last [] logs.old.items }
    requires room { HaveRoom (requests script.now) logs.old.items }
    requires few { last ≤ 2 ^ 62 }
    ensures free { IsFreeAlone opening_in alone.new }
    ensures worn { IfErr result (λ x. IsWorn x.count (view_alone alone.new)) }
    ensures turn { (table_alone alone.new ≡ table_alone alone.old) × (opening_alone opening_in alone.new ≡ opening_alone opening_in alone.old) }
    ensures did { Does (view_alone alone.old) (view_alone alone.new) (RunSays D.seen (opening_alone opening_in alone.old) (view_alone alone.old) (view_alone alone.new) (script_of script.now) settles result) }
    ensures logs { IfOk result (λ _. AreLogs (length script.now.lanes) last (calls_of (events_of (view_alone alone.new).seen)) logs.new.items) }
{
    run_script(alone, calls, script, logs, last)?;
    if settles {
        return settle_alone(alone, page);
    }
    Ok(Settled::NotAsked)
}

/// The same, in a turn that began at 0. It is never worn, since a run has too few events.
pub(crate) fn run_whole<D: Die, J: CallJob, C: LineCalls<D, J>>(
    alone: &mut Alone<System<D, J>>,
    calls: &mut C,
    script: &Script,
    logs: &mut Vec<LaneLog>,
    last: u64,
    page: &mut Page,
    settles: bool,
) -> Settled
    requires free { IsFreeAlone opening_in alone.old }
    requires small { IsSmall (opening_alone opening_in alone.old).value }
    requires script { IsRunnable (script_of script.now) }
    requires may { MayRun (script_of script.now) (core_seen (core_of D.seen) (opening_alone opening_in alone.old) (view_alone alone.old)) }
    requires none { (view_alone alone.old).seen ≡ [] }
    requires first { (view_alone alone.old).first ≡ 0 }
    requires logs { AreLogs (length script.now.lanes) last [] logs.old.items }
    requires room { HaveRoom (requests script.now) logs.old.items }
    requires few { last ≤ 2 ^ 62 }
    ensures free { IsFreeAlone opening_in alone.new }
    ensures turn { opening_alone opening_in alone.new ≡ opening_alone opening_in alone.old }
    ensures did { Does (view_alone alone.old) (view_alone alone.new) (HasRun D.seen (opening_alone opening_in alone.old) (view_alone alone.old) (view_alone alone.new) (script_of script.now) settles result) }
    ensures logs { AreLogs (length script.now.lanes) last (calls_of (events_of (view_alone alone.new).seen)) logs.new.items }
{
    match make_run(alone, calls, script, logs, last, page, settles) {
        Ok(settled) => settled,
        Err(_) => unreachable!(),
    }
}
