//! The run of one thread over a system, from its start to its end.
ghost use Rattle.std.specs.Prelude.{◌≡◌, ◌↔◌, ℕ, false, [], None, length, IfOk};
ghost use Rattle.turn_cell.specs.Events.{events_of};
ghost use Rattle.turn_cell.specs.Passes.{view};
ghost use Rattle.core_state.specs.History.{calls_of};
ghost use Rattle.core_solo.specs.Solo.{SoloRun};
ghost use Rattle.core_solo.specs.Stored.{IsAllStored};
ghost use Rattle.system_state.specs.Cores.{core_of};
ghost use Rattle.system_state.specs.Settled.{Settled as IsAllSettled};
ghost use Rattle.system_state.specs.Stands.{Stands};
ghost use Rattle.system_metas.specs.Encode.{encode};
ghost use Rattle.settling.specs.Words.{IsSmall};
ghost use Rattle.settling.specs.Steps.{EndsInFailure};
ghost use Rattle.settling.specs.declared.last_sync.Settled.TheVariants.{NotAsked, Done, Failed};
ghost use Rattle.lane_logs.specs.Logs.{AreLogs};
ghost use Rattle.solo_runs.specs.Lines.{script_of};
ghost use Rattle.solo_runs.specs.Run.{MayRun, IsRunnable};

use crate::line_calls::LineCalls;
use crate::making::run_whole;
use crate::turns::{close_turn, open_turn};
use flash_die::Die;
use lane_logs::{LaneLog, empty_logs};
use page_base::{NoMemory, Page};
use script_words::Script;
use settling::{Settled, System};
use std::alloc::Global;
use system_state::CallJob;
use turn_cell::Front;

/// What a run leaves.
#[derive(Drop)]
pub struct Ran<D: Die, J: CallJob> {
    /// The system, which stands for the whole history.
    pub system: System<D, J>,
    /// What each lane was told.
    pub logs: Vec<LaneLog>,
    /// The history. It has no bytes.
    pub front: Front<System<D, J>>,
    /// How the last sync ended.
    pub settled: Settled,
}

/// Runs a script on one thread, over a system that was just started with as many lanes: all lanes enter, the lines are answered in their order,
/// all lanes leave, and where `settles` is set the last sync follows, to its end or to the first failure. However it ends, no call is in flight
/// then and all dies are at home.
///
/// `NoMemory` comes before the first lane enters. The turn begins at 0, and is never worn: a run has too few events.
pub fn run_over<D: Die, J: CallJob, C: LineCalls<D, J>>(
    alloc: Global,
    system: System<D, J>,
    calls: &mut C,
    script: &Script,
    settles: bool,
) -> Result<Ran<D, J>, NoMemory>
    requires stands { Stands D.seen J.suits system.state system.state [] }
    requires small { IsSmall system.state }
    requires script { IsRunnable (script_of script.now) }
    requires may { MayRun (script_of script.now) (core_of D.seen system.state) }
    ensures stands { IfOk result (λ r. Stands D.seen J.suits r.system.state system.state (view r.front.pass.value).seen) }
    ensures run { IfOk result (λ r. SoloRun encode (core_of D.seen system.state) (script_of script.now) settles (events_of (view r.front.pass.value).seen) (core_of D.seen r.system.state)) }
    ensures logs { IfOk result (λ r. AreLogs (length script.now.lanes) system.state.last (calls_of (events_of (view r.front.pass.value).seen)) r.logs.items) }
    ensures idle { IfOk result (λ r. (lane : ℕ) → (core_of D.seen r.system.state).calls lane ≡ None) }
    ensures home { IfOk result (λ r. (die : ℕ) → ((core_of D.seen r.system.state).dies die).out ≡ None) }
    ensures asked { IfOk result (λ r. (r.settled ≡ NotAsked) ↔ (settles ≡ false)) }
    ensures failed { IfOk result (λ r. (r.settled ≡ Failed) ↔ EndsInFailure (view r.front.pass.value).seen) }
    ensures stored { IfOk result (λ r. r.settled ≡ Done → IsAllStored encode (core_of D.seen r.system.state)) }
    ensures settled { IfOk result (λ r. r.settled ≡ Done → IsAllSettled D.seen r.system.state) }
{
    let mut logs = empty_logs(alloc, script.lanes.as_slice())?;
    let mut page = Page::zero(alloc)?;
    let last = system.state.last;
    let mut alone = open_turn(alloc, system)?;
    let settled = run_whole(
        &mut alone, calls, script, &mut logs, last, &mut page, settles,
    );
    let closed = close_turn(alone);
    Ok(Ran {
        system: closed.book,
        logs,
        front: closed.front,
        settled,
    })
}
