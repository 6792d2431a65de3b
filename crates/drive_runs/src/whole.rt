//! The run of one thread over a system that was just opened, and what every run leaves.
ghost use Rattle.std.specs.Prelude.{◌≡◌, ℕ, List, None, IfOk};
ghost use Rattle.call_text.specs.Order.{IsOrdered, IsWithinLimits};
ghost use Rattle.command_words.specs.declared.options.DieKind.{DieKind as Kind};
ghost use Rattle.dispatcher.specs.declared.side.Place.{Place};
ghost use Rattle.image_format.specs.declared.meta.Meta.{Meta};
ghost use Rattle.core_state.specs.State.{Page};
ghost use Rattle.system_state.specs.Cores.{core_of};
ghost use Rattle.system_state.specs.Stands.{IsStanding};
ghost use Rattle.drive_runs.specs.Imaging.{ImageSays};
ghost use Rattle.drive_runs.specs.Opened.{HasOpened};
ghost use Rattle.drive_runs.specs.Runs.{HasRunDrive};

use crate::image::{image_of, images_tell};
use crate::running::DriveRun;
use call_job::Job;
use core_plans::laws::{standing_told, told_failures_few};
use core_solo::laws::run_serves;
use core_stores::laws::calls_legal;
use flash_die::Die;
use page_base::NoMemory;
use script_words::Script;
use settling::System;
use solo_runs::{LineCalls, Ran, run_over};
use std::alloc::Global;
use system_state::{CallJob, State};

// What a run that came to its end leaves, with its image where that is asked for.
pub(crate) fn left_by<D: Die>(alloc: Global, ran: Ran<D, Job>) -> Result<DriveRun, NoMemory>
    requires standing { IsStanding D.seen ⟦<Job as CallJob>⟧.suits ran.system.state }
    requires idle { (lane : ℕ) → (core_of D.seen ran.system.state).calls lane ≡ None }
    requires home { (d : ℕ) → ((core_of D.seen ran.system.state).dies d).out ≡ None }
    ensures logs { IfOk result (λ r. r.logs ≡ ran.logs) }
    ensures places { IfOk result (λ r. r.places ≡ ran.system.state.places) }
    ensures image { IfOk result (λ r. ImageSays D.seen ran.system.state ran.settled r.image) }
{
    let places = ran.system.state.places;
    let image = image_of(alloc, ran.system.state, ran.settled)?;
    Ok(DriveRun {
        logs: ran.logs,
        places,
        image,
    })
}

// Runs a script on one thread over a system that was just opened, and gathers its image where that is asked for.
pub(crate) fn run_and_gather<D: Die, C: LineCalls<D, Job>>(
    alloc: Global,
    state: State<D, Job>,
    calls: &mut C,
    script: &Script,
    stores: bool,
) -> Result<DriveRun, NoMemory>
    requires opened { (kind : Kind) × (meta : Meta) × (pages : List Page) × (place : Place) × HasOpened D.seen ⟦<Job as CallJob>⟧.suits kind meta pages script.now place state }
    requires ordered { IsOrdered script.now }
    requires limits { IsWithinLimits script.now }
    ensures { IfOk result (λ r. (kind : Kind) (meta : Meta) (pages : List Page) (place : Place) →
        HasOpened D.seen ⟦<Job as CallJob>⟧.suits kind meta pages script.now place state → HasRunDrive meta pages script.now place kind stores r) }
{
    standing_told::<D, Job>();
    told_failures_few();
    run_serves();
    calls_legal();
    images_tell::<D>();
    let ran = run_over(alloc, System { state }, calls, script, stores)?;
    left_by(alloc, ran)
}
