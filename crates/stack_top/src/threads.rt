//! `run IMAGE SCRIPT OUT`: the calls of a script over the drive of an image, on a thread for each lane, worker and flusher.
ghost use Rattle.std.specs.Prelude.{◌≡◌, ◌≤◌, ◌<◌, ◌+◌, ◌^◌, ℕ, List, Ok};
ghost use Rattle.call_text.specs.Order.{IsOrdered, IsWithinLimits};
ghost use Rattle.image_format.specs.Image.{read_image};
ghost use Rattle.image_format.specs.Tables.{Mounts};
ghost use Rattle.mounted_systems.specs.Dealt.{AreMounted};
ghost use Rattle.plain_image.specs.Drives.{drive_of};
ghost use Rattle.plain_image.specs.Opened.{opened};
ghost use Rattle.stack_top.specs.Acts.{name_of};
ghost use Rattle.stack_top.specs.Decided.{IsDecided, IsFinished};
ghost use Rattle.stack_top.specs.Runs.{crew_refusal};
ghost use Rattle.stack_top.specs.Scripts.{run_on, run_work};
ghost use Rattle.stack_top.specs.Works.{runs_at_once_on};

use crate::images::read_image;
use crate::plan::Plan;
use crate::refusal::Refusal;
use crate::running::plan_of;
use crate::scripts::read_named_script;
use bench_runs::{CrewErr, run_crew};
use command_words::Run;
use edge_io::Room;
use gates::Gate;
use log_text::print_logs;
use plain_image::OpenedImage;
use script_words::Script;
use std::alloc::Global;
use std::sync::Wait;
use std::thread::Threads;

// Why a run on many threads has no plan.
fn crew_refusal(e: CrewErr) -> Refusal
    ensures { result ≡ crew_refusal e }
{
    match e {
        CrewErr::NoMemory => Refusal::NoMemory,
        CrewErr::Worn => Refusal::Worn,
    }
}

// The plan of a run of a script's calls at once over the drive of an image, whose bytes the calls don't tell. The requests are moved out of the
// script, and its names stay.
fn ran_at_once<W: Threads + Wait + Sync, G: Gate + Sync>(
    alloc: Global,
    rt: &W,
    image: OpenedImage,
    script: &mut Script,
    asked: &Run,
    gate: &G,
) -> Result<Plan, Refusal>
    requires mounted { AreMounted image.meta image.pages.items }
    requires ordered { IsOrdered script.old }
    requires limits { IsWithinLimits script.old }
    requires crew { asked.now.crew.workers + asked.now.crew.flushers < 2 ^ 32 }
    ensures { (bytes : List ℕ) → Mounts bytes image.meta image.pages.items (read_image bytes) → drive_of bytes ≡ Ok image.drive →
        IsFinished (runs_at_once_on (opened bytes image.drive) script.old (name_of asked.now.out) asked.now.setup) result }
{
    let stores = asked.out.as_str() != "-";
    let run = run_crew(
        alloc,
        rt,
        image.meta,
        image.pages,
        script,
        gate,
        asked.crew,
        asked.setup.place,
        asked.setup.dies,
        stores,
    );
    let made = match run {
        Ok(made) => made,
        Err(e) => return Err(crew_refusal(e)),
    };
    let text = print_logs(alloc, script, &made.logs, made.places)?;
    let plan = plan_of(alloc, text, made.image, &asked.out)?;
    Ok(plan)
}

// SCRIPT and OUT, over an image.
fn run_on<R: Room, W: Threads + Wait + Sync, G: Gate + Sync>(
    alloc: Global,
    rt: &W,
    room: &mut R,
    image: OpenedImage,
    asked: &Run,
    gate: &G,
) -> Result<Plan, Refusal>
    requires mounted { AreMounted image.meta image.pages.items }
    requires crew { asked.now.crew.workers + asked.now.crew.flushers < 2 ^ 32 }
    ensures decided { (bytes : List ℕ) → Mounts bytes image.meta image.pages.items (read_image bytes) → drive_of bytes ≡ Ok image.drive →
        IsDecided (R.names room.old) (R.faults room.old) (R.faults room.new) (run_on (opened bytes image.drive) asked.now.script asked.now.out asked.now.setup) result }
    ensures same { R.names room.new ≡ R.names room.old }
    ensures later { R.faults room.old ≤ R.faults room.new }
{
    let dies = image.drive.geometry.dies();
    let mut calls = read_named_script(alloc, room, &asked.script, asked.setup.dies, dies)?;
    ran_at_once(alloc, rt, image, &mut calls, asked, gate)
}

// The plan of `run IMAGE SCRIPT OUT` and options.
pub fn run_at_once<R: Room, W: Threads + Wait + Sync, G: Gate + Sync>(
    alloc: Global,
    rt: &W,
    room: &mut R,
    asked: &Run,
    gate: &G,
) -> Result<Plan, Refusal>
    requires crew { asked.now.crew.workers + asked.now.crew.flushers < 2 ^ 32 }
    ensures decided { IsDecided (R.names room.old) (R.faults room.old) (R.faults room.new) (run_work asked.now) result }
    ensures same { R.names room.new ≡ R.names room.old }
    ensures later { R.faults room.old ≤ R.faults room.new }
{
    let opened = read_image(alloc, room, &asked.image)?;
    run_on(alloc, rt, room, opened, asked, gate)
}
