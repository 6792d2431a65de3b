//! The run of a crew over dies of the kind that is asked for.
ghost use Rattle.std.specs.Prelude.{◌≡◌, ◌+◌, ◌<◌, ◌^◌, ℕ, List, length, Ok, Err, IfOk};
ghost use Rattle.call_text.specs.Order.{IsOrdered, IsWithinLimits};
ghost use Rattle.script_words.specs.Lanes.{names};
ghost use Rattle.command_words.specs.declared.options.DieKind.{DieKind as Kind};
ghost use Rattle.dispatcher.specs.declared.side.Place.{Place as PlaceView};
ghost use Rattle.image_format.specs.declared.meta.Meta.{Meta as MetaView};
ghost use Rattle.image_format.specs.Image.{mounts_to, read_image};
ghost use Rattle.image_format.specs.Tables.{Mounts};
ghost use Rattle.core_state.specs.PlainOf.{plain};
ghost use Rattle.core_state.specs.State.{Page as PageView};
ghost use Rattle.system_state.specs.Settled.{mounted_of};
ghost use Rattle.mounted_systems.specs.Dealt.{AreMounted, opening_of};
ghost use Rattle.drive_runs.specs.Crews.{HasRunCrew, IsWornCrew};
ghost use Rattle.drive_runs.specs.Opened.{HasOpened};
ghost use Rattle.drive_runs.specs.declared.crew.CrewErr.TheVariants.{Worn};

use crate::image::images_tell;
use crate::kinds::{Opened, open_drive, opening_tells};
use crate::requests::take_requests;
use crate::running::DriveRun;
use crate::whole::left_by;
use call_job::Job;
use command_words::{Crew, DieKind};
use core_plans::laws::{standing_told, told_failures_few};
use core_stores::laws::calls_legal;
use crew_calls::CallHands;
use crew_runs::{RunErr, run_lanes};
use dispatcher::Place;
use flash_die::Die;
use gates::Gate;
use image_format::Meta;
use page_base::Page;
use script_words::Script;
use settling::System;
use std::alloc::Global;
use std::sync::Wait;
use std::thread::Threads;
use system_state::{CallJob, State};

/// Why a run of many threads came to no end.
#[derive(Clone, Copy, Debug, Drop)]
pub enum CrewErr {
    /// Memory was wanting before the first call, or when the image was gathered.
    NoMemory,
    /// The turn has made all the events that it counts.
    Worn,
}

// Runs the lanes of a script with a crew over a system that was just opened, and gathers its image where that is asked for.
fn crew_and_gather<D: Die + Send, R: Threads + Wait + Sync, G: Gate + Sync>(
    alloc: Global,
    rt: &R,
    state: State<D, Job>,
    script: &mut Script,
    gate: &G,
    crew: Crew,
    stores: bool,
) -> Result<DriveRun, CrewErr>
    requires opened { (kind : Kind) × (meta : MetaView) × (pages : List PageView) × (place : PlaceView) × HasOpened D.seen ⟦<Job as CallJob>⟧.suits kind meta pages script.old place state }
    requires ordered { IsOrdered script.old }
    requires limits { IsWithinLimits script.old }
    requires crew { crew.workers + crew.flushers < 2 ^ 32 }
    ensures names { names script.new ≡ names script.old }
    ensures lanes { length script.new.lanes ≡ length script.old.lanes }
    ensures ran { IfOk result (λ r. (kind : Kind) (meta : MetaView) (pages : List PageView) (place : PlaceView) →
        HasOpened D.seen ⟦<Job as CallJob>⟧.suits kind meta pages script.old place state → HasRunCrew meta pages script.old place kind stores r) }
    ensures worn { result ≡ Err Worn → (kind : Kind) (meta : MetaView) (pages : List PageView) (place : PlaceView) →
        HasOpened D.seen ⟦<Job as CallJob>⟧.suits kind meta pages script.old place state → IsWornCrew meta pages script.old place kind }
{
    standing_told::<D, Job>();
    told_failures_few();
    calls_legal();
    images_tell::<D>();
    let Ok(mut lanes) = take_requests(alloc, script) else {
        return Err(CrewErr::NoMemory);
    };
    let hands = CallHands::new(alloc);
    let threads = lane_runs::Crew {
        workers: crew.workers,
        flushers: crew.flushers,
    };
    let system = System { state };
    match run_lanes(
        alloc,
        rt,
        system,
        lanes.as_mut_slice(),
        gate,
        &hands,
        threads,
        stores,
    ) {
        Ok(ran) => match left_by(alloc, ran) {
            Ok(run) => Ok(run),
            Err(_) => Err(CrewErr::NoMemory),
        },
        Err(RunErr::NoMemory) => Err(CrewErr::NoMemory),
        Err(RunErr::Worn { .. }) => Err(CrewErr::Worn),
    }
}

/// Runs the lanes of a script with a crew over the drive of an image, which mounts to `meta` and `pages`, with dies of this kind: each lane, worker
/// and flusher in a thread of its own. The reads and writes that the script's `fault` lines name fail. Functions run where `place` says, behind
/// `gate`. Where `stores` is set the last sync follows and the image is gathered. The requests are moved out of the script, which keeps its lanes and
/// their names.
///
/// The script has at most 32 lanes and 10,000 calls. Lines that speak of dies or copies that the drive lacks do nothing. `NoMemory` comes before
/// the first call, or when the image is gathered; a call that finds no memory is answered `nomemory`.
pub fn run_crew<R: Threads + Wait + Sync, G: Gate + Sync>(
    alloc: Global,
    rt: &R,
    meta: Meta,
    pages: Vec<Page>,
    script: &mut Script,
    gate: &G,
    crew: Crew,
    place: Place,
    dies: DieKind,
    stores: bool,
) -> Result<DriveRun, CrewErr>
    requires mounted { AreMounted meta pages.items }
    requires ordered { IsOrdered script.old }
    requires limits { IsWithinLimits script.old }
    requires crew { crew.workers + crew.flushers < 2 ^ 32 }
    ensures names { names script.new ≡ names script.old }
    ensures lanes { length script.new.lanes ≡ length script.old.lanes }
    ensures mounts { (bytes : List ℕ) → Mounts bytes meta pages.items (read_image bytes) →
        mounts_to bytes ≡ Ok (mounted_of (plain (opening_of meta pages.items (length script.old.lanes) place))) }
    ensures ran { IfOk result (HasRunCrew meta pages.items script.old place dies stores) }
    ensures worn { result ≡ Err Worn → IsWornCrew meta pages.items script.old place dies }
{
    opening_tells(&meta);
    let Ok(opened) = open_drive(alloc, meta, pages, script, place, dies) else {
        return Err(CrewErr::NoMemory);
    };
    match opened {
        Opened::Memory(state) => crew_and_gather(alloc, rt, state, script, gate, crew, stores),
        Opened::Flash(state) => crew_and_gather(alloc, rt, state, script, gate, crew, stores),
        Opened::Mirrored(state) => crew_and_gather(alloc, rt, state, script, gate, crew, stores),
    }
}
