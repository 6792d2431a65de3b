//! The run of one thread over dies of the kind that is asked for, and what every run leaves.
ghost use Rattle.std.specs.Prelude.{◌≡◌, ℕ, List, length, Ok, IfOk};
ghost use Rattle.call_text.specs.Order.{IsOrdered, IsWithinLimits};
ghost use Rattle.image_format.specs.Image.{mounts_to, read_image};
ghost use Rattle.image_format.specs.Tables.{Mounts};
ghost use Rattle.core_state.specs.PlainOf.{plain};
ghost use Rattle.system_state.specs.Settled.{mounted_of};
ghost use Rattle.mounted_systems.specs.Dealt.{AreMounted, opening_of};
ghost use Rattle.drive_runs.specs.Runs.{HasRunDrive};

use crate::kinds::{Opened, open_drive, opening_tells};
use crate::whole::run_and_gather;
use command_words::DieKind;
use dispatcher::Place;
use image_format::Meta;
use lane_logs::LaneLog;
use page_base::{NoMemory, Page};
use script_words::Script;
use solo_calls::Calls;
use std::alloc::Global;
use system_state::Places;

/// What became of the image of a run.
#[derive(Drop)]
pub enum DriveImage {
    /// None was asked for.
    NotAsked,
    /// The bytes of the image: it mounts to the files of the last state.
    Whole(Vec<u8>),
    /// A write of the last sync failed, or a read of a page of the image.
    Lost,
}

/// What a run leaves.
#[derive(Drop)]
pub struct DriveRun {
    /// What each lane was told.
    pub logs: Vec<LaneLog>,
    /// The calls with a function that began at the host and in the drive, and the reads and the writes of dies.
    pub places: Places,
    /// The image of the drive behind the run.
    pub image: DriveImage,
}

/// Runs a script on one thread over the drive of an image, which mounts to `meta` and `pages`, with dies of this kind: the reads and writes that
/// the script's `fault` lines name fail. Functions run where `place` says. Where `stores` is set the last sync follows and the image is gathered.
///
/// The script has at most 32 lanes and 10,000 calls. Lines that speak of dies or copies that the drive lacks do nothing. `NoMemory` comes before
/// the first call, or when the image is gathered; a call that finds no memory is answered `nomemory`.
pub fn run_drive(
    alloc: Global,
    meta: Meta,
    pages: Vec<Page>,
    script: &Script,
    place: Place,
    dies: DieKind,
    stores: bool,
) -> Result<DriveRun, NoMemory>
    requires mounted { AreMounted meta pages.items }
    requires ordered { IsOrdered script.now }
    requires limits { IsWithinLimits script.now }
    ensures mounts { IfOk result (λ _. (bytes : List ℕ) → Mounts bytes meta pages.items (read_image bytes) →
        mounts_to bytes ≡ Ok (mounted_of (plain (opening_of meta pages.items (length script.now.lanes) place)))) }
    ensures ran { IfOk result (HasRunDrive meta pages.items script.now place dies stores) }
{
    opening_tells(&meta);
    let mut calls = Calls::new(alloc)?;
    let opened = open_drive(alloc, meta, pages, script, place, dies)?;
    match opened {
        Opened::Memory(state) => run_and_gather(alloc, state, &mut calls, script, stores),
        Opened::Flash(state) => run_and_gather(alloc, state, &mut calls, script, stores),
        Opened::Mirrored(state) => run_and_gather(alloc, state, &mut calls, script, stores),
    }
}
