//! The system of a drive that was just mounted, over dies of the kind that is asked for.
ghost use Rattle.std.specs.Prelude.{◌≡◌, ◌≤◌, ℕ, List, length, Ok, IfOk};
ghost use Rattle.call_text.specs.Order.{IsWithinLimits};
ghost use Rattle.command_words.specs.declared.options.DieKind.TheVariants.{Mem, Ftl, Mirror};
ghost use Rattle.dispatcher.specs.declared.side.Place.{Place as PlaceView};
ghost use Rattle.extent_map.specs.Places.{IsSound};
ghost use Rattle.image_format.specs.Image.{mounts_to, read_image};
ghost use Rattle.image_format.specs.Tables.{Mounts};
ghost use Rattle.name_table.specs.Files.{IsTable};
ghost use Rattle.core_state.specs.PlainOf.{plain};
ghost use Rattle.core_state.specs.State.{Page as PageView};
ghost use Rattle.system_state.specs.Settled.{mounted_of};
ghost use Rattle.mounted_systems.specs.Dealt.{AreMounted, opening_of};
ghost use Rattle.drive_runs.specs.Opened.{HasOpened, AreOpened};

use call_job::Job;
use command_words::DieKind;
use core_images::laws::opening_is_mounted;
use core_plans::laws::made_dies_tell;
use dispatcher::Place;
use fault_lines::plans;
use flash_die::{Die, DieMem};
use flash_raw::RawMem;
use ftl_die::FtlDie;
use image_format::Meta;
use mirror_die::MirrorDie;
use mounted_systems::{Options, open_ftl, open_memory, open_mirror};
use page_base::{NoMemory, Page};
use script_words::Script;
use std::alloc::Global;
use system_state::{CallJob, State};

/// The system of a drive that was just mounted, by the kind of its dies.
pub(crate) enum Opened {
    /// Over dies in memory.
    Memory(State<DieMem, Job>),
    /// Over dies that keep their pages in raw flash.
    Flash(State<FtlDie<RawMem>, Job>),
    /// Over mirrored dies in memory.
    Mirrored(State<MirrorDie<DieMem, DieMem>, Job>),
}

// What holds of all meta data by its types.
fn look(meta: &Meta)
    ensures table { IsTable meta.now.names }
    ensures sound { IsSound meta.now.extents }
{
    let _table = meta.names.len();
    let _sound = meta.extents.blocks();
}

// The opening core has the files and the next id that the image mounts to.
pub(crate) fn opening_tells(meta: &Meta)
    ensures { (bytes : List ℕ) (pages : List PageView) (lanes : ℕ) (place : PlaceView) → Mounts bytes meta.now pages (read_image bytes) →
        mounts_to bytes ≡ Ok (mounted_of (plain (opening_of meta.now pages lanes place))) }
{
    opening_is_mounted();
    look(meta);
}

// Where functions run, and a lane for each of the script.
fn options_for(script: &Script, place: Place) -> Options
    requires { length script.now.lanes ≤ 32 }
    ensures lanes { result.lanes ≡ length script.now.lanes }
    ensures place { result.place ≡ place }
{
    Options {
        place,
        lanes: script.lanes.len() as u32,
    }
}

// Over dies in memory.
fn open_in_memory(
    alloc: Global,
    meta: Meta,
    pages: Vec<Page>,
    script: &Script,
    place: Place,
) -> Result<State<DieMem, Job>, NoMemory>
    requires mounted { AreMounted meta pages.items }
    requires limits { IsWithinLimits script.now }
    ensures { IfOk result (HasOpened ⟦<DieMem as Die>⟧.seen ⟦<Job as CallJob>⟧.suits Mem meta pages.items script.now place) }
{
    made_dies_tell();
    let options = options_for(script, place);
    let lines = script.faults.as_slice();
    let firsts = plans(alloc, lines, false, meta.geometry.dies())?;
    open_memory::<Job>(alloc, meta, pages, firsts, options)
}

// Over dies that keep their pages in raw flash.
fn open_in_flash(
    alloc: Global,
    meta: Meta,
    pages: Vec<Page>,
    script: &Script,
    place: Place,
) -> Result<State<FtlDie<RawMem>, Job>, NoMemory>
    requires mounted { AreMounted meta pages.items }
    requires limits { IsWithinLimits script.now }
    ensures { IfOk result (HasOpened ⟦<FtlDie<RawMem> as Die>⟧.seen ⟦<Job as CallJob>⟧.suits Ftl meta pages.items script.now place) }
{
    made_dies_tell();
    let options = options_for(script, place);
    let lines = script.faults.as_slice();
    let firsts = plans(alloc, lines, false, meta.geometry.dies())?;
    open_ftl::<Job>(alloc, meta, pages, firsts, options)
}

// Over mirrored dies in memory: lines about copies name calls of the second ones.
fn open_mirrored(
    alloc: Global,
    meta: Meta,
    pages: Vec<Page>,
    script: &Script,
    place: Place,
) -> Result<State<MirrorDie<DieMem, DieMem>, Job>, NoMemory>
    requires mounted { AreMounted meta pages.items }
    requires limits { IsWithinLimits script.now }
    ensures { IfOk result (HasOpened ⟦<MirrorDie<DieMem, DieMem> as Die>⟧.seen ⟦<Job as CallJob>⟧.suits Mirror meta pages.items script.now place) }
{
    made_dies_tell();
    let options = options_for(script, place);
    let lines = script.faults.as_slice();
    let firsts = plans(alloc, lines, false, meta.geometry.dies())?;
    let seconds = plans(alloc, lines, true, meta.geometry.dies())?;
    open_mirror::<Job>(alloc, meta, pages, firsts, seconds, options)
}

// Over dies of this kind, with the plans of the script's `fault` lines.
pub(crate) fn open_drive(
    alloc: Global,
    meta: Meta,
    pages: Vec<Page>,
    script: &Script,
    place: Place,
    dies: DieKind,
) -> Result<Opened, NoMemory>
    requires mounted { AreMounted meta pages.items }
    requires limits { IsWithinLimits script.now }
    ensures { IfOk result (AreOpened dies meta pages.items script.now place) }
{
    match dies {
        DieKind::Mem => Ok(Opened::Memory(open_in_memory(alloc, meta, pages, script, place)?)),
        DieKind::Ftl => Ok(Opened::Flash(open_in_flash(alloc, meta, pages, script, place)?)),
        DieKind::Mirror => Ok(Opened::Mirrored(open_mirrored(alloc, meta, pages, script, place)?)),
    }
}
