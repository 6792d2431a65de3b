//! The image of a system behind a run.
ghost use Rattle.std.specs.Prelude.{◌≡◌, ◌↔◌, ℕ, Bool, false, List, None, IfOk};
ghost use Rattle.turn_cell.specs.declared.book.Entry.{Entry};
ghost use Rattle.turn_cell.specs.Events.{events_of};
ghost use Rattle.script_words.specs.declared.script.FaultLine.{FaultLine};
ghost use Rattle.command_words.specs.declared.options.DieKind.{DieKind};
ghost use Rattle.name_table.specs.Files.{IsTable};
ghost use Rattle.extent_map.specs.Places.{IsSound};
ghost use Rattle.core_state.specs.declared.event.Event.{Event};
ghost use Rattle.core_solo.specs.Stored.{IsAllStored};
ghost use Rattle.system_metas.specs.Encode.{encode};
ghost use Rattle.system_state.specs.Cores.{core_of};
ghost use Rattle.system_state.specs.Stands.{IsStanding, Stands};
ghost use Rattle.system_state.specs.declared.state.State.{State as StateView};
ghost use Rattle.settling.specs.Steps.{EndsInFailure};
ghost use Rattle.settling.specs.declared.last_sync.Settled.{Settled as Ending};
ghost use Rattle.settling.specs.declared.last_sync.Settled.TheVariants.{NotAsked, Done, Failed};
ghost use Rattle.call_job.specs.declared.job.Job.{Job as JobView};
ghost use Rattle.drive_runs.specs.declared.running.DriveImage.{DriveImage as Found};
ghost use Rattle.drive_runs.specs.Imaging.{HasGathered, ImageSays};
ghost use Rattle.drive_runs.specs.Making.{AreMade, drive_in};
ghost use Rattle.drive_runs.specs.Runs.{IsGathered};

use crate::running::DriveImage;
use call_job::Job;
use flash_die::Die;
use image_format::Meta;
use mounted_systems::{GatherErr, gather_system};
use page_base::NoMemory;
use solo_runs::Settled;
use std::alloc::{AllocError, Global};
use system_state::{CallJob, State};

// What holds of all meta data by its types.
fn look(meta: &Meta)
    ensures table { IsTable meta.now.names }
    ensures sound { IsSound meta.now.extents }
{
    let _table = meta.names.len();
    let _sound = meta.extents.blocks();
}

// Gathers the image of a system's dies, all of which are at home.
fn gathered<D: Die>(alloc: Global, state: State<D, Job>) -> Result<DriveImage, NoMemory>
    requires standing { IsStanding D.seen ⟦<Job as CallJob>⟧.suits state }
    requires idle { (lane : ℕ) → (core_of D.seen state).calls lane ≡ None }
    requires home { (d : ℕ) → ((core_of D.seen state).dies d).out ≡ None }
    ensures { IfOk result (HasGathered D.seen state) }
{
    look(&state.meta);
    match gather_system(alloc, state) {
        Ok(bytes) => Ok(DriveImage::Whole(bytes)),
        Err(GatherErr::Die { .. }) => Ok(DriveImage::Lost),
        Err(GatherErr::NoMemory) => Err(AllocError),
    }
}

// The image of a system behind a run whose last sync ended so.
pub(crate) fn image_of<D: Die>(
    alloc: Global,
    state: State<D, Job>,
    settled: Settled,
) -> Result<DriveImage, NoMemory>
    requires standing { IsStanding D.seen ⟦<Job as CallJob>⟧.suits state }
    requires idle { (lane : ℕ) → (core_of D.seen state).calls lane ≡ None }
    requires home { (d : ℕ) → ((core_of D.seen state).dies d).out ≡ None }
    ensures { IfOk result (ImageSays D.seen state settled) }
{
    match settled {
        Settled::NotAsked => Ok(DriveImage::NotAsked),
        Settled::Failed => Ok(DriveImage::Lost),
        Settled::Done => gathered(alloc, state),
    }
}

// The image behind a history is what its end, and the lines of the script, let it be.
pub(crate) fn images_tell<D: Die>()
    ensures { (s o : StateView D JobView) (h : List (Entry Event)) (kind : DieKind) (lines : List FaultLine) (stores : Bool) (ended : Ending) (found : Found) →
        Stands D.seen ⟦<Job as CallJob>⟧.suits s o h → AreMade D.seen kind lines o → (ended ≡ NotAsked) ↔ (stores ≡ false) → (ended ≡ Failed) ↔ EndsInFailure h →
        (ended ≡ Done → IsAllStored encode (core_of D.seen s)) → ImageSays D.seen s ended found →
        IsGathered kind lines (drive_in (core_of D.seen o)) stores (events_of h) (core_of D.seen s) found }
{}
