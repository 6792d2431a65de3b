//! The run of `bench`.
ghost use Rattle.std.specs.Prelude.{◌≡◌, ℕ, List, length, Ok, IfOk};
ghost use Rattle.call_text.specs.Order.{IsOrdered, IsWithinLimits};
ghost use Rattle.dispatcher.specs.declared.side.Place.TheVariants.{Auto};
ghost use Rattle.image_format.specs.Image.{mounts_to, read_image};
ghost use Rattle.image_format.specs.Tables.{Mounts};
ghost use Rattle.core_state.specs.PlainOf.{plain};
ghost use Rattle.system_state.specs.Settled.{mounted_of};
ghost use Rattle.mounted_systems.specs.Dealt.{AreMounted, opening_of};
ghost use Rattle.bench_runs.specs.Benched.{HasBenched};

use crate::fed::are_fed;
use crate::lines::lines_of;
use command_words::DieKind;
use dispatcher::Place;
use drive_runs::run_drive;
use edge_io::Text;
use image_format::Meta;
use page_base::{NoMemory, Page};
use script_words::Script;
use std::alloc::{AllocError, Global};

/// What `bench` prints of a script over the drive of an image: the script is run on one thread over dies in raw flash, its functions where the
/// system places them, without a last sync. `start` and `calls` are the number that the script was drawn from, and the number of its drawn
/// lines. `meta` and `pages` are what the image mounts to.
///
/// `NoMemory` comes also where a call of the script found no memory.
pub fn bench_lines(
    alloc: Global,
    meta: Meta,
    pages: Vec<Page>,
    script: &Script,
    start: u64,
    calls: u32,
) -> Result<Text, NoMemory>
    requires mounted { AreMounted meta pages.items }
    requires ordered { IsOrdered script.now }
    requires limits { IsWithinLimits script.now }
    ensures mounts { IfOk result (λ _. (bytes : List ℕ) → Mounts bytes meta pages.items (read_image bytes) →
        mounts_to bytes ≡ Ok (mounted_of (plain (opening_of meta pages.items (length script.now.lanes) Auto)))) }
    ensures benched { IfOk result (HasBenched meta pages.items script.now start calls) }
{
    let ran = run_drive(alloc, meta, pages, script, Place::Auto, DieKind::Ftl, false)?;
    let logs = ran.logs.as_slice();
    if !are_fed(logs) {
        return Err(AllocError);
    }
    lines_of(alloc, script, logs, ran.places, start, calls)
}
