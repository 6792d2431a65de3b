//! The system of a drive that was mounted.
ghost use Rattle.std.specs.Prelude.{◌≡◌, ◌≤◌, [], ℕ, List, length, map, Ok, IfOk};
ghost use Rattle.page_base.specs.Drive.{IsDrive};
ghost use Rattle.name_table.specs.Files.{IsTable};
ghost use Rattle.extent_map.specs.Places.{IsSound};
ghost use Rattle.image_format.specs.Image.{mounts_to, read_image};
ghost use Rattle.image_format.specs.Tables.{Mounts};
ghost use Rattle.flash_die.specs.Memory as memory;
ghost use Rattle.ftl_die.specs.Ftl as ftl;
ghost use Rattle.mirror_die.specs.Views as mirror;
ghost use Rattle.drive_array.specs.Cut.{cuts};
ghost use Rattle.drive_array.specs.Shares.{dies_of, loaded_of};
ghost use Rattle.drive_array.specs.Mirrors.{mirror_of, beside};
ghost use Rattle.core_state.specs.State.{Page};
ghost use Rattle.core_state.specs.PlainOf.{plain};
ghost use Rattle.system_state.specs.Cores.{core_of};
ghost use Rattle.system_state.specs.Settled.{mounted_of};
ghost use Rattle.system_state.specs.Stands.{Stands};
ghost use Rattle.system_start.specs.Started.{at_home};
ghost use Rattle.system_start.specs.Fresh.{no_places};
ghost use Rattle.mounted_systems.specs.Dealt.{AreMounted, HavePages, HasDies, opening_of};

use core_images::laws::opening_is_mounted;
use drive_array::laws::image_page_lies_on_its_die;
use drive_array::{spread, spread_ftl, spread_mirror};
use flash_die::{Die, DieMem, Plan};
use flash_raw::RawMem;
use ftl_die::FtlDie;
use image_format::Meta;
use image_laws::laws::mounted_is_whole;
use mirror_die::MirrorDie;
use page_base::{NoMemory, Page};
use std::alloc::Global;
use system_start::laws::mounted_images_may_start;
use system_start::{Options, start};
use system_state::{CallJob, State};

// What holds of all meta data by its types.
fn look(meta: &Meta)
    ensures drive { IsDrive meta.now.geometry.blocks meta.now.geometry.dies }
    ensures table { IsTable meta.now.names }
    ensures sound { IsSound meta.now.extents }
{
    let _drive = meta.geometry.blocks();
    let _table = meta.names.len();
    let _sound = meta.extents.blocks();
}

// The system over dies that have the pages of a mounted image.
fn open_over<D: Die, J: CallJob>(
    alloc: Global,
    dies: Vec<D>,
    meta: Meta,
    options: Options,
) -> Result<State<D, J>, NoMemory>
    requires lanes { options.lanes ≤ 32 }
    requires image { (pages : List Page) × AreMounted meta pages × HavePages (map D.seen dies.items) meta pages }
    ensures core { IfOk result (λ s. (pages : List Page) → AreMounted meta pages → HavePages (map D.seen dies.items) meta pages →
        core_of D.seen s ≡ opening_of meta pages options.lanes options.place) }
    ensures mounts { IfOk result (λ s. (pages : List Page) (bytes : List ℕ) → Mounts bytes meta pages (read_image bytes) → HavePages (map D.seen dies.items) meta pages →
        mounts_to bytes ≡ Ok (mounted_of (plain (core_of D.seen s)))) }
    ensures stands { IfOk result (λ s. Stands D.seen J.suits s s []) }
    ensures counts { IfOk result (λ s. s.places ≡ no_places) }
    ensures dies { IfOk result (λ s. s.rack.slots.items ≡ at_home dies.items) }
{
    mounted_images_may_start::<D>();
    mounted_is_whole();
    image_page_lies_on_its_die();
    opening_is_mounted();
    look(&meta);
    start(alloc, dies, meta, options)
}

/// The system of a drive that was just mounted, over dies in memory, each with its plan: image page p is page p / dies of die p mod dies.
///
/// `meta` and `pages` are what the image mounts to. There are as many plans as dies, and at most 32 lanes.
pub fn open_memory<J: CallJob>(
    alloc: Global,
    meta: Meta,
    pages: Vec<Page>,
    plans: Vec<Plan>,
    options: Options,
) -> Result<State<DieMem, J>, NoMemory>
    requires lanes { options.lanes ≤ 32 }
    requires mounted { AreMounted meta pages.items }
    requires plans { length plans.items ≡ meta.geometry.dies }
    ensures core { IfOk result (λ s. core_of ⟦<DieMem as Die>⟧.seen s ≡ opening_of meta pages.items options.lanes options.place) }
    ensures mounts { IfOk result (λ s. (bytes : List ℕ) → Mounts bytes meta pages.items (read_image bytes) →
        mounts_to bytes ≡ Ok (mounted_of (plain (core_of ⟦<DieMem as Die>⟧.seen s)))) }
    ensures stands { IfOk result (λ s. Stands ⟦<DieMem as Die>⟧.seen J.suits s s []) }
    ensures counts { IfOk result (λ s. s.places ≡ no_places) }
    ensures dies { IfOk result (λ s. HasDies (λ die. memory.view_of die) s (dies_of (cuts pages.items meta.geometry.dies) plans.items)) }
{
    mounted_is_whole();
    let dies = spread(alloc, pages, meta.geometry, plans)?;
    open_over(alloc, dies, meta, options)
}

/// The same over dies that keep their pages in raw flash, each with its plan: of the flash's reads and programs those fail that the plan lists
/// as reads and as writes.
pub fn open_ftl<J: CallJob>(
    alloc: Global,
    meta: Meta,
    pages: Vec<Page>,
    plans: Vec<Plan>,
    options: Options,
) -> Result<State<FtlDie<RawMem>, J>, NoMemory>
    requires lanes { options.lanes ≤ 32 }
    requires mounted { AreMounted meta pages.items }
    requires plans { length plans.items ≡ meta.geometry.dies }
    ensures core { IfOk result (λ s. core_of ⟦<FtlDie<RawMem> as Die>⟧.seen s ≡ opening_of meta pages.items options.lanes options.place) }
    ensures mounts { IfOk result (λ s. (bytes : List ℕ) → Mounts bytes meta pages.items (read_image bytes) →
        mounts_to bytes ≡ Ok (mounted_of (plain (core_of ⟦<FtlDie<RawMem> as Die>⟧.seen s)))) }
    ensures stands { IfOk result (λ s. Stands ⟦<FtlDie<RawMem> as Die>⟧.seen J.suits s s []) }
    ensures counts { IfOk result (λ s. s.places ≡ no_places) }
    ensures dies { IfOk result (λ s. HasDies (λ die. ftl.view_of die) s (loaded_of (cuts pages.items meta.geometry.dies) plans.items)) }
{
    mounted_is_whole();
    let dies = spread_ftl(alloc, pages, meta.geometry, plans)?;
    open_over(alloc, dies, meta, options)
}

/// The same over mirrored dies in memory, the first copies with `plans` and the second ones with `copies`.
pub fn open_mirror<J: CallJob>(
    alloc: Global,
    meta: Meta,
    pages: Vec<Page>,
    plans: Vec<Plan>,
    copies: Vec<Plan>,
    options: Options,
) -> Result<State<MirrorDie<DieMem, DieMem>, J>, NoMemory>
    requires lanes { options.lanes ≤ 32 }
    requires mounted { AreMounted meta pages.items }
    requires plans { length plans.items ≡ meta.geometry.dies }
    requires copies { length copies.items ≡ meta.geometry.dies }
    ensures core { IfOk result (λ s. core_of ⟦<MirrorDie<DieMem, DieMem> as Die>⟧.seen s ≡ opening_of meta pages.items options.lanes options.place) }
    ensures mounts { IfOk result (λ s. (bytes : List ℕ) → Mounts bytes meta pages.items (read_image bytes) →
        mounts_to bytes ≡ Ok (mounted_of (plain (core_of ⟦<MirrorDie<DieMem, DieMem> as Die>⟧.seen s)))) }
    ensures stands { IfOk result (λ s. Stands ⟦<MirrorDie<DieMem, DieMem> as Die>⟧.seen J.suits s s []) }
    ensures counts { IfOk result (λ s. s.places ≡ no_places) }
    ensures dies { IfOk result (λ s. HasDies (λ die. mirror.view_of die) s
        (beside mirror_of (dies_of (cuts pages.items meta.geometry.dies) plans.items) (dies_of (cuts pages.items meta.geometry.dies) copies.items))) }
{
    mounted_is_whole();
    let dies = spread_mirror(alloc, pages, meta.geometry, plans, copies)?;
    open_over(alloc, dies, meta, options)
}
