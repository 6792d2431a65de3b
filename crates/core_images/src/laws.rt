//! Laws, each the contract of a function that takes and gives nothing.
ghost use Rattle.std.specs.Prelude.{◌≡◌, ◌<◌, ◌++◌, ℕ, true, List, [], length, None, Ok, slice_index_or};
ghost use Rattle.page_base.specs.Drive.{IsDrive, total_pages};
ghost use Rattle.dispatcher.specs.declared.side.Place.{Place};
ghost use Rattle.extent_map.specs.Places.{IsSound};
ghost use Rattle.name_table.specs.Files.{IsTable};
ghost use Rattle.image_format.specs.declared.meta.Meta.{Meta};
ghost use Rattle.image_format.specs.Encoding.{image_bytes};
ghost use Rattle.image_format.specs.Image.{mounts_to, read_image};
ghost use Rattle.image_format.specs.Tables.{Mounts};
ghost use Rattle.image_format.specs.Whole.{IsWhole, stands_for};
ghost use Rattle.core_state.specs.declared.event.Event.{Event};
ghost use Rattle.core_state.specs.Coherent.{Coherent};
ghost use Rattle.core_state.specs.Contents.{flashes};
ghost use Rattle.core_state.specs.Happens.{CoreRun, after_all};
ghost use Rattle.core_state.specs.Opening.{opening_core};
ghost use Rattle.core_state.specs.PlainOf.{plain};
ghost use Rattle.core_state.specs.State.{Page, Core};
ghost use Rattle.core_state.specs.Words.{from_fn};
ghost use Rattle.core_solo.specs.Solo.{SyncEnds, Script, SoloRun, enters, leaves};
ghost use Rattle.core_solo.specs.Alone.{OpeningFrames, IsEncoding};
ghost use Rattle.core_solo.specs.Settling.{IsSettling, IsFresh};
ghost use Rattle.core_solo.specs.Stored.{IsOfDrive, IsAllStored};
ghost use Rattle.system_state.specs.Cores.{core_of};
ghost use Rattle.system_state.specs.Settled.{mounted_of, flash_bytes, IsSettled, Settled};
ghost use Rattle.system_state.specs.Stands.{IsStanding};
ghost use Rattle.system_state.specs.declared.state.State.{State};
ghost use Rattle.system_metas.specs.Encode.{encode};
ghost use Rattle.system_start.specs.Started.{image_in, data_in, pages_of, MayStart, opening_on};
ghost use Rattle.core_images.specs.Images.{IsImageOfCore};
ghost use Rattle.core_images.specs.Tables.{HasTables};

use flash_die::Die;
use system_state::CallJob;

/// The meta pages that a core has are pages of 4,096 bytes, and tell of its geometry, files, places and written flags alone: what the run of one
/// thread asks of them.
pub fn encodes_pages()
    ensures pages { IsEncoding encode }
    ensures drive { IsOfDrive encode }
{}

/// In a coherent core with tables, of which every block is clean and every meta page is stored, the pages of flash, joined in the order of
/// the image, are the image of these tables and of its data blocks; and they are an image of its drive that mounts to the files and the
/// next id of its plain state. Where no call is in flight and all dies are at home, the core is settled.
pub fn stored_core_mounts()
    ensures image { (m : Meta) (c : Core) → HasTables m c → IsTable m.names → IsSound m.extents → Coherent c → IsAllStored encode c →
        flash_bytes c ≡ image_bytes m (from_fn m.geometry.blocks (flashes c.blocks)) }
    ensures mounts { (m : Meta) (c : Core) → HasTables m c → IsTable m.names → IsSound m.extents → Coherent c → IsAllStored encode c →
        mounts_to (flash_bytes c) ≡ Ok (mounted_of (plain c)) }
    ensures reads { (m : Meta) (c : Core) → HasTables m c → IsTable m.names → IsSound m.extents → Coherent c → IsAllStored encode c →
        IsImageOfCore c (flash_bytes c) }
    ensures settled { (m : Meta) (c : Core) → HasTables m c → IsTable m.names → IsSound m.extents → Coherent c → IsAllStored encode c →
        ((lane : ℕ) → c.calls lane ≡ None) → ((die : ℕ) → (c.dies die).out ≡ None) → IsSettled c }
{}

/// The opening core of tables and data blocks that are whole has these tables, and its plain state the files and the next id that they stand
/// for, no function, and as many blocks as capacity as the drive has data blocks. `pages` are the pages that the dies have.
pub fn opening_stands()
    ensures tables { (m : Meta) (pages : ℕ → Page) (lanes : ℕ) (place : Place) → IsWhole m (data_in m pages) → HasTables m (opening_core (image_in m pages) lanes place) }
    ensures files { (m : Meta) (pages : ℕ → Page) (lanes : ℕ) (place : Place) → IsTable m.names → IsSound m.extents → IsWhole m (data_in m pages) →
        ((p : ℕ) → p < total_pages m.geometry.blocks → length (pages p) ≡ 4096) →
        mounted_of (plain (opening_core (image_in m pages) lanes place)) ≡ stands_for m (data_in m pages) }
    ensures functions { (m : Meta) (pages : ℕ → Page) (lanes : ℕ) (place : Place) → (plain (opening_core (image_in m pages) lanes place)).functions ≡ [] }
    ensures capacity { (m : Meta) (pages : ℕ → Page) (lanes : ℕ) (place : Place) →
        (plain (opening_core (image_in m pages) lanes place)).capacity ≡ m.geometry.blocks }
{}

/// Where a system may start over some dies, the plain state of its opening core has the files and the next id that the tables and the dies'
/// data blocks stand for.
pub fn started_stands<D: Die>()
    ensures { (dies : List D) (m : Meta) (lanes : ℕ) (place : Place) → MayStart D.seen dies m → IsDrive m.geometry.blocks m.geometry.dies →
        IsTable m.names → IsSound m.extents → mounted_of (plain (opening_on D.seen dies m lanes place)) ≡ stands_for m (data_in m (pages_of D.seen dies)) }
{}

/// On dies with the pages that an image mounts to, the opening core is coherent, and its plain state has the files and the next id that the
/// image says.
pub fn opening_is_mounted()
    ensures coherent { (bytes : List ℕ) (m : Meta) (all : List Page) (pages : ℕ → Page) (lanes : ℕ) (place : Place) → IsDrive m.geometry.blocks m.geometry.dies →
        IsTable m.names → IsSound m.extents → Mounts bytes m all (read_image bytes) →
        ((p : ℕ) → p < total_pages m.geometry.blocks → pages p ≡ slice_index_or all p []) → Coherent (opening_core (image_in m pages) lanes place) }
    ensures mounts { (bytes : List ℕ) (m : Meta) (all : List Page) (pages : ℕ → Page) (lanes : ℕ) (place : Place) → IsTable m.names → IsSound m.extents →
        Mounts bytes m all (read_image bytes) → ((p : ℕ) → p < total_pages m.geometry.blocks → pages p ≡ slice_index_or all p []) →
        mounts_to bytes ≡ Ok (mounted_of (plain (opening_core (image_in m pages) lanes place))) }
{}

/// Where the last sync comes to its end, by itself or after the run of one thread over a script, its last core is settled: no call is in
/// flight, all dies are at home, every block is clean, and the pages of flash mount to the files and the next id of the last plain state. `m`
/// has the tables of that core.
pub fn last_sync_settles()
    ensures sync { (m : Meta) (c c1 : Core) (events : List Event) → Coherent c → IsSettling c → ((die : ℕ) → (c.dies die).out ≡ None) → c.closer ≡ 0 →
        SyncEnds encode c events → CoreRun c events c1 → HasTables m c1 → IsTable m.names → IsSound m.extents → IsSettled c1 }
    ensures run { (m : Meta) (c0 c1 : Core) (script : Script) (events : List Event) → OpeningFrames c0.shape → length script.lanes ≡ c0.shape.lanes →
        Coherent c0 → IsFresh c0 → c0.closer ≡ 0 → (run : SoloRun encode c0 script true events c1) →
        SyncEnds encode (after_all c0 (enters c0.shape.lanes ++ (run.lines ++ leaves c0.shape.lanes))) run.settling →
        HasTables m c1 → IsTable m.names → IsSound m.extents → IsSettled c1 }
{}

/// The core of a state that stands for some history has the tables of that state; so a state of which all is stored, without a call in flight
/// and with all dies at home, is settled.
pub fn stored_states_settle<D: Die, J: CallJob>()
    ensures tables { (s : State D J) → IsStanding D.seen J.suits s → HasTables s.meta (core_of D.seen s) }
    ensures settled { (s : State D J) → IsStanding D.seen J.suits s → IsTable s.meta.names → IsSound s.meta.extents → IsAllStored encode (core_of D.seen s) →
        ((lane : ℕ) → (core_of D.seen s).calls lane ≡ None) → ((die : ℕ) → ((core_of D.seen s).dies die).out ≡ None) → Settled D.seen s }
{}
