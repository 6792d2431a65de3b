// The pages of an image, gathered from the dies of a drive.
ghost use Rattle.std.specs.Prelude.{◌≡◌, ◌+◌, ◌<◌, ◌≤◌, ◌++◌, vec_len, vec_capacity, length, map, set, is_ok, IfOk, OnOk, OnErr, Err, IfSome};
ghost use Rattle.flash_die.specs.Dies.{WentRead};
ghost use Rattle.drive_array.specs.Reads.{AreDiesOf, TellsPages, ReadsImage, StopsIn, RisesAt, GivesAll, FailsWithin, die_at, share_of, image_bytes};

use flash_die::Die;
use page_base::{DieFault, Geometry, NoMemory, Page};
use std::alloc::{AllocError, Global};

/// Why the pages of an image were not gathered.
#[derive(Clone, Copy, Debug, PartialEq, Eq, Drop)]
pub enum GatherErr {
    /// This die failed.
    Die {
        /// The number of the die.
        die: u32,
    },
    /// There was no memory.
    NoMemory,
}

impl From<AllocError> for GatherErr {
    ghost use Rattle.std.specs.Prelude.{◌≡◌};
    ghost use Rattle.drive_array.specs.declared.gathering.GatherErr.TheVariants.{NoMemory};

    ghost from_gives = { λ _ error. error ≡ NoMemory };

    fn from(_: AllocError) -> GatherErr {
        GatherErr::NoMemory
    }
}

/// Gathers the bytes of an image from the dies of a drive, each page once and in the order of the
/// image, up to the first failure.
///
/// There are as many dies as the geometry has, each with as many pages as lie on it. `Die` names
/// the die that failed, whose count of faults has risen; where the dies tell their plans, it comes
/// exactly where for some die one of its next reads, as many as it has pages, is listed. Memory is
/// taken before the first read.
pub fn gather<D: Die>(
    alloc: Global,
    dies: &mut Vec<D>,
    geometry: Geometry,
) -> Result<Vec<u8>, GatherErr>
    requires shares { AreDiesOf geometry (map D.seen dies.old.items) }
    ensures bytes { IfOk result (λ bytes. (lists : _) → TellsPages (map D.seen dies.old.items) geometry.dies lists
        → bytes.items ≡ image_bytes geometry lists) }
    ensures read { OnOk result (ReadsImage geometry (map D.seen dies.old.items) (map D.seen dies.new.items)) }
    ensures stopped { (die : _) → result ≡ Err (GatherErr.Die die)
        → StopsIn geometry die (map D.seen dies.old.items) (map D.seen dies.new.items) }

    // What follows for the die that failed, and where the dies tell their plans. A geometry has a die.
    ensures some { 0 < geometry.dies }
    ensures unread { result ≡ Err GatherErr.NoMemory → dies.new.items ≡ dies.old.items }
    ensures fault { (die : _) → result ≡ Err (GatherErr.Die die)
        → RisesAt die (map D.seen dies.old.items) (map D.seen dies.new.items) }
    ensures listed { (die : _) → result ≡ Err (GatherErr.Die die)
        → IfSome (die_at (map D.seen dies.old.items) die).plan (FailsWithin (share_of geometry die)) }
    ensures unlisted { OnOk result ((die : _) → die < geometry.dies
        → IfSome (die_at (map D.seen dies.old.items) die).plan (GivesAll (share_of geometry die))) }
{
    gather_in_order(alloc, dies, geometry)
}

// The gathering, without what follows from its steps.
fn gather_in_order<D: Die>(
    alloc: Global,
    dies: &mut Vec<D>,
    geometry: Geometry,
) -> Result<Vec<u8>, GatherErr>
    requires shares { AreDiesOf geometry (map D.seen dies.old.items) }
    ensures some { 0 < geometry.dies }
    ensures unread { result ≡ Err GatherErr.NoMemory → dies.new.items ≡ dies.old.items }
    ensures bytes { IfOk result (λ bytes. (lists : _) → TellsPages (map D.seen dies.old.items) geometry.dies lists
        → bytes.items ≡ image_bytes geometry lists) }
    ensures read { OnOk result (ReadsImage geometry (map D.seen dies.old.items) (map D.seen dies.new.items)) }
    ensures stopped { (die : _) → result ≡ Err (GatherErr.Die die)
        → StopsIn geometry die (map D.seen dies.old.items) (map D.seen dies.new.items) }
{
    let mut page = Page::zero(alloc)?;
    let mut bytes = Vec::with_capacity(alloc, geometry.total() as usize * 4096)?;
    for number in 0..geometry.total() {
        let die = geometry.die_of(number);
        read_page(dies, die, geometry.place_of(number), &mut page)?;
        append(&mut bytes, &page)?;
    }
    Ok(bytes)
}

// Reads a page of one of the dies.
fn read_page<D: Die>(
    dies: &mut Vec<D>,
    die: u32,
    place: u32,
    into: &mut Page,
) -> Result<(), GatherErr>
    requires there { die < length dies.old.items }
    requires within { place < (die_at (map D.seen dies.old.items) die).size }
    ensures others { map D.seen dies.new.items
        ≡ set (map D.seen dies.old.items) die (die_at (map D.seen dies.new.items) die) }
    ensures went { WentRead (die_at (map D.seen dies.old.items) die) place (is_ok result) into.old into.new
        (die_at (map D.seen dies.new.items) die) }
    ensures err { OnErr result (result ≡ Err (GatherErr.Die die)) }
{
    let one = &mut dies[die as usize];
    match one.read(place, into) {
        Ok(()) => Ok(()),
        Err(DieFault) => Err(GatherErr::Die { die }),
    }
}

// Adds the bytes of a page at the end.
fn append(bytes: &mut Vec<u8>, page: &Page) -> Result<(), NoMemory>
    ensures bytes { OnOk result (bytes.new.items ≡ bytes.old.items ++ page.now) }
    ensures len { OnOk result (vec_len bytes.new ≡ vec_len bytes.old + 4096) }
    ensures capacity { vec_capacity bytes.old ≤ vec_capacity bytes.new }
    ensures full { OnErr result (vec_capacity bytes.old < vec_len bytes.old + 4096) }
{
    let mut copied = [0; 4096];
    page.read(0, &mut copied);
    bytes.extend_from_slice(&copied)?;
    Ok(())
}
