// The pages of an image, spread over mirrored dies.
ghost use Rattle.std.specs.Prelude.{◌≡◌, length, map, IfOk, true};
ghost use Rattle.std.specs.List.{All};
ghost use Rattle.page_base.specs.Drive.{total_pages};
ghost use Rattle.flash_die.specs.Memory.{view_of as die_view};
ghost use Rattle.mirror_die.specs.Mirror.{made_of, seen_of};
ghost use Rattle.mirror_die.specs.Views.{view_of};
ghost use Rattle.drive_array.specs.Cut.{cuts};
ghost use Rattle.drive_array.specs.Mirrors.{mirror_of, beside, CanMirror, ArePairs, IsShort};
ghost use Rattle.drive_array.specs.Reads.{AreDiesOf, TellsPages};
ghost use Rattle.drive_array.specs.Shares.{dies_of};

use crate::spreading::spread;
use flash_die::{DieMem, Plan};
use mirror_die::{MirrorDie, MirrorErr};
use page_base::{Geometry, NoMemory, Page};
use std::alloc::{AllocError, Global};

// A plan with so many numbers of a kind is longer than memory.
const TOO_LONG: usize = 1 << 62;

/// Spreads the pages of an image over mirrored dies in memory, the first copies with `plans` and
/// the second copies with `copies`.
///
/// There are as many pages as the geometry has, and one plan of each kind for each die.
pub fn spread_mirror(
    alloc: Global,
    pages: Vec<Page>,
    geometry: Geometry,
    plans: Vec<Plan>,
    copies: Vec<Plan>,
) -> Result<Vec<MirrorDie<DieMem, DieMem>>, NoMemory>
    requires pages { length pages.items ≡ total_pages geometry.blocks }
    requires plans { length plans.items ≡ geometry.dies }
    requires copies { length copies.items ≡ geometry.dies }
    ensures dies { IfOk result (λ dies. map (λ die. view_of die) dies.items
        ≡ beside mirror_of (dies_of (cuts pages.items geometry.dies) plans.items) (dies_of (cuts pages.items geometry.dies) copies.items)) }
    ensures shares { IfOk result (λ dies. AreDiesOf geometry (map (λ die. seen_of (view_of die)) dies.items)) }
    ensures told { IfOk result (λ dies. TellsPages (map (λ die. seen_of (view_of die)) dies.items) geometry.dies (cuts pages.items geometry.dies)) }
{
    if !are_short(&plans) || !are_short(&copies) {
        return Err(AllocError);
    }
    let copied = copy_of(alloc, &pages)?;
    let firsts = spread(alloc, pages, geometry, plans)?;
    let seconds = spread(alloc, copied, geometry, copies)?;
    mirror_all(alloc, firsts, seconds)
}

// Whether each plan lists few enough numbers to lie in memory.
fn are_short(plans: &[Plan]) -> bool
    ensures { result ≡ true → All (λ plan. IsShort plan) plans.now }
{
    for plan in plans {
        if plan.reads.len() >= TOO_LONG || plan.writes.len() >= TOO_LONG {
            return false;
        }
    }
    true
}

// The same pages once more.
fn copy_of(alloc: Global, pages: &[Page]) -> Result<Vec<Page>, NoMemory>
    ensures { IfOk result (λ copied. copied.items ≡ pages.now) }
{
    let mut copied = Vec::with_capacity(alloc, pages.len())?;
    for page in pages {
        let mut copy = Page::zero(alloc)?;
        copy.copy_from(page);
        copied.push(copy)?;
    }
    Ok(copied)
}

// A mirror of each die and the one beside it.
fn mirror_all(
    alloc: Global,
    firsts: Vec<DieMem>,
    seconds: Vec<DieMem>,
) -> Result<Vec<MirrorDie<DieMem, DieMem>>, NoMemory>
    requires { ArePairs (map (λ die. die_view die) firsts.items) (map (λ die. die_view die) seconds.items) }
    ensures dies { IfOk result (λ dies. map (λ die. view_of die) dies.items
        ≡ beside mirror_of (map (λ die. die_view die) firsts.items) (map (λ die. die_view die) seconds.items)) }
    ensures seen { IfOk result (λ dies. map (λ die. seen_of (view_of die)) dies.items
        ≡ beside made_of (map (λ die. die_view die) firsts.items) (map (λ die. die_view die) seconds.items)) }
{
    let mut dies = Vec::with_capacity(alloc, firsts.len())?;
    for (first, second) in firsts.into_iter().zip(seconds) {
        dies.push(mirrored(alloc, first, second)?)?;
    }
    Ok(dies)
}

// The mirror of two dies.
fn mirrored(
    alloc: Global,
    first: DieMem,
    second: DieMem,
) -> Result<MirrorDie<DieMem, DieMem>, NoMemory>
    requires { CanMirror (die_view first) (die_view second) }
    ensures die { IfOk result (λ die. view_of die ≡ mirror_of (die_view first) (die_view second)) }
    ensures seen { IfOk result (λ die. seen_of (view_of die) ≡ made_of (die_view first) (die_view second)) }
{
    match MirrorDie::new(alloc, first, second) {
        Ok(die) => Ok(die),
        Err(MirrorErr::NoMemory(_, _)) => Err(AllocError),
    }
}
