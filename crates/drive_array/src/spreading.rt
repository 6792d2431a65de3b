// The pages of an image, dealt to the dies of a drive.
ghost use Rattle.std.specs.Prelude.{◌≡◌, ◌<◌, ◌^◌, [], length, map, replicate, IfOk, OnOk};
ghost use Rattle.page_base.specs.Drive.{total_pages};
ghost use Rattle.flash_die.specs.Memory.{view_of};
ghost use Rattle.drive_array.specs.Cut.{cuts};
ghost use Rattle.drive_array.specs.Reads.{AreDiesOf, TellsPages};
ghost use Rattle.drive_array.specs.Shares.{dies_of};
ghost use Rattle.drive_array.specs.Parts.{pages_of, plan_of};

use crate::share::Share;
use flash_die::{DieMem, Plan};
use page_base::{Geometry, NoMemory, Page};
use std::alloc::Global;

/// Spreads the pages of an image over dies in memory, each with its plan: image page p is page
/// p / dies of die p mod dies.
///
/// There are as many pages as the geometry has, and one plan for each die.
pub fn spread(
    alloc: Global,
    pages: Vec<Page>,
    geometry: Geometry,
    plans: Vec<Plan>,
) -> Result<Vec<DieMem>, NoMemory>
    requires pages { length pages.items ≡ total_pages geometry.blocks }
    requires plans { length plans.items ≡ geometry.dies }
    ensures dies { IfOk result (λ dies. map (λ die. view_of die) dies.items ≡ dies_of (cuts pages.items geometry.dies) plans.items) }
    ensures shares { IfOk result (λ dies. AreDiesOf geometry (map (λ die. view_of die) dies.items)) }
    ensures told { IfOk result (λ dies. TellsPages (map (λ die. view_of die) dies.items) geometry.dies (cuts pages.items geometry.dies)) }
{
    let mut shares = empty_shares(alloc, plans)?;
    deal(pages, geometry.dies(), &mut shares)?;
    into_dies(alloc, shares)
}

// A share without pages for each plan.
pub fn empty_shares(alloc: Global, plans: Vec<Plan>) -> Result<Vec<Share>, NoMemory>
    ensures plans { IfOk result (λ shares. map (λ share. plan_of share) shares.items ≡ plans.items) }
    ensures pages { IfOk result (λ shares. map (λ share. pages_of share) shares.items ≡ replicate (length plans.items) []) }
{
    let mut shares = Vec::new(alloc);
    for plan in plans {
        shares.push(Share::new(alloc, plan))?;
    }
    Ok(shares)
}

// Deals the pages to the dies in turn.
pub fn deal(pages: Vec<Page>, dies: u32, shares: &mut Vec<Share>) -> Result<(), NoMemory>
    requires some { 0 < dies }
    requires few { length pages.items < 2 ^ 32 }
    requires empty { map (λ share. pages_of share) shares.old.items ≡ replicate dies [] }
    ensures plans { OnOk result (map (λ share. plan_of share) shares.new.items ≡ map (λ share. plan_of share) shares.old.items) }
    ensures pages { OnOk result (map (λ share. pages_of share) shares.new.items ≡ cuts pages.items dies) }
{
    let mut number: u32 = 0;
    for page in pages {
        let share = &mut shares[(number % dies) as usize];
        share.add(page)?;
        number += 1;
    }
    Ok(())
}

// The die of each share.
fn into_dies(alloc: Global, shares: Vec<Share>) -> Result<Vec<DieMem>, NoMemory>
    ensures { IfOk result (λ dies. map (λ die. view_of die) dies.items
        ≡ dies_of (map (λ share. pages_of share) shares.items) (map (λ share. plan_of share) shares.items)) }
{
    let mut dies = Vec::new(alloc);
    for share in shares {
        dies.push(share.into_die())?;
    }
    Ok(dies)
}
