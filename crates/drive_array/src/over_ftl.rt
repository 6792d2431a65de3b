// The pages of an image, spread over dies that keep them in raw flash.
ghost use Rattle.std.specs.Prelude.{◌≡◌, length, map, IfOk};
ghost use Rattle.page_base.specs.Drive.{total_pages};
ghost use Rattle.flash_raw.specs.Memory.{plan_of as raw_plan_of};
ghost use Rattle.ftl_die.specs.Ftl.{view_of, raw_of};
ghost use Rattle.drive_array.specs.Cut.{cuts};
ghost use Rattle.drive_array.specs.Parts.{pages_of, plan_of};
ghost use Rattle.drive_array.specs.Reads.{AreDiesOf, TellsPages};
ghost use Rattle.drive_array.specs.Shares.{loaded_of, armed};

use crate::share::Share;
use crate::spreading::{deal, empty_shares};
use flash_die::Plan;
use flash_raw::RawMem;
use ftl_die::FtlDie;
use page_base::{Geometry, NoMemory, Page};
use std::alloc::Global;

/// Spreads the pages of an image over dies that keep them in raw flash, each with its plan: of
/// the flash's reads and programs those fail that the plan lists as reads and as writes.
///
/// There are as many pages as the geometry has, and one plan for each die.
pub fn spread_ftl(
    alloc: Global,
    pages: Vec<Page>,
    geometry: Geometry,
    plans: Vec<Plan>,
) -> Result<Vec<FtlDie<RawMem>>, NoMemory>
    requires pages { length pages.items ≡ total_pages geometry.blocks }
    requires plans { length plans.items ≡ geometry.dies }
    ensures dies { IfOk result (λ dies. map (λ die. view_of die) dies.items ≡ loaded_of (cuts pages.items geometry.dies) plans.items) }
    ensures plans { IfOk result (λ dies. map (λ die. raw_plan_of (raw_of die)) dies.items ≡ map (λ plan. armed plan) plans.items) }
    ensures shares { IfOk result (λ dies. AreDiesOf geometry (map (λ die. view_of die) dies.items)) }
    ensures told { IfOk result (λ dies. TellsPages (map (λ die. view_of die) dies.items) geometry.dies (cuts pages.items geometry.dies)) }
{
    let mut shares = empty_shares(alloc, plans)?;
    deal(pages, geometry.dies(), &mut shares)?;
    into_ftl_dies(alloc, shares)
}

// The die over raw flash of each share.
fn into_ftl_dies(alloc: Global, shares: Vec<Share>) -> Result<Vec<FtlDie<RawMem>>, NoMemory>
    ensures plans { IfOk result (λ dies. map (λ die. raw_plan_of (raw_of die)) dies.items ≡ map (λ share. armed (plan_of share)) shares.items) }
    ensures dies { IfOk result (λ dies. map (λ die. view_of die) dies.items
        ≡ loaded_of (map (λ share. pages_of share) shares.items) (map (λ share. plan_of share) shares.items)) }
{
    let mut dies = Vec::new(alloc);
    for share in shares {
        dies.push(share.into_ftl(alloc)?)?;
    }
    Ok(dies)
}
