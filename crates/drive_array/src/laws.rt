//! What cutting an image by die and joining it again comes to.
ghost use Rattle.std.specs.Prelude.{◌≡◌, ◌<◌, ◌/◌, ◌%◌, List, ℕ, [], length, get_or};
ghost use Rattle.std.specs.Prelude.{IfOk, IfSome, Err};
ghost use Rattle.std.specs.List.{concat};
ghost use Rattle.page_base.specs.Drive.{total_pages};
ghost use Rattle.drive_array.specs.Cut.{cut, cuts, joined};
ghost use Rattle.drive_array.specs.Reads.{FailsWithin, die_at, share_of};
ghost use Rattle.drive_array.specs.Shares.{dies_of};

use crate::{GatherErr, gather, spread};
use flash_die::Plan;
use page_base::{Geometry, Page};
use std::alloc::Global;

/// Image page p is page p / dies of die p mod dies.
pub fn image_page_lies_on_its_die()
    ensures { (pages : List (List ℕ)) (dies page : ℕ) → 0 < dies → page < length pages
        → get_or (cut pages dies (page % dies)) (page / dies) [] ≡ get_or pages page [] }
{}

/// What was cut by die is joined to the whole.
pub fn joined_cuts_are_the_image()
    ensures { (pages : List (List ℕ)) (dies : ℕ) → 0 < dies → joined (cuts pages dies) dies (length pages) ≡ pages }
{}

/// What was spread over dies is gathered as it was, if no die fails, and a die fails only where its
/// plan lists one of the reads of its share.
pub fn gathered_spread_is_the_image(
    alloc: Global,
    pages: Vec<Page>,
    geometry: Geometry,
    plans: Vec<Plan>,
) -> Result<Vec<u8>, GatherErr>
    requires pages { length pages.items ≡ total_pages geometry.blocks }
    requires plans { length plans.items ≡ geometry.dies }
    ensures whole { IfOk result (λ bytes. bytes.items ≡ concat pages.items) }
    ensures listed { (die : _) → result ≡ Err (GatherErr.Die die)
        → IfSome (die_at (dies_of (cuts pages.items geometry.dies) plans.items) die).plan (FailsWithin (share_of geometry die)) }
{
    let mut dies = spread(alloc, pages, geometry, plans)?;
    gather(alloc, &mut dies, geometry)
}
