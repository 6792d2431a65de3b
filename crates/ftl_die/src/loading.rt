// The pages that a die begins with.
ghost use Rattle.std.specs.Prelude.{◌≡◌, ◌+◌, ◌/◌, ◌<◌, ◌≤◌, ◌^◌, length, replicate, Some, IfSome, IfNone};
ghost use Rattle.page_base.specs.Bytes.{zero_page};

use crate::layout::BLOCK_PAGES;
use flash_die::Die;
use page_base::Page;

// Above so many pages no die is made.
const MAX_PAGES: usize = 1 << 31;

/// How many erase blocks a die of so many pages has: an eighth more than they fill, and two; `None`
/// for more than 2^31 pages.
pub fn blocks_for(pages: usize) -> Option<u32>
    ensures none { IfNone result (2 ^ 31 < pages) }
    ensures some { IfSome result (λ blocks. (pages ≤ 2 ^ 31) × (blocks < 2 ^ 26) × ((pages + 63) / 64 + 2 ≤ blocks)) }
{
    if pages > MAX_PAGES {
        return None;
    }
    let filled = (pages as u32).div_ceil(BLOCK_PAGES);
    Some(filled + filled / 8 + 2)
}

/// Writes the pages to a die of as many pages of zeros, which never fails.
pub fn load_pages<D: Die>(die: &mut D, pages: &[Page])
    requires blank { (D.seen die.old).pages ≡ Some (replicate (length pages.now) zero_page) }
    requires size { (D.seen die.old).size ≡ length pages.now }
    requires few { length pages.now ≤ 2 ^ 31 }
    requires sure { (D.seen die.old).most ≡ Some 0 }
    ensures pages { (D.seen die.new).pages ≡ Some pages.now }
    ensures sure { (D.seen die.new).most ≡ Some 0 }
{
    for (i, page) in pages.iter().enumerate() {
        match die.write(i as u32, page) {
            Ok(()) => {}
            Err(_) => unreachable!(),
        }
    }
}
