// Pages of raw flash in memory that are erased together.
ghost use Rattle.std.specs.Prelude.{◌≡◌, length, replicate, map, None, IfOk};
ghost use Rattle.flash_raw.specs.Memory.{shown};

use crate::raw_page::RawPage;
use page_base::NoMemory;
use std::alloc::Global;

/// So many erased pages.
pub fn erased_pages(alloc: Global, count: usize) -> Result<Vec<RawPage>, NoMemory>
    ensures { IfOk result (λ pages. map shown pages.items ≡ replicate count None) }
{
    let mut pages = Vec::with_capacity(alloc, count)?;
    for _ in 0..count {
        pages.push(RawPage::erased(alloc)?)?;
    }
    Ok(pages)
}

/// Erases the pages.
pub fn erase_pages(pages: &mut [RawPage])
    ensures { map shown pages.new ≡ replicate (length pages.old) None }
{
    for page in pages.iter_mut() {
        page.erase();
    }
}
