ghost use Rattle.std.specs.Prelude.{◌≤◌, IfSome};

use crate::{Die, DieMem, Plan};
use edge_io::Listed;
use page_base::{DieFault, NoMemory, Page};
use std::alloc::Global;

// A page of this byte.
fn filled(alloc: Global, byte: u8) -> Result<Page, NoMemory> {
    let mut page = Page::zero(alloc)?;
    page.patch(0, &[byte; 4096]);
    Ok(page)
}

// The first and the last byte.
fn ends(page: &Page) -> (u8, u8) {
    (page.byte(0), page.byte(4095))
}

// A die of two pages.
fn die_of_two(alloc: Global, reads: Vec<u32>, writes: Vec<u32>) -> Result<DieMem, NoMemory> {
    let pages = vec![in alloc; filled(alloc, 1)?, filled(alloc, 2)?]?;
    let plan = Plan {
        reads: Listed::new(reads),
        writes: Listed::new(writes),
    };
    Ok(DieMem::new(pages, plan))
}

// Reads a page of any die, where it has that page.
fn read_any<D: Die>(die: &mut D, page: u32, into: &mut Page) -> Result<(), DieFault>
    ensures bounded { IfSome (D.seen die.new).most (λ most. (D.seen die.new).faults ≤ most) }
{
    if page < die.pages() {
        die.read(page, into)
    } else {
        Err(DieFault)
    }
}

// Writes a page of any die, where it has that page.
fn write_any<D: Die>(die: &mut D, page: u32, from: &Page) -> Result<(), DieFault>
    ensures bounded { IfSome (D.seen die.new).most (λ most. (D.seen die.new).faults ≤ most) }
{
    if page < die.pages() {
        die.write(page, from)
    } else {
        Err(DieFault)
    }
}

#[test]
fn a_read_that_is_listed_fails_and_changes_nothing(rt: HostRuntime) -> Result<(), NoMemory> {
    let alloc = rt.alloc();
    let mut die = die_of_two(alloc, vec![in alloc; 2]?, Vec::new(alloc))?;
    let mut page = Page::zero(alloc)?;
    assert_eq!(rt; read_any(&mut die, 0, &mut page), Ok(()));
    assert_eq!(rt; read_any(&mut die, 1, &mut page), Err(DieFault));
    assert_eq!(rt; ends(&page), (1, 1));
    assert_eq!(rt; read_any(&mut die, 1, &mut page), Ok(()));
    assert_eq!(rt; ends(&page), (2, 2));
    Ok(())
}

#[test]
fn a_write_that_is_listed_fails_and_spoils_its_page(rt: HostRuntime) -> Result<(), NoMemory> {
    let alloc = rt.alloc();
    let mut die = die_of_two(alloc, Vec::new(alloc), vec![in alloc; 9, 1]?)?;
    let mut page = filled(alloc, 7)?;
    assert_eq!(rt; write_any(&mut die, 0, &page), Err(DieFault));
    assert_eq!(rt; write_any(&mut die, 1, &page), Ok(()));
    assert_eq!(rt; read_any(&mut die, 0, &mut page), Ok(()));
    assert_eq!(rt; ends(&page), (0xa5, 0xa5));
    assert_eq!(rt; read_any(&mut die, 1, &mut page), Ok(()));
    assert_eq!(rt; ends(&page), (7, 7));
    Ok(())
}
