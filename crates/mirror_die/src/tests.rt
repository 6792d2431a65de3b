ghost use Rattle.std.specs.Prelude.{◌≡◌, ◌<◌, ◌≤◌, ◌^◌, ◌+◌, [], ◌∷◌, length, IfOk, IfSome};
ghost use Rattle.page_base.specs.Bytes.{zero_page};
ghost use Rattle.flash_die.specs.Failures.{listed_of};
ghost use Rattle.flash_die.specs.Memory.{pages_of, plan_of};

use crate::laws::fresh_copies_have_the_page;
use crate::{MirrorDie, MirrorErr, RebuildErr};
use edge_io::Listed;
use flash_die::{Die, DieMem, Plan};
use page_base::{DieFault, NoMemory, Page};
use std::alloc::{AllocError, Global};

// A die of three pages of zeros that fails in these reads and writes.
fn zeros(alloc: Global, reads: &[u32], writes: &[u32]) -> Result<DieMem, NoMemory>
    requires few_reads { length reads.now < 16 }
    requires few_writes { length writes.now < 16 }
    ensures pages { IfOk result (λ die. pages_of die ≡ zero_page ∷ zero_page ∷ zero_page ∷ []) }
    ensures most { IfOk result (λ die. listed_of (plan_of die) < 32) }
{
    let pages = vec![in alloc; Page::zero(alloc)?, Page::zero(alloc)?, Page::zero(alloc)?]?;
    let plan = Plan {
        reads: Listed::new(reads.to_vec(alloc)?),
        writes: Listed::new(writes.to_vec(alloc)?),
    };
    Ok(DieMem::new(pages, plan))
}

// A mirror of two such dies, each with its plan of reads and of writes.
fn mirror_of(
    alloc: Global,
    first: (&[u32], &[u32]),
    second: (&[u32], &[u32]),
) -> Result<MirrorDie<DieMem, DieMem>, NoMemory> {
    if first.0.len() > 15 || first.1.len() > 15 || second.0.len() > 15 || second.1.len() > 15 {
        return Err(AllocError);
    }
    let first = zeros(alloc, first.0, first.1)?;
    let second = zeros(alloc, second.0, second.1)?;
    match MirrorDie::new(alloc, first, second) {
        Ok(mirror) => Ok(mirror),
        Err(MirrorErr::NoMemory(_, _)) => Err(AllocError),
    }
}

// A page of this byte.
fn filled(alloc: Global, byte: u8) -> Result<Page, NoMemory> {
    let mut page = Page::zero(alloc)?;
    page.patch(0, &[byte; 4096]);
    Ok(page)
}

// The first and the last byte.
fn ends(page: &Page) -> (u8, u8) {
    (page.byte(0), page.byte(4095))
}

// Reads a page of any die, where it has that page.
fn read_any<D: Die>(die: &mut D, page: u32, into: &mut Page) -> Result<(), DieFault>
    ensures bounded { IfSome (D.seen die.new).most (λ most. (D.seen die.new).faults ≤ most) }
{
    if page < die.pages() {
        die.read(page, into)
    } else {
        Err(DieFault)
    }
}

// Writes a page of any die, where it has that page.
fn write_any<D: Die>(die: &mut D, page: u32, from: &Page) -> Result<(), DieFault>
    ensures bounded { IfSome (D.seen die.new).most (λ most. (D.seen die.new).faults ≤ most) }
{
    if page < die.pages() {
        die.write(page, from)
    } else {
        Err(DieFault)
    }
}

#[test]
fn a_stale_page_is_rebuilt_and_serves(rt: HostRuntime) -> Result<(), NoMemory> {
    let alloc = rt.alloc();
    let mut mirror = mirror_of(alloc, (&[2], &[]), (&[], &[1]))?;
    let mut page = filled(alloc, 7)?;
    assert_eq!(rt; write_any(&mut mirror, 2, &page), Ok(()));
    assert_eq!(rt; mirror.stale(), 1);
    let mut buffer = Page::zero(alloc)?;
    assert_eq!(rt; mirror.rebuild(&mut buffer), Ok(()));
    assert_eq!(rt; mirror.stale(), 0);
    page.clear_from(0);
    assert_eq!(rt; read_any(&mut mirror, 2, &mut page), Ok(()));
    assert_eq!(rt; ends(&page), (7, 7));
    fresh_copies_have_the_page(&mirror);
    Ok(())
}

#[test]
fn a_stale_copy_is_not_read(rt: HostRuntime) -> Result<(), NoMemory> {
    let alloc = rt.alloc();
    let mut mirror = mirror_of(alloc, (&[], &[1]), (&[2], &[]))?;
    let mut page = filled(alloc, 7)?;
    assert_eq!(rt; write_any(&mut mirror, 1, &page), Ok(()));
    assert_eq!(rt; mirror.stale(), 1);
    page.clear_from(0);
    assert_eq!(rt; read_any(&mut mirror, 1, &mut page), Ok(()));
    assert_eq!(rt; ends(&page), (7, 7));
    assert_eq!(rt; read_any(&mut mirror, 1, &mut page), Err(DieFault));
    assert_eq!(rt; mirror.rebuild(&mut page), Ok(()));
    assert_eq!(rt; mirror.stale(), 0);
    Ok(())
}

#[test]
fn a_write_that_both_copies_fail_leaves_the_first_fresh(rt: HostRuntime) -> Result<(), NoMemory> {
    let alloc = rt.alloc();
    let mut mirror = mirror_of(alloc, (&[], &[1]), (&[], &[1]))?;
    let mut page = filled(alloc, 7)?;
    assert_eq!(rt; write_any(&mut mirror, 0, &page), Err(DieFault));
    assert_eq!(rt; mirror.stale(), 1);
    assert_eq!(rt; read_any(&mut mirror, 0, &mut page), Ok(()));
    assert_eq!(rt; ends(&page), (0xa5, 0xa5));
    Ok(())
}

#[test]
fn a_rebuild_stops_at_the_copy_that_fails(rt: HostRuntime) -> Result<(), NoMemory> {
    let alloc = rt.alloc();
    let mut mirror = mirror_of(alloc, (&[1], &[]), (&[], &[1, 2]))?;
    let mut page = filled(alloc, 7)?;
    assert_eq!(rt; write_any(&mut mirror, 0, &page), Ok(()));
    assert_eq!(rt; mirror.rebuild(&mut page), Err(RebuildErr::First));
    assert_eq!(rt; mirror.rebuild(&mut page), Err(RebuildErr::Second));
    assert_eq!(rt; mirror.stale(), 1);
    assert_eq!(rt; mirror.rebuild(&mut page), Ok(()));
    assert_eq!(rt; mirror.stale(), 0);
    assert_eq!(rt; ends(&page), (7, 7));
    Ok(())
}
