ghost use Rattle.std.specs.Prelude.{◌≡◌, ◌<◌, OnOk, OnErr};
ghost use Rattle.flash_raw.specs.Raw.{IsProgrammed, IsNextErased};

use crate::{RawFlash, RawMem};
use page_base::{DieFault, NoMemory, Page};
use std::alloc::Global;

// A page of this byte.
fn filled(alloc: Global, byte: u8) -> Result<Page, NoMemory> {
    let mut page = Page::zero(alloc)?;
    page.patch(0, &[byte; 4096]);
    Ok(page)
}

// The first and the last byte.
fn ends(page: &Page) -> (u8, u8) {
    (page.byte(0), page.byte(4095))
}

// Programs page 0 of any raw flash.
fn program_first<R: RawFlash>(raw: &mut R, from: &Page) -> Result<(), DieFault>
    requires { IsNextErased (R.seen raw.old).pages 0 }
    ensures programmed { IsProgrammed (R.seen raw.new).pages 0 }
    ensures blocks { (R.seen raw.new).blocks ≡ (R.seen raw.old).blocks }
{
    raw.program(0, from)
}

// Reads page 0 of any raw flash.
fn read_first<R: RawFlash>(raw: &mut R, into: &mut Page) -> Result<(), DieFault>
    requires { IsProgrammed (R.seen raw.old).pages 0 }
    ensures programmed { IsProgrammed (R.seen raw.new).pages 0 }
    ensures blocks { (R.seen raw.new).blocks ≡ (R.seen raw.old).blocks }
{
    raw.read(0, into)
}

// Erases block 0 of any raw flash.
fn erase_first<R: RawFlash>(raw: &mut R) -> Result<(), DieFault>
    requires { 0 < (R.seen raw.old).blocks }
    ensures erased { OnOk result (IsNextErased (R.seen raw.new).pages 0) }
    ensures kept { OnErr result ((R.seen raw.new).pages ≡ (R.seen raw.old).pages) }
    ensures blocks { (R.seen raw.new).blocks ≡ (R.seen raw.old).blocks }
{
    raw.erase(0)
}

// How many erase blocks any raw flash has.
fn blocks_of<R: RawFlash>(raw: &R) -> u32
    ensures { result ≡ (R.seen raw.now).blocks }
{
    raw.blocks()
}

#[test]
fn calls_that_are_listed_fail(rt: HostRuntime) -> Result<(), NoMemory> {
    let alloc = rt.alloc();
    let mut raw = RawMem::new(
        alloc,
        2,
        vec![in alloc; 2]?,
        vec![in alloc; 2]?,
        vec![in alloc; 1]?,
    )?;
    assert_eq!(rt; blocks_of(&raw), 2);
    let mut page = filled(alloc, 7)?;
    assert_eq!(rt; program_first(&mut raw, &page), Ok(()));
    page.clear_from(0);
    assert_eq!(rt; read_first(&mut raw, &mut page), Ok(()));
    assert_eq!(rt; ends(&page), (7, 7));
    assert_eq!(rt; erase_first(&mut raw), Err(DieFault));
    page.clear_from(0);
    assert_eq!(rt; read_first(&mut raw, &mut page), Err(DieFault));
    assert_eq!(rt; ends(&page), (0, 0));
    assert_eq!(rt; erase_first(&mut raw), Ok(()));
    assert_eq!(rt; program_first(&mut raw, &page), Err(DieFault));
    assert_eq!(rt; read_first(&mut raw, &mut page), Ok(()));
    assert_eq!(rt; ends(&page), (0xa5, 0xa5));
    Ok(())
}

#[test]
#[tactic(auto, unfolding(flash_die::specs::Failures::failed_of))]
fn another_plan_counts_anew(rt: HostRuntime) -> Result<(), NoMemory> {
    let alloc = rt.alloc();
    let none = Vec::new(alloc);
    let mut raw = RawMem::new(alloc, 1, vec![in alloc; 1]?, none, Vec::new(alloc))?;
    raw.arm(vec![in alloc; 2]?, Vec::new(alloc), Vec::new(alloc));
    let mut page = filled(alloc, 7)?;
    assert_eq!(rt; program_first(&mut raw, &page), Ok(()));
    assert_eq!(rt; read_first(&mut raw, &mut page), Ok(()));
    assert_eq!(rt; read_first(&mut raw, &mut page), Err(DieFault));
    Ok(())
}
