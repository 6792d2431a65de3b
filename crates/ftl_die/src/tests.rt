ghost use Rattle.std.specs.Prelude.{◌≡◌, ◌<◌, ◌≤◌, ◌^◌, IfSome};

use crate::{FtlDie, FtlErr};
use edge_io::Listed;
use flash_die::{Die, Plan};
use flash_raw::RawMem;
use page_base::{DieFault, NoMemory, Page};
use std::alloc::{AllocError, Global};
use std::process::Abort;

// A page of this byte.
fn filled(alloc: Global, byte: u8) -> Result<Page, NoMemory> {
    let mut page = Page::zero(alloc)?;
    page.patch(0, &[byte; 4096]);
    Ok(page)
}

// The first and the last byte.
fn ends(page: &Page) -> (u8, u8) {
    (page.byte(0), page.byte(4095))
}

// How many pages any die has.
fn pages_of<D: Die>(die: &D) -> u32
    ensures { result ≡ (D.seen die.now).size }
{
    die.pages()
}

// Reads a page of any die, where it has that page.
fn read_any<D: Die>(die: &mut D, page: u32, into: &mut Page) -> Result<(), DieFault>
    ensures bounded { IfSome (D.seen die.new).most (λ most. (D.seen die.new).faults ≤ most) }
{
    if page < die.pages() {
        die.read(page, into)
    } else {
        Err(DieFault)
    }
}

// Writes a page of any die, where it has that page.
fn write_any<D: Die>(die: &mut D, page: u32, from: &Page) -> Result<(), DieFault>
    ensures bounded { IfSome (D.seen die.new).most (λ most. (D.seen die.new).faults ≤ most) }
{
    if page < die.pages() {
        die.write(page, from)
    } else {
        Err(DieFault)
    }
}

// A die of 64 pages over raw flash of so many erase blocks, which fails at these numbers.
fn die_of_64(
    alloc: Global,
    blocks: u32,
    reads: Vec<u32>,
    programs: Vec<u32>,
    erases: Vec<u32>,
) -> Result<FtlDie<RawMem>, NoMemory>
    requires enough { 3 ≤ blocks }
    requires few { blocks < 2 ^ 26 }
{
    let raw = RawMem::new(alloc, blocks, reads, programs, erases)?;
    match FtlDie::new(alloc, raw, 64) {
        Ok(die) => Ok(die),
        Err(FtlErr::NoMemory(_)) => Err(AllocError),
    }
}

// The multiples of a number below 2,000.
fn multiples(alloc: Global, step: u32) -> Result<Vec<u32>, NoMemory>
    requires { 0 < step }
{
    let mut numbers = Vec::new(alloc);
    for number in 1..2000u32 {
        if number % step == 0 {
            numbers.push(number)?;
        }
    }
    Ok(numbers)
}

// Writes and reads pages of a die of 64 pages of zeros beside a plain list of their bytes, and says
// how many of the calls failed.
fn compare(rt: &impl Abort, alloc: Global, die: &mut FtlDie<RawMem>) -> Result<u32, NoMemory> {
    let mut expected = [0u8; 64];
    let mut failed: u32 = 0;
    let mut page = Page::zero(alloc)?;
    for i in 0..500u32 {
        let written = (i * 29 + i / 7) % 64;
        let byte = (i % 251) as u8;
        page.patch(0, &[byte; 4096]);
        match write_any(die, written, &page) {
            Ok(()) => expected[written as usize] = byte,
            Err(_) => failed = failed.saturating_add(1),
        }
        let read = (i * 13) % 64;
        let want = expected[read as usize];
        match read_any(die, read, &mut page) {
            Ok(()) => assert_eq!(rt; ends(&page), (want, want)),
            Err(_) => failed = failed.saturating_add(1),
        }
    }
    Ok(failed)
}

#[test]
fn three_hundred_writes_of_a_page(rt: HostRuntime) -> Result<(), NoMemory> {
    let alloc = rt.alloc();
    let mut die = die_of_64(alloc, 4, Vec::new(alloc), Vec::new(alloc), Vec::new(alloc))?;
    assert_eq!(rt; pages_of(&die), 64);
    let mut page = Page::zero(alloc)?;
    for i in 0..300u32 {
        page.patch(0, &[(i % 256) as u8; 4096]);
        assert_eq!(rt; write_any(&mut die, 0, &page), Ok(()));
    }
    page.clear_from(0);
    assert_eq!(rt; read_any(&mut die, 0, &mut page), Ok(()));
    assert_eq!(rt; ends(&page), (0x2b, 0x2b));
    Ok(())
}

#[test]
fn a_die_without_failures_is_a_list(rt: HostRuntime) -> Result<(), NoMemory> {
    let alloc = rt.alloc();
    let mut die = die_of_64(alloc, 3, Vec::new(alloc), Vec::new(alloc), Vec::new(alloc))?;
    assert_eq!(rt; compare(&rt, alloc, &mut die)?, 0);
    Ok(())
}

#[test]
fn reads_that_fail_lose_nothing(rt: HostRuntime) -> Result<(), NoMemory> {
    let alloc = rt.alloc();
    for step in 2..6u32 {
        let mut die = die_of_64(
            alloc,
            3,
            multiples(alloc, step)?,
            Vec::new(alloc),
            Vec::new(alloc),
        )?;
        assert!(rt; compare(&rt, alloc, &mut die)? > 0);
    }
    Ok(())
}

#[test]
fn programs_that_fail_lose_nothing(rt: HostRuntime) -> Result<(), NoMemory> {
    let alloc = rt.alloc();
    for step in 2..6u32 {
        let mut die = die_of_64(
            alloc,
            3,
            Vec::new(alloc),
            multiples(alloc, step)?,
            Vec::new(alloc),
        )?;
        assert!(rt; compare(&rt, alloc, &mut die)? > 0);
    }
    Ok(())
}

#[test]
fn erases_that_fail_lose_nothing(rt: HostRuntime) -> Result<(), NoMemory> {
    let alloc = rt.alloc();
    for step in 2..4u32 {
        let mut die = die_of_64(
            alloc,
            3,
            multiples(alloc, 7)?,
            multiples(alloc, 5)?,
            multiples(alloc, step)?,
        )?;
        assert!(rt; compare(&rt, alloc, &mut die)? > 0);
    }
    Ok(())
}

#[test]
fn a_loaded_die_fails_by_its_plan(rt: HostRuntime) -> Result<(), NoMemory> {
    let alloc = rt.alloc();
    let pages = vec![in alloc; filled(alloc, 1)?, filled(alloc, 2)?]?;
    let plan = Plan {
        reads: Listed::new(vec![in alloc; 2]?),
        writes: Listed::new(vec![in alloc; 1]?),
    };
    let mut die = FtlDie::loaded(alloc, pages, plan)?;
    let mut page = filled(alloc, 7)?;
    assert_eq!(rt; write_any(&mut die, 1, &page), Err(DieFault));
    assert_eq!(rt; read_any(&mut die, 1, &mut page), Ok(()));
    assert_eq!(rt; ends(&page), (2, 2));
    assert_eq!(rt; read_any(&mut die, 0, &mut page), Err(DieFault));
    assert_eq!(rt; ends(&page), (2, 2));
    assert_eq!(rt; write_any(&mut die, 0, &page), Ok(()));
    assert_eq!(rt; read_any(&mut die, 0, &mut page), Ok(()));
    assert_eq!(rt; ends(&page), (2, 2));
    Ok(())
}
