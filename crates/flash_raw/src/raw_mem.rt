// Raw flash in memory, which fails where its plan says.
ghost use Rattle.std.specs.Prelude.{◌≡◌, ◌+◌, ◌*◌, ◌<◌, ◌^◌, length};
ghost use Rattle.flash_die.specs.Failures.{failed_of};

use crate::RawFlash;
use crate::calls::Calls;
use crate::erasing::{erase_pages, erased_pages};
use crate::raw_page::RawPage;
use page_base::{DieFault, NoMemory, Page};
use std::alloc::Global;

// How many pages an erase block has.
const BLOCK_PAGES: usize = 64;

/// Raw flash in memory. Of its reads, of its programs and of its erases, the k-th, counted from 1,
/// fails exactly where the list of its kind has k, and its count of faults is the number of calls
/// that failed. A program that fails leaves the page programmed with bytes 0xa5. It tells everything
/// of itself, and no method but `new` takes memory.
#[derive(Drop)]
pub struct RawMem {
    pages: Vec<RawPage>,
    blocks: u32,
    reads: Calls,
    programs: Calls,
    erases: Calls,
    earlier: u64,
    faults: u64,
    ghost whole: { length pages.items ≡ 64 * blocks },
    ghost few: { blocks < 2 ^ 26 },
    ghost before: { earlier < 2 ^ 62 },
    ghost counted: { faults ≡ earlier
        + failed_of reads.made reads.failing.items
        + failed_of programs.made programs.failing.items
        + failed_of erases.made erases.failing.items },
}

impl RawMem {
    ghost use Rattle.std.specs.Prelude.{replicate, None, IfOk};
    ghost use Rattle.flash_raw.specs.Calls.{first_calls};
    ghost use Rattle.flash_raw.specs.Memory.{pages_of, plan_of, view_of};

    /// Raw flash of so many erase blocks, fewer than 2^26, with all pages erased, whose reads,
    /// programs and erases of these numbers fail; or `NoMemory`. All its memory is taken here.
    pub fn new(
        alloc: Global,
        blocks: u32,
        reads: Vec<u32>,
        programs: Vec<u32>,
        erases: Vec<u32>,
    ) -> Result<RawMem, NoMemory>
        requires { blocks < 2 ^ 26 }
        ensures pages { IfOk result (λ raw. pages_of raw ≡ replicate (64 * blocks) None) }
        ensures blocks { IfOk result (λ raw. (view_of raw).blocks ≡ blocks) }
        ensures plan { IfOk result (λ raw. plan_of raw ≡ record {
          earlier = 0;
          reads = first_calls reads.items;
          programs = first_calls programs.items;
          erases = first_calls erases.items;
        }) }
    {
        Ok(RawMem {
            pages: erased_pages(alloc, BLOCK_PAGES * blocks as usize)?,
            blocks,
            reads: Calls::first(reads),
            programs: Calls::first(programs),
            erases: Calls::first(erases),
            earlier: 0,
            faults: 0,
        })
    }

    /// Sets another plan, and counts calls anew from 1. The count of faults, which is below 2^62,
    /// and the pages stay.
    pub fn arm(&mut self, reads: Vec<u32>, programs: Vec<u32>, erases: Vec<u32>)
        requires { (view_of self.old).faults < 2 ^ 62 }
        ensures pages { pages_of self.new ≡ pages_of self.old }
        ensures blocks { (view_of self.new).blocks ≡ (view_of self.old).blocks }
        ensures plan { plan_of self.new ≡ record {
          earlier = (view_of self.old).faults;
          reads = first_calls reads.items;
          programs = first_calls programs.items;
          erases = first_calls erases.items;
        } }
    {
        self.earlier = self.faults;
        self.reads = Calls::first(reads);
        self.programs = Calls::first(programs);
        self.erases = Calls::first(erases);
    }
}

impl RawFlash for RawMem {
    ghost use Rattle.std.specs.Prelude.{is_ok, not, set, Some, OnOk, OnErr};
    ghost use Rattle.flash_die.specs.Failures.{spoilt_page};
    ghost use Rattle.flash_raw.specs.Raw.{IsProgrammed, IsNextErased, RawRead, RawProgram, RawErase, erased_block};
    ghost use Rattle.flash_raw.specs.Calls.{next_fails, after_call};
    ghost use Rattle.flash_raw.specs.Memory.{pages_of, plan_of, view_of};
    ghost use Rattle.flash_raw.specs.Laws.{sound_raw};

    ghost seen = { view_of };

    fn blocks(&self) -> u32 {
        self.blocks
    }

    fn read(&mut self, page: u32, into: &mut Page) -> Result<(), DieFault>
        requires { IsProgrammed (view_of self.old).pages page }
        ensures went { RawRead (view_of self.old) page (is_ok result) into.old into.new (view_of self.new) }
        ensures fails { is_ok result ≡ not (next_fails (plan_of self.old).reads) }
        ensures plan { plan_of self.new
            ≡ record (plan_of self.old) { reads = after_call (plan_of self.old).reads } }
    {
        if self.reads.next_fails() {
            self.faults += 1;
            return Err(DieFault);
        }
        into.copy_from(self.pages[page as usize].bytes());
        Ok(())
    }

    fn program(&mut self, page: u32, from: &Page) -> Result<(), DieFault>
        requires { IsNextErased (view_of self.old).pages page }
        ensures went { RawProgram (view_of self.old) page (is_ok result) from.now (view_of self.new) }
        ensures fails { is_ok result ≡ not (next_fails (plan_of self.old).programs) }
        ensures plan { plan_of self.new
            ≡ record (plan_of self.old) { programs = after_call (plan_of self.old).programs } }
        ensures ok { OnOk result (pages_of self.new ≡ set (pages_of self.old) page (Some from.now)) }
        ensures err { OnErr result (pages_of self.new ≡ set (pages_of self.old) page (Some spoilt_page)) }
    {
        if self.programs.next_fails() {
            self.faults += 1;
            self.pages[page as usize].spoil();
            return Err(DieFault);
        }
        self.pages[page as usize].program(from);
        Ok(())
    }

    fn erase(&mut self, block: u32) -> Result<(), DieFault>
        requires { block < (view_of self.old).blocks }
        ensures went { RawErase (view_of self.old) block (is_ok result) (view_of self.new) }
        ensures fails { is_ok result ≡ not (next_fails (plan_of self.old).erases) }
        ensures plan { plan_of self.new
            ≡ record (plan_of self.old) { erases = after_call (plan_of self.old).erases } }
        ensures ok { OnOk result (pages_of self.new ≡ erased_block (pages_of self.old) block) }
        ensures err { OnErr result (pages_of self.new ≡ pages_of self.old) }
    {
        if self.erases.next_fails() {
            self.faults += 1;
            return Err(DieFault);
        }
        let first = BLOCK_PAGES * block as usize;
        erase_pages(&mut self.pages[first..first + BLOCK_PAGES]);
        Ok(())
    }

    ghost sound = { λ raw. sound_raw raw };
}
