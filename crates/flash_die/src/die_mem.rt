// A die in memory, which fails where its plan says.
ghost use Rattle.std.specs.Prelude.{◌≡◌, ◌<◌, ◌≤◌, ◌^◌, length};
ghost use Rattle.std.specs.List.{All};
ghost use Rattle.std.proofs.Props.{props};
ghost use Rattle.flash_die.specs.Dies.{AreWhole};

use crate::steps::{bounded, is_listed, next_number, spoil, whole};
use crate::{Die, Plan};
use page_base::{DieFault, Page};

/// Pages in memory. Of its reads, and of its writes, the k-th, counted from 1, fails exactly where
/// its plan lists k, and its count of faults is the number of calls that failed. A write that fails
/// leaves the page full of bytes 0xa5. It tells everything of itself, and no method takes memory.
#[derive(Drop)]
pub struct DieMem {
    pages: Vec<Page>,
    failing_reads: Vec<u32>,
    failing_writes: Vec<u32>,
    reads: u64,
    writes: u64,
    ghost few: { length pages.items < 2 ^ 32 },
    ghost each_whole: { AreWhole pages.items } by { Prim.hlevel props },
    ghost reads_end: { reads ≤ 2 ^ 32 },
    ghost writes_end: { writes ≤ 2 ^ 32 },
    ghost small_reads: { All (λ number. number < 2 ^ 32) failing_reads.items } by { Prim.hlevel props },
    ghost small_writes: { All (λ number. number < 2 ^ 32) failing_writes.items } by { Prim.hlevel props },
}

impl DieMem {
    ghost use Rattle.flash_die.specs.Memory.{pages_of, plan_of};

    /// A die of these pages, of which there are fewer than 2^32, that fails by this plan.
    pub fn new(pages: Vec<Page>, plan: Plan) -> DieMem
        requires few { length pages.items < 2 ^ 32 }
        ensures pages { pages_of result ≡ pages.items }
        ensures plan { plan_of result ≡ record {
          reads = 0;
          writes = 0;
          failing_reads = plan.reads;
          failing_writes = plan.writes;
        } }
    {
        DieMem {
            pages: whole(pages),
            failing_reads: bounded(plan.reads.into_vec()),
            failing_writes: bounded(plan.writes.into_vec()),
            reads: 0,
            writes: 0,
        }
    }
}

impl Die for DieMem {
    ghost use Rattle.std.specs.Prelude.{is_ok, not, set, OnOk, OnErr};
    ghost use Rattle.flash_die.specs.Dies.{WentRead, WentWrite, read_fails, after_read, write_fails, after_write};
    ghost use Rattle.flash_die.specs.Memory.{pages_of, plan_of, view_of};
    ghost use Rattle.flash_die.specs.Failures.{spoilt_page};
    ghost use Rattle.flash_die.specs.Laws.{sound_die};

    ghost seen = { view_of };

    fn pages(&self) -> u32 {
        self.pages.len() as u32
    }

    fn read(&mut self, page: u32, into: &mut Page) -> Result<(), DieFault>
        requires { page < (view_of self.old).size }
        ensures went { WentRead (view_of self.old) page (is_ok result) into.old into.new (view_of self.new) }
        ensures fails { is_ok result ≡ not (read_fails (plan_of self.old)) }
        ensures plan { plan_of self.new ≡ after_read (plan_of self.old) }
        ensures pages { pages_of self.new ≡ pages_of self.old }
    {
        self.reads = next_number(self.reads);
        if is_listed(self.reads, &self.failing_reads) {
            return Err(DieFault);
        }
        into.copy_from(&self.pages[page as usize]);
        Ok(())
    }

    fn write(&mut self, page: u32, from: &Page) -> Result<(), DieFault>
        requires { page < (view_of self.old).size }
        ensures went { WentWrite (view_of self.old) page (is_ok result) from.now (view_of self.new) }
        ensures fails { is_ok result ≡ not (write_fails (plan_of self.old)) }
        ensures plan { plan_of self.new ≡ after_write (plan_of self.old) }
        ensures ok { OnOk result (pages_of self.new ≡ set (pages_of self.old) page from.now) }
        ensures err { OnErr result (pages_of self.new ≡ set (pages_of self.old) page spoilt_page) }
    {
        self.writes = next_number(self.writes);
        if is_listed(self.writes, &self.failing_writes) {
            spoil(&mut self.pages[page as usize]);
            return Err(DieFault);
        }
        self.pages[page as usize].copy_from(from);
        Ok(())
    }

    ghost sound = { λ die. sound_die (pages_of die) (plan_of die) die.each_whole die.reads_end die.writes_end die.small_reads die.small_writes };
}
