//! The run of a call's function.
ghost use Rattle.std.specs.Prelude.{◌≡◌, ◌+◌, ◌*◌, ◌%◌, ◌^◌, ◌<◌, ◌≤◌, ℕ, List, length, get_or, true, Some, None, is_some, option_map};
ghost use Rattle.sbpf_insn.specs.Machine as machine;
ghost use Rattle.sbpf_exec.specs.Outcomes.{outcome_of};
ghost use Rattle.core_state.specs.Reach.{is_lambda};
ghost use Rattle.core_outcomes.specs.Known.{paged_bytes, run_on};
ghost use Rattle.span_bytes.specs.Spans.{page_in, over, span_part};
ghost use Rattle.call_job.specs.Buffers.{HasParam, HasWritten};
ghost use Rattle.call_job.specs.Suits.{IsReady, given, SameButRun};

use crate::job::Job;
use edge_io::Bytes;
use page_base::Page;
use plain_files::Call;
use sbpf_exec::Regions;
use sbpf_insn::Code;
use span_bytes::{Ran, copy_span, run_reading, run_writing};
use std::alloc::Global;
use std::mem;

/// Runs code on bytes of pages, over regions that are there.
fn run_over_input(
    alloc: Global,
    code: &Code,
    regions: &mut Option<Regions>,
    pages: Vec<Page>,
    start: usize,
    len: usize,
    output: Bytes,
    fuel: u64,
) -> Ran
    requires there { is_some regions.old ≡ true }
    requires param { (param : List ℕ) → HasParam regions.old param → length param ≤ 2 ^ 32 }
    requires fits { start + len ≤ 4096 * length pages.items }
    requires input { len ≤ 2 ^ 32 }
    requires output { length output ≤ 2 ^ 32 }
    ensures outcome { (param : List ℕ) → HasParam regions.old param →
        machine.run code.now.insns (machine.shaped (paged_bytes (page_in pages.items) start len) output param) fuel ≡ outcome_of result.outcome result.flat }
    ensures pages { result.pages.items ≡ pages.items }
    ensures output { length result.flat ≡ length output }
    ensures param { (param : List ℕ) → HasParam regions.old param → HasParam regions.new param }
{
    let Some(regions) = regions else {
        unreachable!()
    };
    run_reading(alloc, code, regions, pages, start, len, output, fuel)
}

/// Runs code with bytes of pages as its output, over regions that are there.
fn run_over_output(
    alloc: Global,
    code: &Code,
    regions: &mut Option<Regions>,
    input: Bytes,
    pages: Vec<Page>,
    start: usize,
    len: usize,
    fuel: u64,
) -> Ran
    requires there { is_some regions.old ≡ true }
    requires param { (param : List ℕ) → HasParam regions.old param → length param ≤ 2 ^ 32 }
    requires fits { start + len ≤ 4096 * length pages.items }
    requires output { len ≤ 2 ^ 32 }
    requires input { length input ≤ 2 ^ 32 }
    ensures outcome { (param : List ℕ) → HasParam regions.old param →
        machine.run code.now.insns (machine.shaped input (paged_bytes (page_in pages.items) start len) param) fuel ≡ outcome_of result.outcome (span_part result.pages.items start len) }
    ensures input { result.flat ≡ input }
    ensures count { length result.pages.items ≡ length pages.items }
    ensures output { length (span_part result.pages.items start len) ≡ len }
    ensures bytes { (i j : ℕ) → i < length pages.items → j < 4096 → get_or (page_in result.pages.items i) j 0 ≡ over start (span_part result.pages.items start len) (4096 * i + j) (get_or (page_in pages.items i) j 0) }
    ensures param { (param : List ℕ) → HasParam regions.old param → HasParam regions.new param }
{
    let Some(regions) = regions else {
        unreachable!()
    };
    run_writing(alloc, code, regions, input, pages, start, len, fuel)
}

/// The place of a byte in its page; of no bytes, 0.
pub(crate) fn place_of(off: u64, len: usize) -> usize
    ensures value { 0 < len → result ≡ off % 4096 }
    ensures none { len ≡ 0 → result ≡ 0 }
{
    if len == 0 { 0 } else { (off % 4096) as usize }
}

impl Job {
    /// Runs the function of a `readl` on the gathered pages themselves.
    fn run_readl(&mut self, off: u64, fuel: u64)
        requires there { is_some self.old.regions ≡ true }
        requires param { (param : List ℕ) → HasParam self.old.regions param → length param ≤ 2 ^ 32 }
        requires fits { 0 < self.old.readable → off % 4096 + self.old.readable ≤ 4096 * length self.old.pages.items }
        requires output { length self.old.flat ≤ 2 ^ 32 }
        ensures ran { (param : List ℕ) → HasParam self.old.regions param → option_map (λ r. outcome_of r self.new.flat) self.new.ran
            ≡ Some (machine.run self.old.code.insns (machine.shaped (paged_bytes (page_in self.old.pages.items) (off % 4096) self.old.readable) self.old.flat param) fuel) }
        ensures same { SameButRun self.old self.new }
        ensures long { length self.new.flat ≡ length self.old.flat }
        ensures param { (param : List ℕ) → HasParam self.old.regions param → HasParam self.new.regions param }
    {
        let len = self.readable as usize;
        let start = place_of(off, len);
        let pages = mem::replace(&mut self.pages, Vec::new(self.alloc));
        let output = mem::replace(&mut self.flat, Bytes::new(Vec::new(self.alloc)));
        let Ran {
            pages,
            flat,
            outcome,
        } = run_over_input(
            self.alloc,
            &self.code,
            &mut self.regions,
            pages,
            start,
            len,
            output,
            fuel,
        );
        self.pages = pages;
        self.flat = flat;
        self.ran = Some(outcome);
    }

    /// Runs the function of a `writel` on a second set of pages, into which the gathered ones are copied.
    fn run_writel(&mut self, off: u64, n: u64, fuel: u64)
        requires there { is_some self.old.regions ≡ true }
        requires param { (param : List ℕ) → HasParam self.old.regions param → length param ≤ 2 ^ 32 }
        requires pages { self.old.reach.pages ≤ length self.old.pages.items }
        requires second { self.old.reach.pages ≤ length self.old.second.items }
        requires fits { 0 < n → off % 4096 + n ≤ 4096 * self.old.reach.pages }
        requires short { n ≤ 2 ^ 32 }
        requires input { length self.old.flat ≤ 2 ^ 32 }
        ensures ran { (param : List ℕ) → HasParam self.old.regions param → option_map (λ r. outcome_of r (span_part self.new.second.items (off % 4096) n)) self.new.ran
            ≡ Some (machine.run self.old.code.insns (machine.shaped self.old.flat (paged_bytes (page_in self.old.pages.items) (off % 4096) n) param) fuel) }
        ensures wrote { HasWritten self.new (off % 4096) n }
        ensures same { SameButRun self.old self.new }
        ensures input { self.new.flat ≡ self.old.flat }
        ensures many { length self.new.second.items ≡ length self.old.second.items }
        ensures param { (param : List ℕ) → HasParam self.old.regions param → HasParam self.new.regions param }
    {
        let len = n as usize;
        let start = place_of(off, len);
        copy_span(&mut self.second, &self.pages, self.reach.pages);
        let second = mem::replace(&mut self.second, Vec::new(self.alloc));
        let input = mem::replace(&mut self.flat, Bytes::new(Vec::new(self.alloc)));
        let Ran {
            pages,
            flat,
            outcome,
        } = run_over_output(
            self.alloc,
            &self.code,
            &mut self.regions,
            input,
            second,
            start,
            len,
            fuel,
        );
        self.second = pages;
        self.flat = flat;
        self.ran = Some(outcome);
    }

    /// Runs the function of its call, whose pages are gathered. The job then has the result of that run, and its gathered pages as they
    /// were. Takes no memory.
    pub fn execute(&mut self)
        requires ready { IsReady self.old }
        requires lambda { is_lambda self.old.request.call ≡ true }
        requires fresh { self.old.ran ≡ None }
        ensures ran { given self.new ≡ Some (run_on self.old.request.call self.old.code.insns self.old.readable (page_in self.old.pages.items)) }
        ensures same { SameButRun self.old self.new }
        ensures ready { IsReady self.new }
    {
        match &self.request.call {
            Call::Readl { off, fuel, .. } => {
                let (off, fuel) = (*off, *fuel);
                self.run_readl(off, fuel);
            }
            Call::Writel { off, len, fuel, .. } => {
                let (off, len, fuel) = (*off, *len, *fuel);
                self.run_writel(off, len, fuel);
            }
            _ => unreachable!(),
        }
    }
}
