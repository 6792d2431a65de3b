//! Runs of a function over the pages of a span.
ghost use Rattle.std.specs.Prelude.{◌≡◌, ◌+◌, ◌*◌, ◌^◌, ◌<◌, ◌≤◌, ℕ, length, get_or};
ghost use Rattle.sbpf_insn.specs.Machine as machine;
ghost use Rattle.sbpf_exec.specs.Buffers.{region_bytes, AreWhole};
ghost use Rattle.sbpf_exec.specs.Outcomes.{outcome_of, UsesAtMost};
ghost use Rattle.sbpf_exec.specs.Parts.{input_of, output_of, param_of};
ghost use Rattle.span_bytes.specs.Kinds.{IsFlat, IsPaged, pages_of};
ghost use Rattle.span_bytes.specs.Spans.{page_in, over, span_part};

use edge_io::Bytes;
use page_base::Page;
use sbpf_exec::{Outcome, Region, Regions, run};
use sbpf_insn::Code;
use std::alloc::Global;
use std::mem;

/// What a run leaves: the pages of the span, the buffer that isn't in pages, and how it ended.
#[derive(Drop)]
pub struct Ran {
    pub pages: Vec<Page>,
    pub flat: Bytes,
    pub outcome: Outcome,
}

/// A region of no bytes. It takes no memory.
fn nothing(alloc: Global) -> Region {
    Region::Flat(Bytes::new(Vec::new(alloc)))
}

/// Puts in another input, and gives back what was there.
fn swap_input(regions: &mut Regions, input: Region) -> Region
    ensures input { input_of regions.new ≡ input }
    ensures was { result ≡ input_of regions.old }
    ensures output { output_of regions.new ≡ output_of regions.old }
    ensures param { param_of regions.new ≡ param_of regions.old }
{
    mem::replace(regions.input_mut(), input)
}

/// Puts in another output, and gives back what was there.
fn swap_output(regions: &mut Regions, output: Region) -> Region
    ensures output { output_of regions.new ≡ output }
    ensures was { result ≡ output_of regions.old }
    ensures input { input_of regions.new ≡ input_of regions.old }
    ensures param { param_of regions.new ≡ param_of regions.old }
{
    mem::replace(regions.output_mut(), output)
}

/// The bytes of a region that is flat.
fn flat_bytes(region: Region) -> Bytes
    requires { IsFlat region }
    ensures { result ≡ region_bytes region }
{
    match region {
        Region::Flat(bytes) => bytes,
        Region::Paged { .. } => unreachable!(),
    }
}

/// The pages of a region that lies in pages.
fn into_pages(region: Region) -> Vec<Page>
    requires { IsPaged region }
    ensures { result.items ≡ pages_of region }
{
    match region {
        Region::Flat(_) => unreachable!(),
        Region::Paged { pages, .. } => pages,
    }
}

/// Runs code on so many bytes of a span from a place on as its input, which is read in the pages, with an output as it is at first. The
/// regions have the parameter. It takes no memory.
pub fn run_reading(
    alloc: Global,
    code: &Code,
    regions: &mut Regions,
    pages: Vec<Page>,
    start: usize,
    len: usize,
    output: Bytes,
    fuel: u64,
) -> Ran
    requires fits { start + len ≤ 4096 * length pages.items }
    requires input { len ≤ 2 ^ 32 }
    requires output { length output ≤ 2 ^ 32 }
    requires param { length (param_of regions.old) ≤ 2 ^ 32 }
    ensures outcome { machine.run code.now.insns (machine.shaped (span_part pages.items start len) output (param_of regions.old)) fuel ≡ outcome_of result.outcome result.flat }
    ensures fuel { UsesAtMost fuel result.outcome }
    ensures whole { AreWhole pages.items }
    ensures pages { result.pages.items ≡ pages.items }
    ensures output { length result.flat ≡ length output }
    ensures param { param_of regions.new ≡ param_of regions.old }
{
    let out_len = output.as_slice().len();
    let _input = swap_input(regions, Region::Paged { pages, start, len });
    let _output = swap_output(regions, Region::Flat(output));
    regions.shape(start, len, 0, out_len);
    let outcome = run(code, regions, fuel);
    let read = swap_input(regions, nothing(alloc));
    let written = swap_output(regions, nothing(alloc));
    Ran {
        pages: into_pages(read),
        flat: flat_bytes(written),
        outcome,
    }
}

/// Runs code on an input, with so many bytes of a span from a place on as its output, which is read and written in the pages. The regions
/// have the parameter. It takes no memory.
pub fn run_writing(
    alloc: Global,
    code: &Code,
    regions: &mut Regions,
    input: Bytes,
    pages: Vec<Page>,
    start: usize,
    len: usize,
    fuel: u64,
) -> Ran
    requires fits { start + len ≤ 4096 * length pages.items }
    requires output { len ≤ 2 ^ 32 }
    requires input { length input ≤ 2 ^ 32 }
    requires param { length (param_of regions.old) ≤ 2 ^ 32 }
    ensures outcome { machine.run code.now.insns (machine.shaped input (span_part pages.items start len) (param_of regions.old)) fuel ≡ outcome_of result.outcome (span_part result.pages.items start len) }
    ensures fuel { UsesAtMost fuel result.outcome }
    ensures whole { AreWhole pages.items }
    ensures input { result.flat ≡ input }
    ensures count { length result.pages.items ≡ length pages.items }
    ensures output { length (span_part result.pages.items start len) ≡ len }
    ensures bytes { (i j : ℕ) → i < length pages.items → j < 4096 → get_or (page_in result.pages.items i) j 0 ≡ over start (span_part result.pages.items start len) (4096 * i + j) (get_or (page_in pages.items i) j 0) }
    ensures param { param_of regions.new ≡ param_of regions.old }
{
    let in_len = input.as_slice().len();
    let _input = swap_input(regions, Region::Flat(input));
    let _output = swap_output(regions, Region::Paged { pages, start, len });
    regions.shape(0, in_len, start, len);
    let outcome = run(code, regions, fuel);
    let read = swap_input(regions, nothing(alloc));
    let written = swap_output(regions, nothing(alloc));
    Ran {
        pages: into_pages(written),
        flat: flat_bytes(read),
        outcome,
    }
}
