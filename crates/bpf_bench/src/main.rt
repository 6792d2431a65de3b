//! Runs a function over an input in pages many times, and prints how many units of fuel it used.
//!
//! `bpf_bench lines N` counts the lines of a piece of 256 KiB N times; `bpf_bench spin N` loops over
//! arithmetic N times; `bpf_bench code N OBJECT INPUT` runs the function of an object N times over the
//! first 256 KiB of the file INPUT. A script measures the time.
#![tactic(auto)]

ghost use Rattle.std.specs.Prelude.{◌≡◌, ◌≤◌, length, IfOk, IfSome};
ghost use Rattle.sbpf_exec.specs.Parts.{IsShaped};

use edge_io::{Bytes, HostRoom, Room};
use page_base::Page;
use sbpf_exec::{Outcome, Region, Regions, run};
use sbpf_insn::{Code, decode};
use std::alloc::{AllocError, Global};
use std::rt::Files;
use std::{env, io};

// ldxdw r2, [r1+0]; ldxdw r3, [r1+8]; ldxdw r4, [r1+16]; add r3, r2;
// jeq r2, r3, +5; ldxb r5, [r2+0]; add r2, 1; jne r5, 10, -4; add r6, 1; ja -6;
// stxdw [r4+0], r6; mov r0, 8; exit
const LINES: [u8; 104] =
    *b"\x79\x12\0\0\0\0\0\0\x79\x13\x08\0\0\0\0\0\x79\x14\x10\0\0\0\0\0\x0f\x23\0\0\0\0\0\0\x1d\x32\x05\0\0\0\0\0\x71\x25\0\0\0\0\0\0\x07\x02\0\0\x01\0\0\0\x55\x05\xfc\xff\x0a\0\0\0\x07\x06\0\0\x01\0\0\0\x05\0\xfa\xff\0\0\0\0\x7b\x64\0\0\0\0\0\0\xb7\0\0\0\x08\0\0\0\x95\0\0\0\0\0\0\0";

// mov r2, 0; lddw r3, 0x9e3779b97f4a7c15;
// add r4, r3; xor r4, r2; rsh r4, 3; mul r4, 5; add r2, 1; jlt r2, 16000, -6; mov r0, 0; exit
const SPIN: [u8; 88] =
    *b"\xb7\x02\0\0\0\0\0\0\x18\x03\0\0\x15\x7c\x4a\x7f\0\0\0\0\xb9\x79\x37\x9e\x0f\x34\0\0\0\0\0\0\xaf\x24\0\0\0\0\0\0\x77\x04\0\0\x03\0\0\0\x27\x04\0\0\x05\0\0\0\x07\x02\0\0\x01\0\0\0\xa5\x02\xfa\xff\x80\x3e\0\0\xb7\0\0\0\0\0\0\0\x95\0\0\0\0\0\0\0";

const PAGES: usize = 64;

const MOST: usize = 262_144;

const FUEL: u64 = 200_000_000;

const USAGE: &str = "usage: bpf_bench lines|spin TIMES, or bpf_bench code TIMES OBJECT INPUT";

// Pages with the first bytes, and zeros behind them.
fn pages(alloc: Global, bytes: &[u8]) -> Result<Vec<Page>, AllocError>
    ensures { IfOk result (λ pages. length pages.items ≡ 64) }
{
    let mut pages = Vec::with_capacity(alloc, PAGES)?;
    for i in 0..PAGES {
        let mut page = Page::zero(alloc)?;
        let from = bytes.len().min(4096 * i);
        let to = bytes.len().min(4096 * i + 4096);
        page.patch(0, &bytes[from..to]);
        pages.push(page)?;
    }
    Ok(pages)
}

// How many bytes of an input are run over.
fn run_over(input: &[u8]) -> usize
    ensures { result ≤ 262144 }
{
    if input.len() > MOST {
        MOST
    } else {
        input.len()
    }
}

// Regions for runs over the first bytes of these pages.
fn shaped(alloc: Global, pages: Vec<Page>, len: usize) -> Option<Regions>
    requires pages { length pages.items ≡ 64 }
    requires len { len ≤ 262144 }
    ensures { IfSome result IsShaped }
{
    let input = Region::Paged {
        pages,
        start: 0,
        len: 0,
    };
    let output = vec![in alloc; 0; 64].ok()?;
    let output = Region::Flat(Bytes::new(output));
    let param = vec![in alloc; 10; 8].ok()?;
    let Ok(regions) = Regions::new(alloc, input, output, Bytes::new(param)) else {
        return None;
    };
    let mut regions = regions;
    regions.shape(0, len, 0, 64);
    Some(regions)
}

// The units that so many runs over the first 256 KiB of the input use; None where the bytes are no code,
// or memory runs out.
fn measure(alloc: Global, bytes: &[u8], input: &[u8], times: u64) -> Option<u64> {
    let code = decode(alloc, bytes).ok()?;
    let pages = pages(alloc, input).ok()?;
    let mut regions = shaped(alloc, pages, run_over(input))?;
    Some(runs(&code, &mut regions, times))
}

// The units that so many runs use, over regions as the one before left them.
fn runs(code: &Code, regions: &mut Regions, times: u64) -> u64
    requires { IsShaped regions.old }
{
    let mut units: u64 = 0;
    for _ in 0..times {
        if let Outcome::Done { used, .. } = run(code, regions, FUEL) {
            units = units.saturating_add(used);
        }
    }
    units
}

// The same, of an object, whose code is behind a head of 8 bytes, and of an input in two files; None also
// where one can't be read.
fn measure_files<R: Files>(
    rt: &R,
    alloc: Global,
    object: &str,
    input: &str,
    times: u64,
) -> Option<u64> {
    let mut room = HostRoom::new(rt);
    let mut bytes = Vec::new(alloc);
    room.read(object, &mut bytes).ok()?;
    if bytes.len() < 8 {
        return None;
    }
    let mut content = Vec::new(alloc);
    room.read(input, &mut content).ok()?;
    measure(alloc, &bytes[8..], &content, times)
}

fn measure_own(alloc: Global, bytes: &[u8], times: u64) -> Option<u64> {
    let input = vec![in alloc; 10; MOST].ok()?;
    measure(alloc, bytes, &input, times)
}

fn main(rt: HostRuntime) -> io::Result<()> {
    let mut words = env::args(&rt)?;
    let _program = words.next();
    let (Some(name), Some(times)) = (words.next(), words.next()) else {
        return println!(rt; "{USAGE}");
    };
    let Ok(times) = times.parse() else {
        return println!(rt; "{USAGE}");
    };
    let units = match (name.as_str(), words.next(), words.next()) {
        ("lines", None, None) => measure_own(rt.alloc(), LINES.as_slice(), times),
        ("spin", None, None) => measure_own(rt.alloc(), SPIN.as_slice(), times),
        ("code", Some(object), Some(input)) => measure_files(
            &rt,
            rt.alloc(),
            &object,
            &input,
            times,
        ),
        _ => return println!(rt; "{USAGE}"),
    };
    match units {
        Some(units) => println!(rt; "units={units}"),
        None => println!(rt; "not measured"),
    }
}
