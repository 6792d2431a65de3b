//! Runs whose outcomes are worked out by hand.

ghost use Rattle.std.specs.Prelude.{◌≡◌, ◌≤◌, ◌^◌, length, IfOk};
ghost use Rattle.sbpf_exec.specs.Buffers.{Fits};

use crate::{Outcome, Region, Regions, TrapKind, run};
use edge_io::Bytes;
use page_base::Page;
use sbpf_insn::decode;
use std::alloc::Global;
use std::test::Fail;

// ldxdw r2, [r1+0]; ldxdw r4, [r1+32]; ldxdw r4, [r4+0]; add r2, r4; ldxdw r5, [r2+0];
// ldxdw r3, [r1+16]; stxdw [r3+0], r5; mov r0, 8; exit
const PEEK: [u8; 72] =
    *b"\x79\x12\0\0\0\0\0\0\x79\x14\x20\0\0\0\0\0\x79\x44\0\0\0\0\0\0\x0f\x42\0\0\0\0\0\0\x79\x25\0\0\0\0\0\0\x79\x13\x10\0\0\0\0\0\x7b\x53\0\0\0\0\0\0\xb7\0\0\0\x08\0\0\0\x95\0\0\0\0\0\0\0";

// ldxdw r2, [r1+32]; ldxdw r2, [r2+0]; ldxdw r0, [r2+0]; exit
const READ: [u8; 32] =
    *b"\x79\x12\x20\0\0\0\0\0\x79\x22\0\0\0\0\0\0\x79\x20\0\0\0\0\0\0\x95\0\0\0\0\0\0\0";

// ldxdw r2, [r1+32]; ldxdw r2, [r2+0]; stxdw [r2+0], r2; exit
const WRITE: [u8; 32] =
    *b"\x79\x12\x20\0\0\0\0\0\x79\x22\0\0\0\0\0\0\x7b\x22\0\0\0\0\0\0\x95\0\0\0\0\0\0\0";

// ja -1
const SPIN: [u8; 8] = *b"\x05\0\xff\xff\0\0\0\0";

// call -1
const DEEPER: [u8; 8] = *b"\x85\x10\0\0\xff\xff\xff\xff";

// mov r6, 5; call +2; add r0, r6; exit; mov r6, 9; mov r0, 3; exit
const FRAMES: [u8; 56] =
    *b"\xb7\x06\0\0\x05\0\0\0\x85\x10\0\0\x02\0\0\0\x0f\x60\0\0\0\0\0\0\x95\0\0\0\0\0\0\0\xb7\x06\0\0\x09\0\0\0\xb7\0\0\0\x03\0\0\0\x95\0\0\0\0\0\0\0";

// ldxdw r2, [r1+32]; ldxdw r0, [r2+0]; exit
const RET: [u8; 24] = *b"\x79\x12\x20\0\0\0\0\0\x79\x20\0\0\0\0\0\0\x95\0\0\0\0\0\0\0";

// ldxdw r2, [r1+0]; ldxdw r3, [r1+8]; ldxdw r4, [r1+16]; add r3, r2;
// jeq r2, r3, +5; ldxb r5, [r2+0]; add r2, 1; jne r5, 10, -4; add r6, 1; ja -6;
// stxdw [r4+0], r6; mov r0, 8; exit
const LINES: [u8; 104] =
    *b"\x79\x12\0\0\0\0\0\0\x79\x13\x08\0\0\0\0\0\x79\x14\x10\0\0\0\0\0\x0f\x23\0\0\0\0\0\0\x1d\x32\x05\0\0\0\0\0\x71\x25\0\0\0\0\0\0\x07\x02\0\0\x01\0\0\0\x55\x05\xfc\xff\x0a\0\0\0\x07\x06\0\0\x01\0\0\0\x05\0\xfa\xff\0\0\0\0\x7b\x64\0\0\0\0\0\0\xb7\0\0\0\x08\0\0\0\x95\0\0\0\0\0\0\0";

// The outcome of a run over this input, an output of 16 zeros and a parameter of one word, and the
// output's bytes after it.
fn run_over(
    alloc: Global,
    bytes: &[u8],
    input: Region,
    start: usize,
    len: usize,
    word: u64,
    fuel: u64,
) -> Result<(Outcome, Vec<u8>), Fail>
    requires fits { Fits input start len }
    requires short { len ≤ 2 ^ 32 }
{
    let code = decode(alloc, bytes)?;
    let param = word.to_le_bytes().to_vec(alloc)?;
    let output = vec![in alloc; 0; 16]?;
    let output = Region::Flat(Bytes::new(output));
    let Ok(regions) = Regions::new(alloc, input, output, Bytes::new(param)) else {
        return Err("memory")?;
    };
    let mut regions = regions;
    regions.shape(start, len, 0, 16);
    let outcome = run(&code, &mut regions, fuel);
    let (_, output, _) = regions.into_parts();
    match output {
        Region::Flat(bytes) => Ok((outcome, bytes.into_vec())),
        Region::Paged { .. } => Err("pages")?,
    }
}

// Pages full of these bytes.
fn pages(alloc: Global, fill: &[u8]) -> Result<Vec<Page>, Fail>
    ensures { IfOk result (λ pages. length pages.items ≡ length fill.now) }
{
    let mut pages = Vec::new(alloc);
    for byte in fill {
        let mut page = Page::zero(alloc)?;
        page.patch(0, &[*byte; 4096]);
        pages.push(page)?;
    }
    Ok(pages)
}

fn access(address: u64, slot: u32, used: u64) -> Outcome {
    Outcome::Trap {
        kind: TrapKind::Access { address, size: 8 },
        slot,
        used,
    }
}

#[test]
fn a_load_across_two_pages_and_one_past_the_end(rt: HostRuntime) -> Result<(), Fail> {
    let alloc = rt.alloc();
    let paged = Region::Paged {
        pages: pages(alloc, &[1, 2])?,
        start: 0,
        len: 0,
    };
    let (outcome, output) = run_over(alloc, &PEEK, paged, 0, 5000, 0x0ffc, 9)?;
    assert_eq!(rt; outcome, Outcome::Done { r0: 8, used: 9 });
    assert_eq!(rt;
        output.as_slice(),
        [1, 1, 1, 1, 2, 2, 2, 2, 0, 0, 0, 0, 0, 0, 0, 0].as_slice()
    );
    let paged = Region::Paged {
        pages: pages(alloc, &[1, 2])?,
        start: 0,
        len: 0,
    };
    let (outcome, output) = run_over(alloc, &PEEK, paged, 0, 5000, 0x1381, 100_000)?;
    assert_eq!(rt; outcome, access(0x2_0000_1381, 4, 5));
    assert_eq!(rt; output.as_slice(), [0; 16].as_slice());
    Ok(())
}

#[test]
fn a_load_in_pages_from_a_start_within_the_first(rt: HostRuntime) -> Result<(), Fail> {
    let alloc = rt.alloc();
    let paged = Region::Paged {
        pages: pages(alloc, &[1, 2])?,
        start: 0,
        len: 0,
    };
    let (outcome, _) = run_over(alloc, &READ, paged, 4090, 10, 0x2_0000_0000, 100)?;
    assert_eq!(rt;
        outcome,
        Outcome::Done {
            r0: 0x0202_0101_0101_0101,
            used: 4
        }
    );
    let paged = Region::Paged {
        pages: pages(alloc, &[1, 2])?,
        start: 0,
        len: 0,
    };
    let (outcome, _) = run_over(alloc, &READ, paged, 4090, 10, 0x2_0000_0003, 100)?;
    assert_eq!(rt; outcome, access(0x2_0000_0003, 2, 3));
    Ok(())
}

#[test]
fn loads_at_both_edges_of_each_region(rt: HostRuntime) -> Result<(), Fail> {
    let alloc = rt.alloc();
    for (first, last) in [
        (0x1_0000_0000, 0x1_0000_0028),
        (0x2_0000_0000, 0x2_0000_0008),
        (0x3_0000_0000, 0x3_0000_0008),
        (0x4_0000_0000, 0x4_0000_0000),
        (0x5_0000_0000, 0x5_0000_01f8),
    ] {
        for (address, fits) in [
            (first - 1, false),
            (first, true),
            (last, true),
            (last + 1, false),
        ] {
            let input = Region::Flat(Bytes::new(vec![in alloc; 0; 16]?));
            let (outcome, _) = run_over(alloc, &READ, input, 0, 16, address, 100_000)?;
            let trapped = outcome == access(address, 2, 3);
            assert_eq!(rt; trapped, !fits, "at {address:x}");
        }
    }
    Ok(())
}

#[test]
fn stores_only_to_the_output_and_the_stack(rt: HostRuntime) -> Result<(), Fail> {
    let alloc = rt.alloc();
    for (address, fits) in [
        (0x1_0000_0000, false),
        (0x2_0000_0000, false),
        (0x3_0000_0008, true),
        (0x3_0000_0009, false),
        (0x4_0000_0000, false),
        (0x5_0000_01f8, true),
        (0x5_0000_01f9, false),
        (0xffff_ffff_ffff_fffc, false),
    ] {
        let input = Region::Flat(Bytes::new(vec![in alloc; 0; 16]?));
        let (outcome, _) = run_over(alloc, &WRITE, input, 0, 16, address, 100_000)?;
        let trapped = outcome == access(address, 2, 3);
        assert_eq!(rt; trapped, !fits, "at {address:x}");
    }
    Ok(())
}

#[test]
fn the_word_of_the_parameter_is_returned(rt: HostRuntime) -> Result<(), Fail> {
    let alloc = rt.alloc();
    for word in [4, 5] {
        let input = Region::Flat(Bytes::new(Vec::new(alloc)));
        let (outcome, output) = run_over(alloc, &RET, input, 0, 0, word, 10)?;
        assert_eq!(rt; outcome, Outcome::Done { r0: word, used: 3 });
        assert_eq!(rt; output.as_slice(), [0; 16].as_slice());
    }
    Ok(())
}

// 96 line feeds use 6 units each, 104 other bytes 4, the beginning 4 and the end 4.
#[test]
fn lines_are_counted_with_much_and_with_little_fuel(rt: HostRuntime) -> Result<(), Fail> {
    let alloc = rt.alloc();
    for fuel in [1000, 4600, 200_000, 999] {
        let paged = Region::Paged {
            pages: pages(alloc, &[10, 97])?,
            start: 0,
            len: 0,
        };
        let (outcome, output) = run_over(alloc, &LINES, paged, 4000, 200, 0, fuel)?;
        if fuel == 999 {
            assert_eq!(rt; outcome, Outcome::Spent);
        } else {
            assert_eq!(rt; outcome, Outcome::Done { r0: 8, used: 1000 });
        }
        assert_eq!(rt; output.first().copied(), Some(96));
    }
    Ok(())
}

#[test]
fn fuel_is_spent_before_the_next_instruction(rt: HostRuntime) -> Result<(), Fail> {
    let alloc = rt.alloc();
    for (code, fuel, outcome) in [
        (SPIN.as_slice(), 0, Outcome::Spent),
        (SPIN.as_slice(), 1000, Outcome::Spent),
        (SPIN.as_slice(), 10_000, Outcome::Spent),
        (READ.as_slice(), 3, Outcome::Spent),
        (
            READ.as_slice(),
            4,
            Outcome::Done {
                r0: 0x4_0000_0000,
                used: 4,
            },
        ),
    ] {
        let input = Region::Flat(Bytes::new(Vec::new(alloc)));
        let (ended, _) = run_over(alloc, code, input, 0, 0, 0x4_0000_0000, fuel)?;
        assert_eq!(rt; ended, outcome);
    }
    Ok(())
}

#[test]
fn frames_are_given_back_and_a_ninth_is_refused(rt: HostRuntime) -> Result<(), Fail> {
    let alloc = rt.alloc();
    let input = Region::Flat(Bytes::new(Vec::new(alloc)));
    let (outcome, _) = run_over(alloc, &FRAMES, input, 0, 0, 0, 100)?;
    assert_eq!(rt; outcome, Outcome::Done { r0: 8, used: 7 });
    let input = Region::Flat(Bytes::new(Vec::new(alloc)));
    let (outcome, _) = run_over(alloc, &DEEPER, input, 0, 0, 0, 100)?;
    let depth = Outcome::Trap {
        kind: TrapKind::Depth,
        slot: 0,
        used: 8,
    };
    assert_eq!(rt; outcome, depth);
    Ok(())
}
