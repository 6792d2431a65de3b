//! Scans whose replies are worked out by hand.

ghost use Rattle.std.specs.Prelude.{◌≡◌, ◌≤◌, ◌^◌, length, IfOk};

use crate::{is_within_limits, piece_count, scan};
use edge_io::Bytes;
use sbpf_load::load_code;
use std::alloc::{AllocError, Global};
use std::process::Abort;
use std::test::Fail;
use std::thread::Threads;

// ldxdw r2, [r1+0]; ldxdw r3, [r1+8]; ldxdw r4, [r1+16]; add r3, r2;
// jeq r2, r3, +5; ldxb r5, [r2+0]; add r2, 1; jne r5, 10, -4; add r6, 1; ja -6;
// stxdw [r4+0], r6; mov r0, 8; exit
const LINES: &[u8] =
    b"\x79\x12\0\0\0\0\0\0\x79\x13\x08\0\0\0\0\0\x79\x14\x10\0\0\0\0\0\x0f\x23\0\0\0\0\0\0\x1d\x32\x05\0\0\0\0\0\x71\x25\0\0\0\0\0\0\x07\x02\0\0\x01\0\0\0\x55\x05\xfc\xff\x0a\0\0\0\x07\x06\0\0\x01\0\0\0\x05\0\xfa\xff\0\0\0\0\x7b\x64\0\0\0\0\0\0\xb7\0\0\0\x08\0\0\0\x95\0\0\0\0\0\0\0";

// ldxdw r2, [r1+0]; ldxb r0, [r2+1]; jeq r0, 0, -1; exit: gives the second byte of its input, and spins where that is 0.
const SECOND: &[u8] =
    b"\x79\x12\0\0\0\0\0\0\x71\x20\x01\0\0\0\0\0\x15\0\xff\xff\0\0\0\0\x95\0\0\0\0\0\0\0";

// call -1; exit
const DEEPER: &[u8] = b"\x85\x10\0\0\xff\xff\xff\xff\x95\0\0\0\0\0\0\0";

// ldxdw r2, [r1+32]; ldxdw r0, [r2+0]; exit: gives the first word of its parameter.
const RET: &[u8] = b"\x79\x12\x20\0\0\0\0\0\x79\x20\0\0\0\0\0\0\x95\0\0\0\0\0\0\0";

fn bytes(alloc: Global, bytes: &[u8]) -> Result<Bytes, AllocError>
    ensures { IfOk result (λ copy. copy ≡ bytes.now) }
{
    Ok(Bytes::new(bytes.to_vec(alloc)?))
}

// Scans pieces of so many bytes with a word of 3 as the parameter, where these replies are wanted.
fn expect<R: Threads + Abort + AllocGlobal + Sync>(
    rt: &R,
    code: &[u8],
    input: &[u8],
    chunk: u32,
    fuel: u64,
    wanted: &str,
) -> Result<(), Fail>
    requires chunk { (1 ≤ chunk) × (chunk ≤ 262144) }
    requires input { length input.now ≤ 100 }
    requires fuel { fuel ≤ 2 ^ 32 }
{
    let alloc = rt.alloc();
    let code = load_code(alloc, code)?;
    let count = piece_count(chunk, input.len() as u64);
    assert!(rt; is_within_limits(chunk, input.len() as u64, 8));
    let input = bytes(alloc, input)?;
    let param = bytes(alloc, &[3, 0, 0, 0, 0, 0, 0, 0])?;
    let replies = scan(rt, alloc, &code, &input, chunk, fuel, 8, &param)?;
    assert!(rt; replies.len() as u64 == count);
    let text = format!(in alloc; "{replies:?}")?;
    assert_eq!(rt; text.as_str(), wanted);
    Ok(())
}

#[test]
fn each_piece_has_its_lines_counted(rt: HostRuntime) -> Result<(), Fail> {
    expect(
        &rt,
        LINES,
        b"\n\n\na\nab c",
        4,
        100,
        "[Res(Bytes { bytes: [3, 0, 0, 0, 0, 0, 0, 0] }), Res(Bytes { bytes: [1, 0, 0, 0, 0, 0, 0, 0] }), Res(Bytes { bytes: [0, 0, 0, 0, 0, 0, 0, 0] })]",
    )
}

#[test]
fn traps_and_spent_fuel_belong_to_one_piece(rt: HostRuntime) -> Result<(), Fail> {
    expect(
        &rt,
        SECOND,
        b"..\0\0.\x09.\x01.",
        2,
        100,
        "[OutLen { r0: 46 }, Spent, OutLen { r0: 9 }, Res(Bytes { bytes: [0] }), Access { address: 8589934593, size: 1, slot: 1 }]",
    )?;
    expect(
        &rt,
        DEEPER,
        b"abc",
        2,
        100,
        "[Depth { slot: 0 }, Depth { slot: 0 }]",
    )
}

#[test]
fn the_parameter_and_the_last_unit_of_fuel_count(rt: HostRuntime) -> Result<(), Fail> {
    expect(
        &rt,
        RET,
        b"a",
        262_144,
        3,
        "[Res(Bytes { bytes: [0, 0, 0] })]",
    )?;
    expect(&rt, RET, b"a", 262_144, 2, "[Spent]")
}

#[test]
fn no_bytes_have_no_piece(rt: HostRuntime) -> Result<(), Fail> {
    expect(&rt, RET, b"", 1, 0, "[]")
}
