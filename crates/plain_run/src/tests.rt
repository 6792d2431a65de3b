//! Worked calls, whose replies were taken from the table of calls by hand.

ghost use Rattle.std.specs.Prelude.{◌≡◌, length, IfOk};

use crate::Plain;
use edge_io::Bytes;
use name_table::Name;
use plain_files::{Call, Word};
use std::alloc::{AllocError, Global};
use std::process::Abort;
use std::test::Fail;

// ldxdw r2, [r1+32]; ldxdw r0, [r2+0]; exit: gives the first word of its parameter.
const RET: &[u8] = b"\x79\x12\x20\0\0\0\0\0\x79\x20\0\0\0\0\0\0\x95\0\0\0\0\0\0\0";

// ldxdw r2, [r1+0]; ldxdw r3, [r1+16]; ldxb r4, [r2+0]; stxb [r3+1], r4; mov r0, 7; exit
const PUT: &[u8] =
    b"\x79\x12\0\0\0\0\0\0\x79\x13\x10\0\0\0\0\0\x71\x24\0\0\0\0\0\0\x73\x43\x01\0\0\0\0\0\xb7\0\0\0\x07\0\0\0\x95\0\0\0\0\0\0\0";

// ja -1
const SPIN: &[u8] = b"\x05\0\xff\xff\0\0\0\0";

// call -1; exit
const DEEPER: &[u8] = b"\x85\x10\0\0\xff\xff\xff\xff\x95\0\0\0\0\0\0\0";

// mov r0, 0, with no end
const FALLS_OFF: &[u8] = b"\xb7\0\0\0\0\0\0\0";

// A jump into the second slot of a wide load.
const MIDDLE: &[u8] = b"\x05\0\x01\0\0\0\0\0\x18\0\0\0\0\0\0\0\0\0\0\0\0\0\0\0\x95\0\0\0\0\0\0\0";

// mov r10, 0; exit
const WRITER: &[u8] = b"\xb7\x0a\0\0\0\0\0\0\x95\0\0\0\0\0\0\0";

// A call by borrowed words.
#[derive(Clone, Copy)]
enum Line {
    Create(&'static str),
    Open(&'static str),
    Stat(&'static str),
    Remove(&'static str),
    Read(&'static str, u64, u64),
    Write(&'static str, u64, &'static [u8]),
    Append(&'static str, &'static [u8]),
    Trunc(&'static str, u64),
    Seal(&'static str),
    Load(&'static str, &'static [u8]),
    Unload(&'static str),
    // A function on no bytes of `f` with fuel of 10, a capacity of 4, and one word as its parameter.
    Readl(&'static str, u64),
    // A function on so many bytes of a file from an offset on, with fuel of 100 and the input `Z`.
    Writel(&'static str, u64, u64, &'static str),
    Sync,
}

fn word(text: &str) -> Result<Word, Fail> {
    Ok(Word::of(text.as_bytes()).ok_or("no word")?)
}

fn bytes(alloc: Global, bytes: &[u8]) -> Result<Bytes, AllocError>
    ensures { IfOk result (λ copy. length copy ≡ length bytes.now) }
{
    Ok(Bytes::new(bytes.to_vec(alloc)?))
}

fn data_call(alloc: Global, line: Line) -> Result<Call, Fail> {
    Ok(match line {
        Line::Write(name, off, put) => Call::Write(word(name)?, off, bytes(alloc, put)?),
        Line::Append(name, put) => Call::Append(word(name)?, bytes(alloc, put)?),
        Line::Load(name, code) => Call::Load(word(name)?, bytes(alloc, code)?),
        Line::Readl(function, param) => Call::Readl {
            file: word("f")?,
            off: 0,
            len: 0,
            function: word(function)?,
            fuel: 10,
            cap: 4,
            param: bytes(alloc, &param.to_le_bytes())?,
        },
        Line::Writel(name, off, len, function) => Call::Writel {
            file: word(name)?,
            off,
            len,
            function: word(function)?,
            fuel: 100,
            param: bytes(alloc, b"")?,
            input: bytes(alloc, b"Z")?,
        },
        _ => Call::Sync,
    })
}

fn call_of(alloc: Global, line: Line) -> Result<Call, Fail> {
    Ok(match line {
        Line::Create(name) => Call::Create(word(name)?),
        Line::Open(name) => Call::OpenFile(word(name)?),
        Line::Stat(name) => Call::Stat(word(name)?),
        Line::Remove(name) => Call::Remove(word(name)?),
        Line::Read(name, off, len) => Call::Read(word(name)?, off, len),
        Line::Trunc(name, len) => Call::Trunc(word(name)?, len),
        Line::Seal(name) => Call::Seal(word(name)?),
        Line::Unload(name) => Call::Unload(word(name)?),
        other => data_call(alloc, other)?,
    })
}

// Makes the calls, whose replies are wanted so, on a new machine over so many blocks.
fn expect<R: Abort + AllocGlobal>(rt: &R, blocks: u32, lines: &[(Line, &str)]) -> Result<(), Fail> {
    let mut plain = Plain::new(rt.alloc(), blocks)?;
    for (line, wanted) in lines {
        let reply = plain.answer(&call_of(rt.alloc(), *line)?)?;
        let text = format!(in rt.alloc(); "{reply:?}")?;
        assert_eq!(rt; text.as_str(), *wanted);
    }
    Ok(())
}

#[test]
fn files_are_written_and_read(rt: HostRuntime) -> Result<(), Fail> {
    let lines = [
        (Line::Create("f"), "Id(1)"),
        (Line::Write("f", 100, b""), "Done"),
        (Line::Stat("f"), "Len(0)"),
        (Line::Write("f", 4094, b"hello"), "Done"),
        (Line::Stat("f"), "Len(4099)"),
        (
            Line::Read("f", 4090, 20),
            "DataBytes(Bytes { bytes: [0, 0, 0, 0, 104, 101, 108, 108, 111] })",
        ),
        (Line::Read("f", 4099, 10), "DataBytes(Bytes { bytes: [] })"),
        (
            Line::Read("f", u64::MAX, 1),
            "DataBytes(Bytes { bytes: [] })",
        ),
        (Line::Read("f", 0, 262_145), "TooLong"),
        (Line::Write("f", 268_435_455, b"x"), "NoSpace"),
        (Line::Write("f", 268_435_456, b"x"), "TooBig"),
        (Line::Write("f", 268_435_456, b""), "Done"),
        (Line::Write("f", 268_435_457, b""), "TooBig"),
        (Line::Stat("f"), "Len(4099)"),
    ];
    expect(&rt, 1024, &lines)
}

#[test]
fn files_are_cut_and_lengthened(rt: HostRuntime) -> Result<(), Fail> {
    let lines = [
        (Line::Create("f"), "Id(1)"),
        (Line::Write("f", 0, &[0xff; 5000]), "Done"),
        (Line::Trunc("f", 1), "Done"),
        (Line::Write("f", 5000, b"\xaa"), "Done"),
        (
            Line::Read("f", 0, 3),
            "DataBytes(Bytes { bytes: [255, 0, 0] })",
        ),
        (
            Line::Read("f", 4998, 5),
            "DataBytes(Bytes { bytes: [0, 0, 170] })",
        ),
        (Line::Trunc("f", 8192), "Done"),
        (Line::Trunc("f", 8193), "NoSpace"),
        (Line::Sync, "Done"),
    ];
    expect(&rt, 2, &lines)
}

#[test]
fn sealed_files_are_only_appended_to(rt: HostRuntime) -> Result<(), Fail> {
    let lines = [
        (Line::Create("f"), "Id(1)"),
        (Line::Append("f", b"ab"), "At(0)"),
        (Line::Append("f", b""), "At(2)"),
        (Line::Append("f", b"c"), "At(2)"),
        (Line::Seal("f"), "Done"),
        (Line::Write("f", 0, b"x"), "AppendOnly"),
        (Line::Append("f", b"d"), "At(3)"),
        (Line::Trunc("f", 0), "AppendOnly"),
        (Line::Append("f", &[0; 4093]), "NoSpace"),
        (
            Line::Read("f", 0, 9),
            "DataBytes(Bytes { bytes: [97, 98, 99, 100] })",
        ),
    ];
    expect(&rt, 1, &lines)
}

#[test]
fn ids_are_used_once(rt: HostRuntime) -> Result<(), Fail> {
    let lines = [
        (Line::Create("f"), "Id(1)"),
        (Line::Create("f"), "Exists"),
        (Line::Create("a/b"), "BadName"),
        (Line::Remove("f"), "Done"),
        (Line::Remove("f"), "NoFile"),
        (Line::Create("f"), "Id(2)"),
        (Line::Open("f"), "Id(2)"),
        (Line::Open("a/b"), "NoFile"),
    ];
    expect(&rt, 1, &lines)
}

#[test]
fn code_is_judged(rt: HostRuntime) -> Result<(), Fail> {
    let lines = [
        (
            Line::Load("x", MIDDLE),
            "BadCode { kind: Verify(Middle), slot: 0 }",
        ),
        (
            Line::Load("x", FALLS_OFF),
            "BadCode { kind: Verify(FallsOff), slot: 0 }",
        ),
        (
            Line::Load("x", WRITER),
            "BadCode { kind: Verify(Writer10), slot: 0 }",
        ),
        (
            Line::Load("x", b""),
            "BadCode { kind: Verify(Empty), slot: 0 }",
        ),
        (
            Line::Load("x", b"\x95"),
            "BadCode { kind: Insn(Truncated), slot: 0 }",
        ),
        (Line::Unload("x"), "NoFn"),
    ];
    expect(&rt, 1, &lines)
}

#[test]
fn functions_are_run(rt: HostRuntime) -> Result<(), Fail> {
    let lines = [
        (Line::Create("f"), "Id(1)"),
        (Line::Write("f", 0, b"abc"), "Done"),
        (Line::Load("ret", RET), "Done"),
        (Line::Load("put", PUT), "Done"),
        (Line::Load("spin", SPIN), "Done"),
        (Line::Load("deeper", DEEPER), "Done"),
        (Line::Readl("ret", 4), "Res(Bytes { bytes: [0, 0, 0, 0] })"),
        (Line::Readl("ret", 5), "TrapOutLen { r0: 5 }"),
        (Line::Readl("deeper", 0), "TrapDepth { slot: 0 }"),
        (Line::Writel("f", 0, 3, "spin"), "Spent"),
        (
            Line::Writel("f", 0, 1, "put"),
            "TrapAccess { address: 12884901889, size: 1, slot: 3 }",
        ),
        (
            Line::Read("f", 0, 9),
            "DataBytes(Bytes { bytes: [97, 98, 99] })",
        ),
        (Line::Writel("f", 0, 3, "put"), "Val(7)"),
        (Line::Writel("f", 3, 2, "put"), "Val(7)"),
        (
            Line::Read("f", 0, 9),
            "DataBytes(Bytes { bytes: [97, 90, 99, 0, 90] })",
        ),
        (Line::Writel("f", 4095, 2, "put"), "NoSpace"),
        (Line::Stat("f"), "Len(5)"),
    ];
    expect(&rt, 1, &lines)
}

// Each call has two causes at once, of which the earlier one answers.
#[test]
fn refusals_have_an_order(rt: HostRuntime) -> Result<(), Fail> {
    let lines = [
        (Line::Create("f"), "Id(1)"),
        (Line::Create("s"), "Id(2)"),
        (Line::Seal("s"), "Done"),
        (Line::Load("spin", SPIN), "Done"),
        (Line::Read("g", 0, 262_145), "TooLong"),
        (Line::Writel("g", 0, 0, "none"), "NoFile"),
        (Line::Writel("s", 0, 0, "none"), "NoFn"),
        (Line::Writel("s", 268_435_457, 0, "spin"), "AppendOnly"),
        (Line::Write("s", 268_435_457, b"x"), "AppendOnly"),
        (Line::Writel("f", 268_435_457, 0, "spin"), "TooBig"),
        (Line::Writel("f", 8192, 1, "spin"), "Spent"),
        (Line::Load("a/b", FALLS_OFF), "BadName"),
        (
            Line::Load("spin", FALLS_OFF),
            "BadCode { kind: Verify(FallsOff), slot: 0 }",
        ),
    ];
    expect(&rt, 1, &lines)
}

// Loads so many functions.
fn load_many(alloc: Global, plain: &mut Plain, count: u8) -> Result<(), Fail> {
    for i in 0..count {
        let name = format!(in alloc; "f{i}")?;
        let call = Call::Load(word(name.as_str())?, bytes(alloc, SPIN)?);
        let _ = plain.answer(&call)?;
    }
    Ok(())
}

#[test]
fn functions_are_64_at_most(rt: HostRuntime) -> Result<(), Fail> {
    let mut plain = Plain::new(rt.alloc(), 1)?;
    load_many(rt.alloc(), &mut plain, 64)?;
    let lines = [
        (Line::Load("g", SPIN), "FnFull"),
        (Line::Load("f63", SPIN), "Exists"),
        (Line::Unload("f0"), "Done"),
        (Line::Unload("f0"), "NoFn"),
        (Line::Load("g", SPIN), "Done"),
    ];
    for (line, wanted) in lines {
        let reply = plain.answer(&call_of(rt.alloc(), line)?)?;
        let text = format!(in rt.alloc(); "{reply:?}")?;
        assert_eq!(rt; text.as_str(), wanted);
    }
    Ok(())
}

#[test]
fn files_are_added(rt: HostRuntime) -> Result<(), Fail> {
    let mut plain = Plain::new(rt.alloc(), 1)?;
    plain.set_next(5);
    let name = Name::of(b"old").expect(&rt, "a name");
    plain.add_file(7, name, bytes(rt.alloc(), b"ab")?, true)?;
    assert_eq!(rt; plain.next_id(), 8);
    let file = plain.file_at(0).ok_or("no file")?;
    assert_eq!(rt; file.id, 7);
    assert!(rt; file.sealed);
    assert_eq!(rt; file.bytes.as_slice(), b"ab".as_slice());
    assert!(rt; file.name == name);
    assert!(rt; plain.file_at(1).is_none());
    let reply = plain.answer(&call_of(rt.alloc(), Line::Create("new"))?)?;
    let text = format!(in rt.alloc(); "{reply:?}")?;
    assert_eq!(rt; text.as_str(), "Id(8)");
    Ok(())
}
