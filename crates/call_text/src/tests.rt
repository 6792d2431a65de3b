//! Scripts as a user sees them.
use crate::{ScriptErr, ScriptKind, read_script};
use plain_files::Call;
use sbpf_text::{AsmFault, AsmKind};
use script_words::FaultLine;
use std::alloc::{AllocError, Global};
use std::test::Fail;

#[test]
fn a_script_of_one_lane_is_read(rt: HostRuntime) -> Result<(), Fail> {
    let text = b"; two calls\n\na1: create f\n\ta1:  write f 4094 hex:68EF";
    let script = read_script(rt.alloc(), text)?;
    let [lane] = script.lanes.as_slice() else {
        panic!(rt; "there is one lane")
    };
    assert!(rt; lane.name.as_str() == "a1");
    let [first, second] = lane.requests.as_slice() else {
        panic!(rt; "there are two calls")
    };
    match &first.call {
        Call::Create(name) => assert!(rt; name.as_slice() == b"f".as_slice()),
        _ => panic!(rt; "the first call creates"),
    }
    match &second.call {
        Call::Write(name, off, bytes) => {
            assert!(rt; name.as_slice() == b"f".as_slice());
            assert_eq!(rt; *off, 4094);
            assert!(rt; bytes.as_slice() == [0x68, 0xef].as_slice());
        }
        _ => panic!(rt; "the second call writes"),
    }
    assert!(rt; script.order.as_slice() == [(0, 1), (0, 2)].as_slice());
    Ok(())
}

// The kind and the line of the first fault of a text.
fn fault_of(alloc: Global, text: &[u8]) -> Option<(ScriptKind, u32)> {
    match read_script(alloc, text) {
        Err(ScriptErr::Script(fault)) => Some((fault.kind, fault.line)),
        _ => None,
    }
}

#[test]
fn the_first_wrong_line_is_named(rt: HostRuntime) {
    let cases = [
        ("a: jump f", ScriptKind::Line, 1),
        ("\n; x\na: stat", ScriptKind::Line, 3),
        ("a: stat f\nb: stat f\na: jump f", ScriptKind::Line, 3),
        ("a: read f 00 1", ScriptKind::Number, 1),
        ("a: read f 0 18446744073709551616", ScriptKind::Number, 1),
        ("a: write f 0 hex:012", ScriptKind::Bytes, 1),
        ("a: write f 0 0012", ScriptKind::Bytes, 1),
        ("abcdefghijklmnopq: stat f", ScriptKind::Lane, 1),
        ("A: stat f", ScriptKind::Lane, 1),
        ("A: stat", ScriptKind::Line, 1),
        (": stat f", ScriptKind::Lane, 1),
        ("a:stat f", ScriptKind::Line, 1),
        ("a : stat f", ScriptKind::Line, 1),
        ("a: stat f\r\n", ScriptKind::Char, 1),
        ("a: stat f ; why", ScriptKind::Line, 1),
        ("a: stat f\0", ScriptKind::Char, 1),
        ("; \u{80}", ScriptKind::Char, 1),
        ("end", ScriptKind::Line, 1),
        ("func x", ScriptKind::Line, 1),
        ("func x\nend ; x", ScriptKind::Line, 1),
        ("func x\nend\nfunc x\nend", ScriptKind::Name, 3),
        ("func /\nend", ScriptKind::Name, 1),
        ("a: load f func nope", ScriptKind::Func, 1),
        ("a: load f code hex:95", ScriptKind::Bytes, 1),
        ("a: load f data 95", ScriptKind::Line, 1),
        ("a: stat f\nfault die 0 read 1", ScriptKind::Order, 2),
        ("fault die 16 read 1", ScriptKind::Number, 1),
        ("fault die 0 read 0", ScriptKind::Number, 1),
        ("fault disk 0 read 1", ScriptKind::Line, 1),
    ];
    for (text, kind, line) in cases {
        let found = fault_of(rt.alloc(), text.as_bytes());
        assert_eq!(rt; found, Some((kind, line)), "{text}");
    }
}

#[test]
fn broken_awaits_are_named(rt: HostRuntime) {
    let cases = [
        ("a: await b.1", ScriptKind::Await, 1),
        ("a: stat f\nb: await a.2\nb: stat f", ScriptKind::Await, 2),
        ("a: stat f\nb: await a.0\nb: stat f", ScriptKind::Await, 2),
        ("a: stat f\nb: await a.01\nb: stat f", ScriptKind::Await, 2),
        ("a: stat f\nb: await a1\nb: stat f", ScriptKind::Await, 2),
        (
            "a: stat f\nb: await a.1 a.1\nb: stat f",
            ScriptKind::Line,
            2,
        ),
        (
            "a: stat f\nb: await a.1\nb: await a.1\nb: stat f",
            ScriptKind::Await,
            3,
        ),
        ("a: stat f\nb: await a.1\na: stat f", ScriptKind::Await, 2),
        (
            "a: stat f\nb: await a.1\nfunc x\nb: stat f\nend",
            ScriptKind::Await,
            2,
        ),
        ("a: stat f\nb: await a.1\nb: stat", ScriptKind::Line, 3),
        ("a: stat f\nB: await a.1", ScriptKind::Lane, 2),
    ];
    for (text, kind, line) in cases {
        let found = fault_of(rt.alloc(), text.as_bytes());
        assert_eq!(rt; found, Some((kind, line)), "{text}");
    }
}

#[test]
fn awaits_blocks_and_faults_are_read(rt: HostRuntime) -> Result<(), Fail> {
    let text =
        b"fault copy 3 write 9\nfunc x\n mov r0, 8 ; eight\nexit\nend\na: load g func x\na: await a.1\na: sync\n";
    let script = read_script(rt.alloc(), text)?;
    let fault = FaultLine {
        line: 1,
        die: 3,
        writing: true,
        nth: 9,
        copy: true,
    };
    assert!(rt; script.faults.as_slice() == [fault].as_slice());
    let [lane] = script.lanes.as_slice() else {
        panic!(rt; "there is one lane")
    };
    let [first, second] = lane.requests.as_slice() else {
        panic!(rt; "there are two calls")
    };
    match &first.call {
        Call::Load(_, code) => {
            let bytes = [183, 0, 0, 0, 8, 0, 0, 0, 149, 0, 0, 0, 0, 0, 0, 0];
            assert!(rt; code.as_slice() == bytes.as_slice());
        }
        _ => panic!(rt; "the first call loads"),
    }
    assert_eq!(rt; second.awaits, Some((0, 1)));
    Ok(())
}

#[test]
fn the_fault_of_a_block_has_its_line(rt: HostRuntime) {
    let fault = AsmFault {
        line: 3,
        kind: AsmKind::Operand,
    };
    let found = read_script(rt.alloc(), b"func x\nexit\nmov r0\nend").err();
    assert_eq!(rt; found, Some(ScriptErr::Asm(fault)));
    let char = fault_of(rt.alloc(), b"func x\nmov r0\n\x80\nend");
    assert_eq!(rt; char, Some((ScriptKind::Char, 3)));
}

// Lines that are all one text.
fn lines_of(alloc: Global, line: &[u8], count: u32) -> Result<Vec<u8>, AllocError> {
    let mut text = Vec::new(alloc);
    for _ in 0..count {
        text.extend_from_slice(line)?;
    }
    Ok(text)
}

#[test]
fn at_most_10000_calls_are_read(rt: HostRuntime) -> Result<(), Fail> {
    let mut text = lines_of(rt.alloc(), b"a: stat f\n", 10_000)?;
    let script = read_script(rt.alloc(), &text)?;
    assert_eq!(rt; script.order.len(), 10_000);
    text.extend_from_slice(b"; one more\na: stat")?;
    assert_eq!(rt;
        fault_of(rt.alloc(), &text),
        Some((ScriptKind::Limit, 10_002))
    );
    Ok(())
}

#[test]
fn at_most_32_lanes_are_read(rt: HostRuntime) -> Result<(), Fail> {
    let mut text = Vec::new(rt.alloc());
    for n in 0..32u8 {
        text.extend_from_slice(b"l")?;
        text.push(b'a' + n % 26)?;
        text.push(b'0' + n / 26)?;
        text.extend_from_slice(b": sync\n")?;
    }
    assert!(rt; read_script(rt.alloc(), &text).is_ok());
    text.extend_from_slice(b"x: \x80")?;
    assert_eq!(rt; fault_of(rt.alloc(), &text), Some((ScriptKind::Limit, 33)));
    Ok(())
}

#[test]
fn the_bytes_of_all_calls_have_a_limit(rt: HostRuntime) -> Result<(), Fail> {
    let mut text = lines_of(rt.alloc(), b"a: append f fill:00*1048576\n", 256)?;
    text.extend_from_slice(b"a: append f text:\na: append f text:x")?;
    assert_eq!(rt; fault_of(rt.alloc(), &text), Some((ScriptKind::Limit, 258)));
    Ok(())
}

#[test]
fn texts_and_words_have_a_limit(rt: HostRuntime) -> Result<(), Fail> {
    let long = lines_of(rt.alloc(), b"\n", (1 << 24) + 1)?;
    assert_eq!(rt; fault_of(rt.alloc(), &long), Some((ScriptKind::Limit, 0)));
    let mut word = lines_of(rt.alloc(), b"a: stat ", 1)?;
    word.extend_from_slice(&lines_of(rt.alloc(), b"n", 128)?)?;
    assert!(rt; read_script(rt.alloc(), &word).is_ok());
    word.push(b'n')?;
    assert_eq!(rt; fault_of(rt.alloc(), &word), Some((ScriptKind::Name, 1)));
    Ok(())
}
