use crate::scripts::{answers, empty_room};
use edge_io::{MemSink, Room};
use stack_top::{Status, stack_quiet};
use std::test::Fail;

// Each script breaks one rule, which is told with the line.
#[test]
fn hostile_scripts_are_refused(rt: HostRuntime) -> Result<(), Fail> {
    let alloc = rt.alloc();
    let mut room = empty_room(alloc);
    let mut words = Vec::new(alloc);
    for word in ["solo", "-", "S", "-"] {
        words.push(String::from_str(alloc, word)?)?;
    }
    for (script, rule) in [
        (b"\x80".as_slice(), "char 1"),
        (b"A: stat f", "lane 1"),
        (b"a: read f 01 2", "number 1"),
        (b"a: write f 0 hex:abc", "bytes 1"),
        (b"func x", "line 1"),
        (b"a: load f func nope", "func 1"),
        (b"a: await b.1", "await 1"),
        (b"a: stat f\nfault die 0 read 1", "order 2"),
        (b"fault die 1 read 1", "die 1"),
    ] {
        assert!(rt; room.write("S", script).is_ok(), "at {rule}");
        let mut out = MemSink::new(alloc, 100, Vec::new(alloc))?;
        let status = stack_quiet(alloc, &words, &mut room, &mut out);
        let last = format!(in alloc; "badscript {rule}\n")?;
        assert_eq!(rt; status, Status::BadInput, "at {rule}");
        assert!(rt; out.bytes() == last.as_bytes(), "at {rule}");
    }
    Ok(())
}

// Code that may not run is refused as it is loaded: a jump into a wide load, an end that is no exit, a write of r10, and no code.
#[test]
fn hostile_functions_are_refused(rt: HostRuntime) -> Result<(), Fail> {
    let alloc = rt.alloc();
    let mut room = empty_room(alloc);
    let calls = [
        (
            "load x code 0500010000000000180000000000000000000000000000009500000000000000",
            "badcode middle 0",
        ),
        ("load x code b700000000000000", "badcode fallsoff 0"),
        (
            "load x code b70a0000000000009500000000000000",
            "badcode writer10 0",
        ),
        ("load x code hex:", "badcode empty 0"),
    ];
    let told = answers(
        alloc,
        "solo - S -",
        &mut room,
        "",
        &calls,
        "host=0 drive=0 reads=0 writes=0",
    )?;
    assert!(rt; told);
    Ok(())
}
