use crate::scripts::{PUT, answers, empty_room};
use std::test::Fail;

// Each of these writes fills 64 pages. The host has 256 frames, the drive 128.
const FILL_0: (&str, &str) = ("write f 0 fill:01*262144", "ok");

const FILL_1: (&str, &str) = ("write f 262144 fill:02*262144", "ok");

const FILL_2: (&str, &str) = ("write f 524288 fill:03*262144", "ok");

const FILL_3: (&str, &str) = ("write f 786432 fill:04*262144", "ok");

const FILL_4: (&str, &str) = ("write f 1048576 fill:05*262144", "ok");

const FILL_5: (&str, &str) = ("write f 1310720 fill:06*262144", "ok");

const FILL_6: (&str, &str) = ("write f 1572864 fill:07*262144", "ok");

const CREATE: (&str, &str) = ("create f", "id 1");

const SYNC: (&str, &str) = ("sync", "ok");

const FIRST: (&str, &str) = ("read f 0 1", "data 01");

// Room for the host, by the first that can be done: a copy of the host goes, a copy of it goes to the drive, a copy of the drive goes, a block is
// written. An empty drive has 134 pages of meta data, which a `sync` writes behind the unclean blocks.
#[test]
fn room_for_the_host_is_made_in_order(rt: HostRuntime) -> Result<(), Fail> {
    let alloc = rt.alloc();
    let mut room = empty_room(alloc);
    let mut told = true;
    // To the drive: the first page is there still.
    let calls = [CREATE, FILL_0, FILL_1, FILL_2, FILL_3, FILL_4, FIRST];
    let places = "host=0 drive=0 reads=0 writes=0";
    told = told && answers(alloc, "solo - S -", &mut room, "", &calls, places)?;
    // All is clean: the first page went, and is read again.
    let calls = [
        CREATE, FILL_0, FILL_1, FILL_2, FILL_3, SYNC, FILL_4, FIRST, FIRST,
    ];
    let places = "host=0 drive=0 reads=1 writes=390";
    told = told && answers(alloc, "solo - S -", &mut room, "", &calls, places)?;
    // The drive is full of clean copies, the host of unclean ones: those of the drive go.
    let calls = [
        CREATE, FILL_0, FILL_1, FILL_2, FILL_3, FILL_4, FILL_5, SYNC, FILL_2, FILL_3, FILL_4,
        FILL_5, FILL_6, FIRST,
    ];
    let places = "host=0 drive=0 reads=1 writes=518";
    told = told && answers(alloc, "solo - S -", &mut room, "", &calls, places)?;
    // Both are full of unclean copies: blocks are written, the first one first.
    let calls = [
        CREATE, FILL_0, FILL_1, FILL_2, FILL_3, FILL_4, FILL_5, FILL_6, FIRST,
    ];
    let places = "host=0 drive=0 reads=1 writes=65";
    told = told && answers(alloc, "solo - S -", &mut room, "", &calls, places)?;
    assert!(rt; told);
    Ok(())
}

#[test]
fn room_in_the_drive_is_made_in_order(rt: HostRuntime) -> Result<(), Fail> {
    let alloc = rt.alloc();
    let mut room = empty_room(alloc);
    let load = ("load put func put", "ok");
    let l0 = ("writel f 0 262144 put 100 hex: text:A", "val 7");
    let l1 = ("writel f 262144 262144 put 100 hex: text:B", "val 7");
    let l2 = ("writel f 524288 262144 put 100 hex: text:C", "val 7");
    let first = ("read f 0 3", "data 004100");
    let calls = [CREATE, load, l0, l1, l2, first];
    let places = "host=0 drive=3 reads=1 writes=64";
    assert!(rt;
        answers(
            alloc,
            "solo - S - --place drive",
            &mut room,
            PUT,
            &calls,
            places
        )?
    );
    let calls = [CREATE, load, l0, l1, SYNC, l2, first];
    let places = "host=0 drive=3 reads=1 writes=262";
    assert!(rt;
        answers(
            alloc,
            "solo - S - --place drive",
            &mut room,
            PUT,
            &calls,
            places
        )?
    );
    Ok(())
}

// The seventh write wants room, and the first block that is written for it fails: the call is answered so, and goes on at its next try.
#[test]
fn a_failed_flush_for_room_is_a_fault(rt: HostRuntime) -> Result<(), Fail> {
    let alloc = rt.alloc();
    let mut room = empty_room(alloc);
    let fails = ("write f 1572864 fill:07*262144", "fault");
    let calls = [
        CREATE,
        FILL_0,
        FILL_1,
        FILL_2,
        FILL_3,
        FILL_4,
        FILL_5,
        fails,
        ("stat f", "len 1572864"),
        FILL_6,
        FIRST,
    ];
    let places = "host=0 drive=0 reads=1 writes=66";
    let head = "fault die 0 write 1\n";
    assert!(rt; answers(alloc, "solo - S -", &mut room, head, &calls, places)?);
    Ok(())
}
