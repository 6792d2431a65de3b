use crate::scripts::{PUT, answers, empty_room, printed};
use std::test::Fail;

const SIX_READS: &str =
    "fault die 0 read 1\nfault die 0 read 2\nfault die 0 read 3\nfault die 0 read 4\nfault die 0 read 5\nfault die 0 read 6\n";

// Each call that must read its page fails once, changes nothing, and goes on at its next try.
#[test]
fn a_failed_read_is_a_fault_of_each_call(rt: HostRuntime) -> Result<(), Fail> {
    let alloc = rt.alloc();
    let mut room = empty_room(alloc);
    let _made = printed(
        alloc,
        "solo - S img",
        &mut room,
        "a: create f\na: write f 0 text:abcd\n",
    )?;
    let head = format!(in alloc; "{PUT}{SIX_READS}")?;
    let calls = [
        ("load put func put", "ok"),
        ("write f 1 text:x", "fault"),
        ("append f text:x", "fault"),
        ("trunc f 1", "fault"),
        ("readl f 0 4 put 100 8 hex:", "fault"),
        ("writel f 0 4 put 100 hex: text:Z", "fault"),
        ("read f 0 4", "fault"),
        ("stat f", "len 4"),
        ("read f 0 4", "data 61626364"),
        ("write f 1 text:x", "ok"),
        ("append f text:y", "at 4"),
        ("readl f 0 4 put 100 8 hex:", "res 00610000000000"),
        ("writel f 0 5 put 100 hex: text:Z", "val 7"),
        ("trunc f 3", "ok"),
        ("read f 0 9", "data 615a63"),
    ];
    for (words, places) in [
        (
            "solo img S - --place host",
            "host=4 drive=0 reads=7 writes=0",
        ),
        (
            "solo img S - --place drive",
            "host=0 drive=4 reads=7 writes=0",
        ),
    ] {
        let told = answers(alloc, words, &mut room, head.as_str(), &calls, places)?;
        assert!(rt; told, "at {words}");
    }
    Ok(())
}

// One block and 134 pages of meta data are written: the block first, and the last page of meta data as write 135.
#[test]
fn a_sync_that_fails_is_a_fault_and_the_next_one_writes_what_is_left(
    rt: HostRuntime,
) -> Result<(), Fail> {
    let alloc = rt.alloc();
    let mut room = empty_room(alloc);
    for (nth, writes) in [(1u32, 136u32), (2, 136), (135, 269)] {
        let head = format!(in alloc; "fault die 0 write {nth}\n")?;
        let places = format!(in alloc; "host=0 drive=0 reads=0 writes={writes}")?;
        let calls = [
            ("create f", "id 1"),
            ("write f 0 text:x", "ok"),
            ("sync", "fault"),
            ("sync", "ok"),
            ("read f 0 2", "data 78"),
        ];
        let told = answers(
            alloc,
            "solo - S -",
            &mut room,
            head.as_str(),
            &calls,
            places.as_str(),
        )?;
        assert!(rt; told, "at write {nth}");
    }
    Ok(())
}
