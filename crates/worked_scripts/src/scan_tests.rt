use crate::image_tests::{empty_room, gives};
use edge_io::{MemRoom, MemSink};
use stack_top::{Status, stack_scan};
use std::alloc::Global;
use std::process::Abort;
use std::test::Fail;
use std::thread::Threads;

const LOG: &str =
    "a: create log\na: write log 0 fill:0a*262144\na: write log 262144 fill:0a*262144\na: write log 524288 fill:0a*262144\na: write log 786432 fill:0a*262144\n";

const SMALL: &str = "a: create e\na: create f\na: write f 0 text:abcde\n";

// Puts out how many lines its input has.
const LINES: &str =
    "ldxdw r2, [r1+0]\nldxdw r3, [r1+8]\nldxdw r4, [r1+16]\nadd r3, r2\nnext:\njeq r2, r3, done\nldxb r5, [r2+0]\nadd r2, 1\njne r5, 10, next\nadd r6, 1\nja next\ndone:\nstxdw [r4+0], r6\nmov r0, 8\nexit\n";

// Puts out how many bytes its input has.
const BYTES: &str = "ldxdw r3, [r1+8]\nldxdw r4, [r1+16]\nstxdw [r4+0], r3\nmov r0, 8\nexit\n";

// Scans with these words, where this status and print are wanted.
fn expect<R: Threads + Abort + AllocGlobal + Sync>(
    rt: &R,
    alloc: Global,
    line: &str,
    room: &mut MemRoom,
    status: Status,
    print: &str,
) -> Result<(), Fail> {
    let mut words = Vec::new(alloc);
    for word in line.split(' ') {
        words.push(String::from_str(alloc, word)?)?;
    }
    let mut out = MemSink::new(alloc, 4096, Vec::new(alloc))?;
    let answer = stack_scan(alloc, rt, &words, room, &mut out);
    assert_eq!(rt; answer, status, "at {line}");
    assert!(rt; out.bytes() == print.as_bytes(), "at {line}");
    Ok(())
}

#[test]
fn pieces_of_a_log_have_their_lines_counted(rt: HostRuntime) -> Result<(), Fail> {
    let alloc = rt.alloc();
    let mut room = empty_room(alloc);
    let replies =
        "#1 a.1 id 1\n#2 a.2 ok\n#3 a.3 ok\n#4 a.4 ok\n#5 a.5 ok\nplaces host=0 drive=0 reads=0 writes=390\n";
    for (line, text, print) in [
        ("solo - S img", LOG, replies),
        ("asm S L", LINES, "slots 13\n"),
    ] {
        assert!(rt;
            gives(alloc, line, &mut room, text, Status::Ok, print)?,
            "at {line}"
        );
    }
    let counts =
        "0 res 0000040000000000\n1 res 0000040000000000\n2 res 0000040000000000\n3 res 0000040000000000\nchunks 4\n";
    for (line, status, print) in [
        ("scan img log L 262144 2000000 8 hex:", Status::Ok, counts),
        (
            "scan img log L 1 2000000 8 hex:",
            Status::BadInput,
            "badinput limit\n",
        ),
        (
            "scan img log L 16 2000000 4096 hex:",
            Status::BadInput,
            "badinput limit\n",
        ),
    ] {
        expect(&rt, alloc, line, &mut room, status, print)?;
    }
    Ok(())
}

#[test]
fn the_last_piece_is_shorter_and_no_bytes_have_none(rt: HostRuntime) -> Result<(), Fail> {
    let alloc = rt.alloc();
    let mut room = empty_room(alloc);
    let replies = "#1 a.1 id 1\n#2 a.2 id 2\n#3 a.3 ok\nplaces host=0 drive=0 reads=0 writes=135\n";
    for (line, text, print) in [
        ("solo - S img", SMALL, replies),
        ("asm S B", BYTES, "slots 5\n"),
    ] {
        assert!(rt;
            gives(alloc, line, &mut room, text, Status::Ok, print)?,
            "at {line}"
        );
    }
    let counts =
        "0 res 0200000000000000\n1 res 0200000000000000\n2 res 0100000000000000\nchunks 3\n";
    for (line, status, print) in [
        ("scan img f B 2 10 8 hex:", Status::Ok, counts),
        ("scan img f B 5 4 8 hex:", Status::Ok, "0 spent\nchunks 1\n"),
        (
            "scan img f B 5 10 7 hex:",
            Status::Ok,
            "0 trap access 0x300000000 8 2\nchunks 1\n",
        ),
        ("scan img e B 100 10 8 hex:", Status::Ok, "chunks 0\n"),
        (
            "scan img g none 2 10 8 hex:",
            Status::BadInput,
            "badinput nofile\n",
        ),
        (
            "scan img f none 2 10 8 hex:",
            Status::Absent,
            "absent none\n",
        ),
        (
            "scan img f img 2 10 8 hex:",
            Status::BadInput,
            "badobject magic 4743168\n",
        ),
        (
            "scan B f B 2 10 8 hex:",
            Status::BadImage,
            "badimage short 48\n",
        ),
        ("scan img f B 0 10 8 hex:", Status::Usage, "usage\n"),
        ("verify B", Status::Usage, "usage\n"),
    ] {
        expect(&rt, alloc, line, &mut room, status, print)?;
    }
    Ok(())
}
