use edge_io::{Bytes, MemRoom, MemSink, Room, Text};
use stack_top::{Status, stack_quiet};
use std::alloc::{AllocError, Global};
use std::test::Fail;

const SUM: &str =
    "func sum\n  ldxdw r2, [r1+0]\n  ldxdw r3, [r1+8]\n  ldxdw r4, [r1+16]\n  add r3, r2\nloop:\n  jeq r2, r3, done\n  ldxb r5, [r2+0]\n  add r6, r5\n  add r2, 1\n  ja loop\ndone:\n  stxdw [r4+0], r6\n  mov r0, 8\n  exit\nend\n";

const PEEK: &str =
    "func peek\n  ldxdw r2, [r1+0]\n  ldxdw r4, [r1+32]\n  ldxdw r4, [r4+0]\n  add r2, r4\n  ldxdw r5, [r2+0]\n  ldxdw r3, [r1+16]\n  stxdw [r3+0], r5\n  mov r0, 8\n  exit\nend\n";

const PUT: &str =
    "func put\n  ldxdw r2, [r1+0]\n  ldxdw r3, [r1+16]\n  ldxb r4, [r2+0]\n  stxb [r3+1], r4\n  mov r0, 7\n  exit\nend\n";

const PLACES: &str = "places host=0 drive=0 reads=0 writes=0\n";

fn words_of(alloc: Global, line: &str) -> Result<Vec<String>, AllocError> {
    let mut words = Vec::new(alloc);
    for word in line.split(' ') {
        words.push(String::from_str(alloc, word)?)?;
    }
    Ok(words)
}

// A room that holds a script under the name S.
fn room_of(alloc: Global, script: &str) -> Result<MemRoom, AllocError> {
    let name = Text::new(String::from_str(alloc, "S")?);
    let bytes = Bytes::new(script.as_bytes().to_vec(alloc)?);
    let files = vec![in alloc; (name, bytes)]?;
    Ok(MemRoom::new(files, Vec::new(alloc), Vec::new(alloc)))
}

// The status and the print of some words over a room.
fn asked(alloc: Global, line: &str, room: &mut MemRoom) -> Result<(Status, MemSink), AllocError> {
    let words = words_of(alloc, line)?;
    let mut out = MemSink::new(alloc, 200_000, Vec::new(alloc))?;
    let status = stack_quiet(alloc, &words, room, &mut out);
    Ok((status, out))
}

// The transcript of a script, and how the program ends.
fn transcript_of(alloc: Global, script: &str) -> Result<(Status, MemSink), AllocError> {
    let mut room = room_of(alloc, script)?;
    asked(alloc, "solo - S -", &mut room)
}

#[test]
fn functions_read_and_write_files(rt: HostRuntime) -> Result<(), Fail> {
    let alloc = rt.alloc();
    for (block, calls, replies, host) in [
        (
            SUM,
            "a: create f\na: write f 0 fill:01*5000\na: load sum func sum\na: readl f 4000 500 sum 10000 8 hex:\n",
            "#1 a.1 id 1\n#2 a.2 ok\n#3 a.3 ok\n#4 a.4 res f401000000000000\n",
            1u32,
        ),
        (
            PEEK,
            "a: create f\na: write f 0 fill:01*5000\na: write f 4096 hex:02030405\na: load peek func peek\na: readl f 0 5000 peek 100 8 hex:8113000000000000\na: readl f 0 5000 peek 100 8 hex:fc0f000000000000\n",
            "#1 a.1 id 1\n#2 a.2 ok\n#3 a.3 ok\n#4 a.4 ok\n#5 a.5 trap access 0x200001381 8 4\n#6 a.6 res 0101010102030405\n",
            2,
        ),
        (
            "func spin\n  ja -1\nend\n",
            "a: create f\na: write f 0 text:abc\na: load spin func spin\na: writel f 0 3 spin 0 hex: hex:\na: writel f 0 3 spin 1 hex: hex:\na: writel f 0 3 spin 1000 hex: hex:\na: read f 0 3\n",
            "#1 a.1 id 1\n#2 a.2 ok\n#3 a.3 ok\n#4 a.4 spent\n#5 a.5 spent\n#6 a.6 spent\n#7 a.7 data 616263\n",
            3,
        ),
        (
            PUT,
            "a: create f\na: write f 0 text:abc\na: load put func put\na: writel f 0 3 put 100 hex: text:Z\na: writel f 3 2 put 100 hex: text:Z\na: read f 0 9\n",
            "#1 a.1 id 1\n#2 a.2 ok\n#3 a.3 ok\n#4 a.4 val 7\n#5 a.5 val 7\n#6 a.6 data 615a63005a\n",
            2,
        ),
    ] {
        let script = format!(in alloc; "{block}{calls}")?;
        let expected = format!(in alloc; "{replies}places host={host} drive=0 reads=0 writes=0\n")?;
        let (status, out) = transcript_of(alloc, script.as_str())?;
        assert_eq!(rt; status, Status::Ok, "at {calls}");
        assert!(rt; out.bytes() == expected.as_bytes(), "at {calls}");
    }
    Ok(())
}

#[test]
fn functions_run_where_they_are_told_to(rt: HostRuntime) -> Result<(), Fail> {
    let alloc = rt.alloc();
    let calls =
        "a: create f\na: write f 0 fill:01*5000\na: load sum func sum\na: readl f 4000 500 sum 10000 8 hex:\n";
    let script = format!(in alloc; "{SUM}{calls}")?;
    let replies = "#1 a.1 id 1\n#2 a.2 ok\n#3 a.3 ok\n#4 a.4 res f401000000000000\n";
    for (line, places) in [
        ("solo - S - --place host", "host=1 drive=0"),
        ("solo - S - --die ftl --place drive", "host=0 drive=1"),
    ] {
        let mut room = room_of(alloc, script.as_str())?;
        let (status, out) = asked(alloc, line, &mut room)?;
        let expected = format!(in alloc; "{replies}places {places} reads=0 writes=0\n")?;
        assert_eq!(rt; status, Status::Ok, "at {line}");
        assert!(rt; out.bytes() == expected.as_bytes(), "at {line}");
    }
    Ok(())
}

#[test]
fn a_drive_has_4096_files(rt: HostRuntime) -> Result<(), Fail> {
    let alloc = rt.alloc();
    let mut script = String::new(alloc);
    let mut expected = String::new(alloc);
    for i in 0..4096u32 {
        let number = i + 1;
        script.push_str(format!(in alloc; "a: create f{i}\n")?.as_str())?;
        expected.push_str(format!(in alloc; "#{number} a.{number} id {number}\n")?.as_str())?;
    }
    script.push_str("a: create g\na: create f0\na: create ")?;
    for _ in 0..97 {
        script.push_str("x")?;
    }
    expected.push_str("#4097 a.4097 full\n#4098 a.4098 exists\n#4099 a.4099 badname\n")?;
    expected.push_str(PLACES)?;
    let (status, out) = transcript_of(alloc, script.as_str())?;
    assert_eq!(rt; status, Status::Ok);
    assert!(rt; out.bytes() == expected.as_bytes());
    Ok(())
}

// Every call once, in two lanes.
const EVERY_CALL: &str =
    "a: create f\na: open f\na: stat f\na: write f 0 text:abc\na: append f text:d\na: trunc f 2\nb: await a.1\nb: load put func put\nb: writel f 0 2 put 100 hex: text:Z\nb: readl f 0 2 put 100 8 hex:\nb: read f 0 9\na: seal f\na: sync\na: unload put\na: remove f\n";

// Where memory fails at one point, the program says so, or tells a legal transcript in which a call
// found none.
#[test]
fn a_transcript_is_legal_or_memory_is_wanting(rt: HostRuntime) -> Result<(), Fail> {
    let alloc = rt.alloc();
    let script = format!(in alloc; "{PUT}{EVERY_CALL}")?;
    let mut room = room_of(alloc, script.as_str())?;
    let (status, out) = asked(alloc, "solo - S -", &mut room)?;
    if status == Status::NoMemory {
        return Ok(());
    }
    assert_eq!(rt; status, Status::Ok);
    if room.write("T", out.bytes()).is_err() {
        return Ok(());
    }
    let (status, out) = asked(alloc, "check - S T", &mut room)?;
    if status == Status::NoMemory {
        return Ok(());
    }
    assert_eq!(rt; status, Status::Ok);
    assert!(rt; out.bytes() == b"legal 14\n".as_slice());
    Ok(())
}
