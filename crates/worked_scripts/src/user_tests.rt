use crate::image_tests::{empty_room, gives};
use stack_top::Status;
use std::test::Fail;

// How many bytes of the input are line ends.
const LINES: &str =
    "func lines\n  ldxdw r2, [r1+0]\n  ldxdw r3, [r1+8]\n  ldxdw r4, [r1+16]\n  add r3, r2\nnext:\n  jeq r2, r3, done\n  ldxb r5, [r2+0]\n  add r2, 1\n  jne r5, 10, next\n  add r6, 1\n  ja next\ndone:\n  stxdw [r4+0], r6\n  mov r0, 8\n  exit\nend\n";

const LOG: &str =
    "a: create log\na: write log 0 fill:0a*262144\na: write log 262144 fill:0a*262144\na: write log 524288 fill:0a*262144\na: write log 786432 fill:0a*262144\n";

const LOG_TOLD: &str =
    "#1 a.1 id 1\n#2 a.2 ok\n#3 a.3 ok\n#4 a.4 ok\n#5 a.5 ok\nplaces host=0 drive=0 reads=0 writes=390\n";

const COUNT: &str =
    "a: load lines func lines\na: readl log 0 262144 lines 2000000 8 hex:\na: readl log 262144 262144 lines 2000000 8 hex:\na: readl log 524288 262144 lines 2000000 8 hex:\na: readl log 786432 262144 lines 2000000 8 hex:\n";

const COUNTED: &str =
    "#1 a.1 ok\n#2 a.2 res 0000040000000000\n#3 a.3 res 0000040000000000\n#4 a.4 res 0000040000000000\n#5 a.5 res 0000040000000000\nplaces host=3 drive=1 reads=256 writes=0\n";

const COUNT_TWICE: &str =
    "a: load lines func lines\na: readl log 0 262144 lines 2000000 8 hex:\na: readl log 0 262144 lines 2000000 8 hex:\n";

const COUNTED_ONCE: &str =
    "#1 a.1 ok\n#2 a.2 fault\n#3 a.3 res 0000040000000000\nplaces host=0 drive=2 reads=65 writes=0\n";

// The first call goes to the drive; what it took makes the later ones cheaper at the host. Where any read of a page fails, the call is answered `fault`,
// and the next one reads on.
#[test]
fn lines_of_a_log_are_counted(rt: HostRuntime) -> Result<(), Fail> {
    let alloc = rt.alloc();
    let mut room = empty_room(alloc);
    let told = gives(alloc, "solo - S img", &mut room, LOG, Status::Ok, LOG_TOLD)?;
    assert!(rt; told);
    let script = format!(in alloc; "{LINES}{COUNT}")?;
    let told = gives(
        alloc,
        "solo img S -",
        &mut room,
        script.as_str(),
        Status::Ok,
        COUNTED,
    )?;
    assert!(rt; told);
    for read in 1..65u32 {
        let script = format!(in alloc; "{LINES}fault die 0 read {read}\n{COUNT_TWICE}")?;
        let told = gives(
            alloc,
            "solo img S -",
            &mut room,
            script.as_str(),
            Status::Ok,
            COUNTED_ONCE,
        )?;
        assert!(rt; told, "at {read}");
    }
    Ok(())
}

// The last sync writes one block and 134 pages of meta data.
#[test]
fn a_last_sync_fails_at_each_of_its_writes(rt: HostRuntime) -> Result<(), Fail> {
    let alloc = rt.alloc();
    let mut room = empty_room(alloc);
    for write in 1..137u32 {
        let script = format!(in alloc;
            "fault die 0 write {write}\na: create f\na: write f 0 text:x\n"
        )?;
        let fails = write <= 135;
        let writes = if fails { write } else { 135 };
        let last = if fails { "drivefault\n" } else { "" };
        let status = if fails {
            Status::DriveFault
        } else {
            Status::Ok
        };
        let print = format!(in alloc;
            "#1 a.1 id 1\n#2 a.2 ok\nplaces host=0 drive=0 reads=0 writes={writes}\n{last}"
        )?;
        let told = gives(
            alloc,
            "solo - S img",
            &mut room,
            script.as_str(),
            status,
            print.as_str(),
        )?;
        assert!(rt; told, "at {write}");
    }
    Ok(())
}

#[test]
fn an_append_finds_no_room(rt: HostRuntime) -> Result<(), Fail> {
    let alloc = rt.alloc();
    let mut room = empty_room(alloc);
    let made = gives(
        alloc,
        "mkimage m 1 1",
        &mut room,
        "",
        Status::Ok,
        "image bytes=540672\n",
    )?;
    assert!(rt; made);
    let script = "a: create f\na: append f fill:61*4097\na: append f fill:61*4096\n";
    let print =
        "#1 a.1 id 1\n#2 a.2 nospace\n#3 a.3 at 0\nplaces host=0 drive=0 reads=0 writes=0\n";
    let told = gives(alloc, "solo m S -", &mut room, script, Status::Ok, print)?;
    assert!(rt; told);
    Ok(())
}
