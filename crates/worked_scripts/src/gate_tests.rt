ghost use Rattle.std.specs.Prelude.{◌≤◌};

use crate::image_tests::empty_room;
use edge_io::{MemRoom, MemSink, Room};
use gates::{Gate, OpenGate};
use stack_top::{Status, stack_main};
use std::alloc::{AllocError, Global};
use std::sync::Wait;
use std::sync::atomic::{AtomicBool, Ordering};
use std::test::Fail;
use std::thread;
use std::thread::Threads;

// Holds the function of lane a until a call of lane b was replied to, and perhaps lane b there until lane a goes on.
#[derive(Drop)]
struct HoldingGate {
    until: u32,
    holds: bool,
    ran: AtomicBool,
    told: AtomicBool,
    ended: AtomicBool,
    failed: AtomicBool,
}

impl HoldingGate {
    fn new(until: u32, holds: bool) -> HoldingGate {
        HoldingGate {
            until,
            holds,
            ran: AtomicBool::new(false),
            told: AtomicBool::new(false),
            ended: AtomicBool::new(false),
            failed: AtomicBool::new(false),
        }
    }

    // Waits for a flag, but not for ever.
    fn wait_for(&self, flag: &AtomicBool) {
        for _ in 0..2_000_000_000u32 {
            if flag.load(Ordering::SeqCst) {
                return;
            }
            thread::yield_now();
        }
        self.failed.store(true, Ordering::SeqCst);
    }
}

impl Gate for HoldingGate {
    fn before_run(&self, _lane: u32) {
        self.ran.store(true, Ordering::SeqCst);
        self.wait_for(&self.told);
    }

    fn replied(&self, lane: u32, k: u32) {
        if lane == 0 && k == 4 {
            self.ended.store(true, Ordering::SeqCst);
        }
        if lane == 1 && k == self.until {
            self.told.store(true, Ordering::SeqCst);
            if self.holds {
                self.wait_for(&self.ended);
            }
        }
    }
}

const SUM: &str =
    "func sum\n  ldxdw r2, [r1+0]\n  ldxdw r3, [r1+8]\n  ldxdw r4, [r1+16]\n  add r3, r2\nloop:\n  jeq r2, r3, done\n  ldxb r5, [r2+0]\n  add r6, r5\n  add r2, 1\n  ja loop\ndone:\n  stxdw [r4+0], r6\n  mov r0, 8\n  exit\nend\n";

const HELD: &str =
    "a: create f\na: write f 0 fill:01*8192\na: load sum func sum\na: readl f 0 4096 sum 100000 8 hex:\nb: await a.3\nb: stat f\nb: read f 4096 1\n";

const FIRST: &str = "#1 a.1 id 1\n#2 a.2 ok\n#3 a.3 ok\n#4 b.1 len 8192\n";

// A room that holds a script under the name S.
fn room_of(alloc: Global, script: &str) -> Result<MemRoom, AllocError> {
    let mut room = empty_room(alloc);
    match room.write("S", script.as_bytes()) {
        Ok(()) => Ok(room),
        Err(_) => Err(AllocError),
    }
}

fn words_of(alloc: Global, line: &str) -> Result<Vec<String>, AllocError> {
    let mut words = Vec::new(alloc);
    for word in line.split(' ') {
        words.push(String::from_str(alloc, word)?)?;
    }
    Ok(words)
}

// While a function runs, at the host or in the drive, another lane's calls are answered, and the order of replies is that in which they ended.
#[test]
fn other_calls_are_answered_while_a_function_runs(rt: HostRuntime) -> Result<(), Fail> {
    let alloc = rt.alloc();
    let script = format!(in alloc; "{SUM}{HELD}")?;
    for (place, places) in [("host", "host=1 drive=0"), ("drive", "host=0 drive=1")] {
        for (until, holds, last) in [
            (2u32, false, "#5 b.2 data 01\n#6 a.4 res 0010000000000000\n"),
            (1, true, "#5 a.4 res 0010000000000000\n#6 b.2 data 01\n"),
        ] {
            let line = format!(in alloc; "run - S - --flushers 0 --place {place}")?;
            let words = words_of(alloc, line.as_str())?;
            let mut room = room_of(alloc, script.as_str())?;
            let mut out = MemSink::new(alloc, 100_000, Vec::new(alloc))?;
            let gate = HoldingGate::new(until, holds);
            let status = stack_main(alloc, &rt, &words, &mut room, &mut out, &gate);
            let print = format!(in alloc; "{FIRST}{last}places {places} reads=0 writes=0\n")?;
            assert_eq!(rt; status, Status::Ok, "at {place}");
            assert!(rt; out.bytes() == print.as_bytes(), "at {place}");
            assert!(rt; gate.ran.load(Ordering::SeqCst), "at {place}");
            assert!(rt; !gate.failed.load(Ordering::SeqCst), "at {place}");
        }
    }
    Ok(())
}

// What `run` prints of a script, which `check` must call legal, with so many calls.
fn legal_run<W: Threads + Wait + Sync>(
    alloc: Global,
    rt: &W,
    words: &str,
    script: &str,
    calls: usize,
) -> Result<Option<MemSink>, AllocError> {
    let mut room = room_of(alloc, script)?;
    let words = words_of(alloc, words)?;
    let mut out = MemSink::new(alloc, 1_000_000, Vec::new(alloc))?;
    let status = stack_main(alloc, rt, &words, &mut room, &mut out, &OpenGate);
    if status != Status::Ok || room.write("T", out.bytes()).is_err() {
        return Ok(None);
    }
    let words = words_of(alloc, "check - S T")?;
    let mut told = MemSink::new(alloc, 100, Vec::new(alloc))?;
    let status = stack_main(alloc, rt, &words, &mut room, &mut told, &OpenGate);
    let legal = format!(in alloc; "legal {calls}\n")?;
    if status == Status::Ok && told.bytes() == legal.as_bytes() {
        Ok(Some(out))
    } else {
        Ok(None)
    }
}

// Two lanes append to one file: each offset is given once.
#[test]
fn many_append_at_once(rt: HostRuntime) -> Result<(), Fail> {
    let alloc = rt.alloc();
    let mut script = String::from_str(alloc, "a: create f\nb: await a.1\nc: await a.1\n")?;
    for _ in 0..100 {
        script.push_str("b: append f fill:62*64\nc: append f fill:63*64\n")?;
    }
    let Some(out) = legal_run(alloc, &rt, "run - S -", script.as_str(), 201)? else {
        panic!(rt; "not legal")
    };
    let Ok(text) = str::from_utf8(out.bytes()) else {
        panic!(rt; "no text")
    };
    for i in 0..200u32 {
        let offset = i * 64;
        let told = format!(in alloc; " at {offset}\n")?;
        assert!(rt; text.contains(told.as_str()), "at {offset}");
    }
    Ok(())
}

// Sixteen lanes, each with a file of its own.
#[test]
fn many_lanes_run_at_once(rt: HostRuntime) -> Result<(), Fail> {
    let alloc = rt.alloc();
    let mut script = String::from_str(alloc, SUM)?;
    for lane in 0..16u32 {
        script.push_str(format!(in alloc; "l{lane}: create f{lane}\n")?.as_str())?;
        script.push_str(format!(in alloc; "l{lane}: load s{lane} func sum\n")?.as_str())?;
        for i in 0..6u32 {
            let at = i * 3000;
            script.push_str(format!(in alloc;
                "l{lane}: write f{lane} {at} fill:0{i}*5000\nl{lane}: readl f{lane} 0 {at} s{lane} 100000 8 hex:\nl{lane}: read f{lane} {at} 10\n"
            )?.as_str())?;
        }
    }
    let out = legal_run(
        alloc,
        &rt,
        "run - S - --workers 2 --flushers 2",
        script.as_str(),
        320,
    )?;
    assert!(rt; out.is_some());
    Ok(())
}

// A call that awaits another lane's call is made behind it.
#[test]
fn a_lane_waits_for_another(rt: HostRuntime) -> Result<(), Fail> {
    let alloc = rt.alloc();
    let script = "a: create f\na: write f 0 text:one\nb: await a.2\nb: read f 0 3\n";
    let Some(out) = legal_run(alloc, &rt, "run - S - --flushers 0", script, 3)? else {
        panic!(rt; "not legal")
    };
    let print =
        b"#1 a.1 id 1\n#2 a.2 ok\n#3 b.1 data 6f6e65\nplaces host=0 drive=0 reads=0 writes=0\n";
    assert!(rt; out.bytes() == print.as_slice());
    Ok(())
}
