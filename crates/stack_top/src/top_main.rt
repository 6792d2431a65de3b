//! The top call of all commands.
ghost use Rattle.std.specs.Prelude.{◌≡◌, ◌≤◌, ◌<◌, ◌+◌, ◌^◌, map, string_bytes};
ghost use Rattle.command_words.specs.Commands.{command_of};
ghost use Rattle.stack_top.specs.declared.status.Status.TheVariants.{Worn};
ghost use Rattle.stack_top.specs.Commands.{serves, main_asked, main_out, IsRun};
ghost use Rattle.stack_top.specs.Moments.{edge};
ghost use Rattle.stack_top.specs.Scripts.{run_work};
ghost use Rattle.stack_top.specs.Top.{Cause, IsExact, Keeps, IsWritten};

use crate::status::Status;
use crate::threads::run_at_once;
use crate::top::{conclude, served, tell_usage};
use crate::top_scan::scan_served;
use command_words::{Command, Run, command_of};
use edge_io::{Room, Sink};
use gates::Gate;
use std::alloc::Global;
use std::sync::Wait;
use std::thread::Threads;

// The status of a run on many threads, with its cause.
fn run_served<R: Room, O: Sink, W: Threads + Wait + Sync, G: Gate + Sync>(
    alloc: Global,
    rt: &W,
    asked: &Run,
    room: &mut R,
    out: &mut O,
    gate: &G,
) -> Status
    requires crew { asked.now.crew.workers + asked.now.crew.flushers < 2 ^ 32 }
    ensures cause { Cause (serves (run_work asked.now))
        (edge (R.names room.old) (R.faults room.old) (O.written out.old) (O.faults out.old))
        (edge (R.names room.new) (R.faults room.new) (O.written out.new) (O.faults out.new)) result }
    ensures same { ¬ IsWritten result → R.names room.new ≡ R.names room.old }
    ensures room_later { R.faults room.old ≤ R.faults room.new }
    ensures sink_later { O.faults out.old ≤ O.faults out.new }
{
    let plan = run_at_once(alloc, rt, room, asked, gate);
    conclude(alloc, room, out, plan)
}

// The status of the words, with its cause.
fn answered_all<R: Room, O: Sink, W: Threads + Wait + Sync, G: Gate + Sync>(
    alloc: Global,
    rt: &W,
    words: &[String],
    room: &mut R,
    out: &mut O,
    gate: &G,
) -> Status
    ensures cause { Cause (main_asked (map string_bytes words.now))
        (edge (R.names room.old) (R.faults room.old) (O.written out.old) (O.faults out.old))
        (edge (R.names room.new) (R.faults room.new) (O.written out.new) (O.faults out.new)) result }
    ensures same { ¬ IsWritten result → R.names room.new ≡ R.names room.old }
    ensures room_later { R.faults room.old ≤ R.faults room.new }
    ensures sink_later { O.faults out.old ≤ O.faults out.new }
{
    match command_of(alloc, words) {
        Ok(Some(Command::Quiet(command))) => served(alloc, &command, room, out),
        Ok(Some(Command::Scan(asked))) => scan_served(alloc, rt, &asked, room, out),
        Ok(Some(Command::Run(asked))) => run_served(alloc, rt, &asked, room, out, gate),
        Ok(None) => tell_usage(out),
        Err(_) => Status::NoMemory,
    }
}

/// All that the program does with its words, the words behind its own name: the commands of `stack_quiet`, `scan` as `stack_scan` does it, and
/// `run`. It starts threads for `scan` and `run`, and may wait for `run` alone.
///
/// `run IMAGE SCRIPT OUT` prints the transcript of a script whose calls are made over an image's drive, on a thread for each lane, and then writes
/// the drive's image. Behind the names, in any order: `--place P` says where functions run (`auto`, `host` or `drive`), `--die K` what the dies are
/// (`mem`, `ftl` or `mirror`), `--workers N` how many threads run functions in the drive (1 to 8, else 2), and `--flushers N` how many clean the
/// caches (0 to 4, else 1). The gate is told before a function runs and behind each reply, and may hold its thread there.
pub fn stack_main<R: Room, O: Sink, W: Threads + Wait + Sync, G: Gate + Sync>(
    alloc: Global,
    rt: &W,
    words: &[String],
    room: &mut R,
    out: &mut O,
    gate: &G,
) -> Status
    ensures cause { Cause (main_asked (map string_bytes words.now))
        (edge (R.names room.old) (R.faults room.old) (O.written out.old) (O.faults out.old))
        (edge (R.names room.new) (R.faults room.new) (O.written out.new) (O.faults out.new)) result }
    ensures exact { IsExact (main_asked (map string_bytes words.now))
        (edge (R.names room.old) (R.faults room.old) (O.written out.old) (O.faults out.old))
        (edge (R.names room.new) (R.faults room.new) (O.written out.new) (O.faults out.new)) result }

    // A turn may wear out for a run on many threads alone.
    ensures unworn { result ≡ Worn → IsRun (command_of (map string_bytes words.now)) }
    ensures same { Keeps (main_out (map string_bytes words.now)) (R.names room.old) (R.names room.new) result }
    ensures room_later { R.faults room.old ≤ R.faults room.new }
    ensures sink_later { O.faults out.old ≤ O.faults out.new }
{
    answered_all(alloc, rt, words, room, out, gate)
}
