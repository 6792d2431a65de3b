//! The top call of the command that starts threads.
ghost use Rattle.std.specs.Prelude.{◌≡◌, ◌≤◌, None, map, string_bytes};
ghost use Rattle.stack_top.specs.declared.status.Status.TheVariants.{Worn};
ghost use Rattle.stack_top.specs.Commands.{serves, scan_asked};
ghost use Rattle.stack_top.specs.Moments.{edge};
ghost use Rattle.stack_top.specs.Scanning.{scan_work};
ghost use Rattle.stack_top.specs.Top.{Cause, IsExact, Keeps, IsWritten};

use crate::scanning::scan;
use crate::status::Status;
use crate::top::{conclude, tell_usage};
use command_words::{Scan, scan_command};
use edge_io::{Room, Sink};
use std::alloc::Global;
use std::thread::Threads;

// The status of a scan, with its cause.
pub fn scan_served<R: Room, O: Sink, W: Threads + Sync>(
    alloc: Global,
    rt: &W,
    asked: &Scan,
    room: &mut R,
    out: &mut O,
) -> Status
    ensures cause { Cause (serves (scan_work asked.now))
        (edge (R.names room.old) (R.faults room.old) (O.written out.old) (O.faults out.old))
        (edge (R.names room.new) (R.faults room.new) (O.written out.new) (O.faults out.new)) result }
    ensures same { ¬ IsWritten result → R.names room.new ≡ R.names room.old }
    ensures room_later { R.faults room.old ≤ R.faults room.new }
    ensures sink_later { O.faults out.old ≤ O.faults out.new }
{
    let plan = scan(alloc, rt, room, asked);
    conclude(alloc, room, out, plan)
}

// The status of the words, with its cause.
fn scan_answered<R: Room, O: Sink, W: Threads + Sync>(
    alloc: Global,
    rt: &W,
    words: &[String],
    room: &mut R,
    out: &mut O,
) -> Status
    ensures cause { Cause (scan_asked (map string_bytes words.now))
        (edge (R.names room.old) (R.faults room.old) (O.written out.old) (O.faults out.old))
        (edge (R.names room.new) (R.faults room.new) (O.written out.new) (O.faults out.new)) result }
    ensures same { ¬ IsWritten result → R.names room.new ≡ R.names room.old }
    ensures room_later { R.faults room.old ≤ R.faults room.new }
    ensures sink_later { O.faults out.old ≤ O.faults out.new }
{
    match scan_command(alloc, words) {
        Ok(Some(asked)) => scan_served(alloc, rt, &asked, room, out),
        Ok(None) => tell_usage(out),
        Err(_) => Status::NoMemory,
    }
}

/// All that the program does with the words `scan IMAGE FILE OBJ CHUNK FUEL CAP PARAM`, the words behind its own name: it runs the function of an
/// object on each piece of a file of the image, in several threads, and prints a line for each reply and how many there are. It always returns.
/// Words of other commands are told as `usage`. The room holds what it held.
pub fn stack_scan<R: Room, O: Sink, W: Threads + Sync>(
    alloc: Global,
    rt: &W,
    words: &[String],
    room: &mut R,
    out: &mut O,
) -> Status
    ensures cause { Cause (scan_asked (map string_bytes words.now))
        (edge (R.names room.old) (R.faults room.old) (O.written out.old) (O.faults out.old))
        (edge (R.names room.new) (R.faults room.new) (O.written out.new) (O.faults out.new)) result }
    ensures exact { IsExact (scan_asked (map string_bytes words.now))
        (edge (R.names room.old) (R.faults room.old) (O.written out.old) (O.faults out.old))
        (edge (R.names room.new) (R.faults room.new) (O.written out.new) (O.faults out.new)) result }
    ensures unworn { ¬ (result ≡ Worn) }
    ensures same { Keeps None (R.names room.old) (R.names room.new) result }
    ensures room_later { R.faults room.old ≤ R.faults room.new }
    ensures sink_later { O.faults out.old ≤ O.faults out.new }
{
    scan_answered(alloc, rt, words, room, out)
}
