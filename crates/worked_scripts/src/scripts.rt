//! Scripts run over a room in memory.
use edge_io::{MemRoom, MemSink, Room};
use stack_top::{Status, stack_quiet};
use std::alloc::{AllocError, Global};

/// Stores the first byte of its input as the second one of its output, and gives 7.
pub(crate) const PUT: &str =
    "func put\n  ldxdw r2, [r1+0]\n  ldxdw r3, [r1+16]\n  ldxb r4, [r2+0]\n  stxb [r3+1], r4\n  mov r0, 7\n  exit\nend\n";

/// Gives the first eight bytes of its parameter.
pub(crate) const RET: &str = "func ret\n  ldxdw r2, [r1+32]\n  ldxdw r0, [r2+0]\n  exit\nend\n";

/// A room without names.
pub(crate) fn empty_room(alloc: Global) -> MemRoom {
    MemRoom::new(Vec::new(alloc), Vec::new(alloc), Vec::new(alloc))
}

/// What some words print over a room that has this script under the name S; they end well.
pub(crate) fn printed(
    alloc: Global,
    words: &str,
    room: &mut MemRoom,
    script: &str,
) -> Result<MemSink, AllocError> {
    if room.write("S", script.as_bytes()).is_err() {
        return Err(AllocError);
    }
    let mut list = Vec::new(alloc);
    for word in words.split(' ') {
        list.push(String::from_str(alloc, word)?)?;
    }
    let mut out = MemSink::new(alloc, 200_000, Vec::new(alloc))?;
    match stack_quiet(alloc, &list, room, &mut out) {
        Status::Ok => Ok(out),
        _ => Err(AllocError),
    }
}

/// Whether the calls of lane a, each beside its reply, are answered so under these words, with this last line.
pub(crate) fn answers(
    alloc: Global,
    words: &str,
    room: &mut MemRoom,
    head: &str,
    calls: &[(&str, &str)],
    places: &str,
) -> Result<bool, AllocError> {
    let mut script = String::from_str(alloc, head)?;
    let mut wanted = String::new(alloc);
    let mut number = 0u32;
    for (call, reply) in calls {
        number = number.saturating_add(1);
        script.push_str(format!(in alloc; "a: {call}\n")?.as_str())?;
        wanted.push_str(format!(in alloc; "#{number} a.{number} {reply}\n")?.as_str())?;
    }
    wanted.push_str(format!(in alloc; "places {places}\n")?.as_str())?;
    let out = printed(alloc, words, room, script.as_str())?;
    Ok(out.bytes() == wanted.as_bytes())
}
