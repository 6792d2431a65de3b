//! `scan IMAGE FILE OBJ CHUNK FUEL CAP PARAM`: the replies of a function on each piece of a file.
ghost use Rattle.std.specs.Prelude.{◌≡◌, ◌≤◌, length};
ghost use Rattle.plain_files.specs.Plain.{file_of};
ghost use Rattle.sbpf_load.specs.Objects.{object_read};
ghost use Rattle.stack_top.specs.Decided.{IsFinished, IsDecided};
ghost use Rattle.stack_top.specs.Scanning.{scanned, scanned_by, scans_from, scans_in, scan_work};

use crate::acts::print;
use crate::images::read_image;
use crate::objects::object_refusal;
use crate::plan::Plan;
use crate::reading::read_named;
use crate::refusal::Refusal;
use command_words::{Param, Pieces, Scan};
use edge_io::{Bytes, Room, Text};
use plain_run::Plain;
use sbpf_load::{Verified, read_object};
use scan_lines::{LinesErr, scanned_lines};
use select_lines::file_named;
use std::alloc::Global;
use std::thread::Threads;

fn scanned<W: Threads + Sync>(
    alloc: Global,
    rt: &W,
    bytes: &Bytes,
    pieces: &Pieces,
    param: &Param,
    code: &Verified,
) -> Result<Plan, Refusal>
    ensures { IsFinished (scanned bytes.now pieces.now param.now code.now) result }
{
    let lines = scanned_lines(
        rt,
        alloc,
        code,
        bytes,
        pieces.chunk(),
        pieces.fuel(),
        pieces.cap(),
        param.bytes(),
    );
    match lines {
        Ok(lines) => Ok(Plan::of(print(alloc, lines)?)),
        Err(LinesErr::Limit) => Err(Refusal::PastLimit),
        Err(LinesErr::NoMemory) => Err(Refusal::NoMemory),
    }
}

fn scanned_by<W: Threads + Sync>(
    alloc: Global,
    rt: &W,
    bytes: &Bytes,
    pieces: &Pieces,
    param: &Param,
    object: &[u8],
) -> Result<Plan, Refusal>
    ensures { IsFinished (scanned_by bytes.now pieces.now param.now object.now (object_read object.now)) result }
{
    match read_object(alloc, object) {
        Ok(code) => scanned(alloc, rt, bytes, pieces, param, &code),
        Err(e) => Err(object_refusal(object, e)),
    }
}

// The plan of OBJ, over the bytes of a file.
fn scans_from<R: Room, W: Threads + Sync>(
    alloc: Global,
    rt: &W,
    room: &mut R,
    bytes: &Bytes,
    name: &Text,
    pieces: &Pieces,
    param: &Param,
) -> Result<Plan, Refusal>
    ensures decided { IsDecided (R.names room.old) (R.faults room.old) (R.faults room.new) (scans_from bytes.now name.now pieces.now param.now) result }
    ensures same { R.names room.new ≡ R.names room.old }
    ensures later { R.faults room.old ≤ R.faults room.new }
{
    let object = read_named(alloc, room, name)?;
    scanned_by(alloc, rt, bytes, pieces, param, &object)
}

// The plan of FILE and OBJ, over a machine.
#[tactic(auto, using(crate::proofs::Scanned::found_scanned, crate::proofs::Scanned::none_scanned))]
fn scans_in<R: Room, W: Threads + Sync>(
    alloc: Global,
    rt: &W,
    room: &mut R,
    plain: &Plain,
    file: &Text,
    name: &Text,
    pieces: &Pieces,
    param: &Param,
) -> Result<Plan, Refusal>
    requires { length plain.now.files ≤ 4096 }
    ensures decided { IsDecided (R.names room.old) (R.faults room.old) (R.faults room.new) (scans_in (file_of file.now plain.now.files) name.now pieces.now param.now) result }
    ensures same { R.names room.new ≡ R.names room.old }
    ensures later { R.faults room.old ≤ R.faults room.new }
{
    match file_named(plain, file.as_str().as_bytes()) {
        Some(file) => scans_from(alloc, rt, room, &file.bytes, name, pieces, param),
        None => Err(Refusal::NoFile),
    }
}

// The plan of `scan IMAGE FILE OBJ CHUNK FUEL CAP PARAM`.
pub fn scan<R: Room, W: Threads + Sync>(
    alloc: Global,
    rt: &W,
    room: &mut R,
    asked: &Scan,
) -> Result<Plan, Refusal>
    ensures decided { IsDecided (R.names room.old) (R.faults room.old) (R.faults room.new) (scan_work asked.now) result }
    ensures same { R.names room.new ≡ R.names room.old }
    ensures later { R.faults room.old ≤ R.faults room.new }
{
    let opened = read_image(alloc, room, &asked.image)?;
    let plain = opened.drive.plain;
    scans_in(
        alloc,
        rt,
        room,
        &plain,
        &asked.file,
        &asked.object,
        &asked.pieces,
        &asked.param,
    )
}
