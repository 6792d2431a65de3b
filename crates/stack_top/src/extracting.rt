//! `elf OBJ SECTION OUT`: the object of the code in a section of an ELF64 object.
ghost use Rattle.std.specs.Prelude.{◌≡◌, ◌≤◌};
ghost use Rattle.elf_bpf.specs.Reading.{elf_code};
ghost use Rattle.stack_top.specs.Decided.{IsFinished, IsDecided};
ghost use Rattle.stack_top.specs.Extracting.{elf_refusal, extracted, elf_work};

use crate::assembling::object_acts;
use crate::plan::Plan;
use crate::reading::read_named;
use crate::refusal::{ObjectFault, Refusal};
use edge_io::{Room, Text};
use elf_bpf::{ElfErr, read_elf};
use std::alloc::Global;

fn elf_refusal(e: ElfErr) -> Refusal
    ensures { result ≡ elf_refusal e }
{
    match e {
        ElfErr::Elf(fault) => Refusal::BadElf(fault),
        ElfErr::Insn(fault) => Refusal::BadObject(ObjectFault::Insn(fault)),
        ElfErr::Verify(fault) => Refusal::BadObject(ObjectFault::Verify(fault)),
        ElfErr::NoMemory => Refusal::NoMemory,
    }
}

fn extracted(alloc: Global, out: &Text, bytes: &[u8], section: &Text) -> Result<Plan, Refusal>
    ensures { IsFinished (extracted out.now (elf_code bytes.now section.now)) result }
{
    match read_elf(alloc, bytes, section.as_str().as_bytes()) {
        Ok(code) => Ok(Plan::of(object_acts(alloc, out, &code)?)),
        Err(e) => Err(elf_refusal(e)),
    }
}

// The plan of `elf OBJ SECTION OUT`.
pub fn elf<R: Room>(
    alloc: Global,
    room: &mut R,
    object: &Text,
    section: &Text,
    out: &Text,
) -> Result<Plan, Refusal>
    ensures decided { IsDecided (R.names room.old) (R.faults room.old) (R.faults room.new) (elf_work object.now section.now out.now) result }
    ensures same { R.names room.new ≡ R.names room.old }
    ensures later { R.faults room.old ≤ R.faults room.new }
{
    let bytes = read_named(alloc, room, object)?;
    extracted(alloc, out, &bytes, section)
}
