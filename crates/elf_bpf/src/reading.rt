//! Accepted code out of an object.
ghost use Rattle.elf_bpf.specs.Faults.{Gives};
ghost use Rattle.elf_bpf.specs.Elf.{elf};
ghost use Rattle.elf_bpf.specs.Reading.{elf_code, ReadsElf};

use crate::fault::{ElfErr, ElfFault};
use crate::section::{name_section, named_section, section_bytes, unrelocated};
use crate::table::section_table;
use sbpf_load::{CodeErr, Verified, load_code};
use std::alloc::Global;

// The bytes of the named section, or the object's first fault.
#[tactic(auto, unfolding(crate::specs::Elf::elf))]
fn section_of<'a>(bytes: &'a [u8], section: &[u8]) -> Result<&'a [u8], ElfFault>
    ensures { Gives (λ code. code.now) result (elf bytes.now section.now) }
{
    let table = section_table(bytes)?;
    let names = name_section(bytes, table)?;
    let number = named_section(bytes, table, names, section)?;
    let code = section_bytes(bytes, table, number)?;
    unrelocated(bytes, table, number)?;
    Ok(code)
}

/// The accepted code of the object's first section of this name, or the first fault.
pub fn read_elf(alloc: Global, bytes: &[u8], section: &[u8]) -> Result<Verified, ElfErr>
    ensures { ReadsElf result (elf_code bytes.now section.now) }
{
    match section_of(bytes, section) {
        Ok(code) => match load_code(alloc, code) {
            Ok(verified) => Ok(verified),
            Err(CodeErr::Insn(fault)) => Err(ElfErr::Insn(fault)),
            Err(CodeErr::Verify(fault)) => Err(ElfErr::Verify(fault)),
            Err(CodeErr::NoMemory) => Err(ElfErr::NoMemory),
        },
        Err(fault) => Err(ElfErr::Elf(fault)),
    }
}
