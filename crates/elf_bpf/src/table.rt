//! The object's header: where its section headers stand.
ghost use Rattle.std.specs.Prelude.{◌≡◌, ◌≤◌, ◌<◌, ◌+◌, ◌*◌, length, take, IfOk, bytes_eq};
ghost use Rattle.elf_bpf.specs.Elf.{magic, section_table};

use crate::fault::{ElfFault, ElfKind, demand};
use crate::numbers::{lies_within, u16_at, u64_at};

/// The section headers: their offset, how many they are, and the number of the name section.
#[derive(Clone, Copy, Debug, PartialEq, Eq)]
pub(crate) struct SectionTable {
    pub place: u64,
    pub count: u16,
    pub names: u16,
}

fn is_magic(bytes: &[u8]) -> bool
    requires { 64 ≤ length bytes.now }
    ensures { result ≡ bytes_eq (take 4 bytes.now) magic }
{
    let front = &bytes[..4];
    front == b"\x7fELF".as_slice()
}

/// The section headers that the object's header tells, or its first fault.
#[tactic(auto, unfolding(crate::specs::Elf::section_table))]
pub(crate) fn section_table(bytes: &[u8]) -> Result<SectionTable, ElfFault>
    ensures value { result ≡ section_table bytes.now }
    ensures names { IfOk result (λ table. table.names < table.count) }
    ensures inside { IfOk result (λ table. table.place + 64 * table.count ≤ length bytes.now) }
{
    let len = bytes.len() as u64;
    demand(len >= 64, ElfKind::Short, len)?;
    demand(is_magic(bytes), ElfKind::Magic, 0)?;
    demand(bytes[4] == 2, ElfKind::Class, 4)?;
    demand(bytes[5] == 1, ElfKind::Order, 5)?;
    demand(u16_at(bytes, 16) == 1, ElfKind::TypeField, 16)?;
    demand(u16_at(bytes, 18) == 247, ElfKind::Machine, 18)?;
    let table = SectionTable {
        place: u64_at(bytes, 40),
        count: u16_at(bytes, 60),
        names: u16_at(bytes, 62),
    };
    let is_known = u16_at(bytes, 58) == 64
        && table.count > 0
        && table.names < table.count
        && lies_within(bytes, table.place, 64 * u64::from(table.count));
    demand(is_known, ElfKind::Table, 40)?;
    Ok(table)
}
