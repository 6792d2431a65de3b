//! Sections: their headers, names and bytes.
ghost use Rattle.std.specs.Prelude.{◌≡◌, ◌≤◌, ◌<◌, ◌+◌, ◌*◌, ◌^◌, length, IfOk};
ghost use Rattle.elf_bpf.specs.Faults.{Gives};
ghost use Rattle.elf_bpf.specs.Sections.{header_place, section_header, is_inside, contents, up_to_zero, name_at, is_name, is_compressed, relocates};
ghost use Rattle.elf_bpf.specs.Elf.{name_section, named_section, section_bytes, unrelocated};

use crate::fault::{ElfFault, ElfKind, demand};
use crate::numbers::{lies_within, u32_at, u64_at};
use crate::table::SectionTable;

/// What the header of a section says.
#[derive(Clone, Copy, Debug, PartialEq, Eq)]
pub(crate) struct SectionHeader {
    pub name: u32,
    pub kind: u32,
    pub flags: u64,
    pub offset: u64,
    pub size: u64,
    pub info: u32,
}

const STRINGS: u32 = 3;

const PROGRAM: u32 = 1;

const RELOCATIONS: u32 = 9;

const RELOCATIONS_WITH_ADDENDS: u32 = 4;

const COMPRESSED: u64 = 0x800;

/// The offset of a section's header.
pub(crate) fn header_place(table: SectionTable, number: u16) -> u64
    requires { table.place + 64 * number < 2 ^ 64 }
    ensures { result ≡ header_place table number }
{
    table.place + 64 * u64::from(number)
}

/// The header of a section.
pub(crate) fn section_header(bytes: &[u8], table: SectionTable, number: u16) -> SectionHeader
    requires inside { table.place + 64 * table.count ≤ length bytes.now }
    requires known { number < table.count }
    ensures { result ≡ section_header bytes.now table number }
{
    let at = header_place(table, number) as usize;
    SectionHeader {
        name: u32_at(bytes, at),
        kind: u32_at(bytes, at + 4),
        flags: u64_at(bytes, at + 8),
        offset: u64_at(bytes, at + 24),
        size: u64_at(bytes, at + 32),
        info: u32_at(bytes, at + 44),
    }
}

fn is_inside(bytes: &[u8], header: SectionHeader) -> bool
    ensures { result ≡ is_inside bytes.now header }
{
    lies_within(bytes, header.offset, header.size)
}

fn contents(bytes: &[u8], header: SectionHeader) -> &[u8]
    requires { header.offset + header.size ≤ length bytes.now }
    ensures { result.now ≡ contents bytes.now header }
{
    let from = header.offset as usize;
    &bytes[from..from + header.size as usize]
}

/// The bytes of the name section, or its fault.
#[tactic(auto, unfolding(crate::specs::Elf::name_section))]
pub(crate) fn name_section(bytes: &[u8], table: SectionTable) -> Result<&[u8], ElfFault>
    requires inside { table.place + 64 * table.count ≤ length bytes.now }
    requires names { table.names < table.count }
    ensures { Gives (λ names. names.now) result (name_section bytes.now table) }
{
    let header = section_header(bytes, table, table.names);
    demand(
        header.kind == STRINGS && is_inside(bytes, header),
        ElfKind::Strings,
        header_place(table, table.names),
    )?;
    Ok(contents(bytes, header))
}

// Whether these bytes begin with the name and a zero byte behind it.
#[tactic(auto, using(crate::proofs::NameLaws::begins))]
fn begins_with_name(bytes: &[u8], name: &[u8]) -> bool
    ensures { result ≡ is_name name.now (up_to_zero bytes.now) }
{
    bytes.len() > name.len()
        && bytes[name.len()] == 0
        && &bytes[..name.len()] == name
        && !name.contains(&0)
}

// Whether this is the name at a place of the name section.
fn is_name_at(names: &[u8], at: u32, name: &[u8]) -> bool
    ensures { result ≡ is_name name.now (name_at names.now at) }
{
    let at = at as usize;
    at < names.len() && begins_with_name(&names[at..], name)
}

/// The number of the first section of this name.
#[tactic(auto, unfolding(crate::specs::Elf::named_section))]
pub(crate) fn named_section(
    bytes: &[u8],
    table: SectionTable,
    names: &[u8],
    section: &[u8],
) -> Result<u16, ElfFault>
    requires { table.place + 64 * table.count ≤ length bytes.now }
    ensures value { result ≡ named_section bytes.now table names.now section.now }
    ensures known { IfOk result (λ number. number < table.count) }
{
    for number in 0..table.count {
        let header = section_header(bytes, table, number);
        if is_name_at(names, header.name, section) {
            return Ok(number);
        }
    }
    Err(ElfFault {
        kind: ElfKind::NoSection,
        place: u64::from(table.count),
    })
}

fn is_compressed(header: SectionHeader) -> bool
    ensures { result ≡ is_compressed header }
{
    header.flags & COMPRESSED != 0
}

/// The bytes of a section of code, or its fault.
#[tactic(auto, unfolding(crate::specs::Elf::section_bytes))]
pub(crate) fn section_bytes(
    bytes: &[u8],
    table: SectionTable,
    number: u16,
) -> Result<&[u8], ElfFault>
    requires inside { table.place + 64 * table.count ≤ length bytes.now }
    requires known { number < table.count }
    ensures { Gives (λ code. code.now) result (section_bytes bytes.now table number) }
{
    let header = section_header(bytes, table, number);
    demand(
        header.kind == PROGRAM && !is_compressed(header) && is_inside(bytes, header),
        ElfKind::Section,
        header_place(table, number),
    )?;
    Ok(contents(bytes, header))
}

// Whether the section has relocations for that of this number.
fn relocates(number: u16, header: SectionHeader) -> bool
    ensures { result ≡ relocates number header }
{
    let is_kind = header.kind == RELOCATIONS_WITH_ADDENDS || header.kind == RELOCATIONS;
    is_kind && header.size > 0 && header.info == u32::from(number)
}

/// The fault of the first section that relocates this one.
#[tactic(auto, unfolding(crate::specs::Elf::unrelocated))]
pub(crate) fn unrelocated(bytes: &[u8], table: SectionTable, number: u16) -> Result<(), ElfFault>
    requires { table.place + 64 * table.count ≤ length bytes.now }
    ensures { result ≡ unrelocated bytes.now table number }
{
    for other in 0..table.count {
        if relocates(number, section_header(bytes, table, other)) {
            return Err(ElfFault {
                kind: ElfKind::Relocated,
                place: header_place(table, other),
            });
        }
    }
    Ok(())
}
