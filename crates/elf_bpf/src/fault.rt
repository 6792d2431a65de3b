//! What is wrong with an object.
ghost use Rattle.std.specs.Prelude.{◌≡◌, OnOk, IsTrue};
ghost use Rattle.elf_bpf.specs.Faults.{demand};
ghost use Rattle.elf_bpf.specs.Words.{kind_word};

use sbpf_insn::{InsnFault, VerifyFault};

/// The kinds of faults, in the order in which they answer.
#[derive(Clone, Copy, Debug, PartialEq, Eq)]
pub enum ElfKind {
    /// Fewer than 64 bytes. The place is the byte count.
    Short,
    /// The first four bytes aren't 7f and `ELF`. The place of this and the next five kinds is the field's.
    Magic,
    /// It isn't of 64 bits.
    Class,
    /// It isn't little-endian.
    Order,
    /// It isn't relocatable.
    TypeField,
    /// It isn't for BPF.
    Machine,
    /// There are no section headers of 64 bytes, the name section isn't among them, or they pass the end.
    Table,
    /// The name section holds no strings, or passes the end. The place is its header's offset.
    Strings,
    /// No section has the name. The place is the number of headers.
    NoSection,
    /// The section is of another type, is compressed, or passes the end. The place is its header's offset.
    Section,
    /// The section has relocations. The place is the offset of the first header that has them.
    Relocated,
}

/// The first fault of an object, and its place.
#[derive(Clone, Copy, Debug, PartialEq, Eq)]
pub struct ElfFault {
    pub kind: ElfKind,
    pub place: u64,
}

/// Why an object gave no accepted code, in the order in which it is looked at.
#[derive(Clone, Copy, Debug, PartialEq, Eq)]
pub enum ElfErr {
    /// The object has this first fault.
    Elf(ElfFault),
    /// The section's bytes spell no code: the first fault.
    Insn(InsnFault),
    /// They spell code that may not be run: its first fault.
    Verify(VerifyFault),
    /// Memory ran out.
    NoMemory,
}

/// The word for a kind of fault.
pub fn kind_word(kind: ElfKind) -> &'static str
    ensures { result.now ≡ kind_word kind }
{
    match kind {
        ElfKind::Short => "short",
        ElfKind::Magic => "magic",
        ElfKind::Class => "class",
        ElfKind::Order => "order",
        ElfKind::TypeField => "type",
        ElfKind::Machine => "machine",
        ElfKind::Table => "table",
        ElfKind::Strings => "strings",
        ElfKind::NoSection => "nosection",
        ElfKind::Section => "section",
        ElfKind::Relocated => "relocated",
    }
}

/// The fault, unless this holds.
pub(crate) fn demand(holds: bool, kind: ElfKind, place: u64) -> Result<(), ElfFault>
    ensures value { result ≡ demand holds kind place }
    ensures holds { OnOk result (IsTrue holds) }
{
    if holds {
        Ok(())
    } else {
        Err(ElfFault { kind, place })
    }
}
