// Why a text is no code.
ghost use Rattle.std.specs.Prelude.{◌≡◌};
ghost use Rattle.sbpf_text.specs.declared.fault.LineErr.TheVariants.{NoMemory};

use std::alloc::AllocError;

/// What is wrong with a line, in the order in which it is looked for. `Unknown` and `Range` are looked
/// for after all lines, again by rising line.
#[derive(Clone, Copy, Debug, PartialEq, Eq)]
pub enum AsmKind {
    /// A byte other than printable ASCII and tab, in a comment too.
    Char,
    /// A label that is ill formed, or that an earlier line has.
    Label,
    /// No instruction has this word.
    Word,
    /// A wrong count of operands, or an operand of another form than its place asks for.
    Operand,
    /// In a register's place, another than `r0` to `r10`.
    Register,
    /// In a number's place, one that is ill formed or out of range.
    Number,
    /// The instruction would go past slot 4,095.
    Long,
    /// A target that no line has as its label.
    Unknown,
    /// A label too far for the instruction's field. No text has this fault.
    Range,
}

/// The first fault of a text, and its line, counted from 1.
#[derive(Clone, Copy, Debug, PartialEq, Eq)]
pub struct AsmFault {
    pub line: u32,
    pub kind: AsmKind,
}

/// Why a text gives no code: its first fault, or want of memory.
#[derive(Clone, Copy, Debug, PartialEq, Eq)]
pub enum TextErr {
    Asm(AsmFault),
    NoMemory,
}

/// Why a line gives nothing: its fault, or want of memory.
#[derive(Clone, Copy)]
pub(crate) enum LineErr {
    Kind(AsmKind),
    NoMemory,
}

impl From<AllocError> for LineErr {
    ghost from_gives = { λ _ e. e ≡ NoMemory };

    fn from(_: AllocError) -> Self {
        LineErr::NoMemory
    }
}

impl From<AsmKind> for LineErr {
    ghost use Rattle.sbpf_text.specs.declared.fault.LineErr.TheVariants.{Kind};

    ghost from_gives = { λ kind e. e ≡ Kind kind };

    fn from(kind: AsmKind) -> Self {
        LineErr::Kind(kind)
    }
}
