//! Why a script is refused.
ghost use Rattle.std.specs.Prelude.{◌≡◌};
ghost use Rattle.call_text.specs.declared.faults.LineErr.TheVariants.{NoMemory};
ghost use Rattle.call_text.specs.declared.faults.ScriptErr.TheVariants as script_errors;

use sbpf_text::AsmFault;
use std::alloc::{AllocError, AllocFailed};
use thiserror::Error;

/// What is wrong with a line, in the order in which it is looked for.
#[derive(Clone, Copy, Debug, PartialEq, Eq)]
pub enum ScriptKind {
    /// The script has more than 16 MiB; or the line has the 33rd lane or the 10,001st call, or brings the call bytes
    /// above 2^28.
    Limit,
    /// A byte other than printable ASCII and tab.
    Char,
    /// The line has no form, or a wrong count of words; a block without an end.
    Line,
    /// An ill formed lane.
    Lane,
    /// A `fault` line behind a lane line.
    Order,
    /// In a number's place, another word or a number out of range.
    Number,
    /// Ill formed bytes or code.
    Bytes,
    /// An ill formed or doubled name of a block, or a name above 128 bytes.
    Name,
    /// No block has the name.
    Func,
    /// An ill formed call in an `await`, one that stands on no earlier line, a second `await`, or an `await` without a
    /// call behind it.
    Await,
}

/// The first line that is wrong, and what is wrong there.
#[derive(Clone, Copy, Debug, PartialEq, Eq)]
pub struct ScriptFault {
    /// The line's number, from 1; 0 for the script as a whole.
    pub line: u32,
    /// What is wrong.
    pub kind: ScriptKind,
}

/// Why reading a script gave none.
#[derive(Clone, Copy, Debug, PartialEq, Eq, Error)]
pub enum ScriptErr {
    /// A line is wrong.
    #[error("the script is wrong at line {}", .0.line)]
    Script(ScriptFault),
    /// The assembler text of a block is wrong, at this line of the script.
    #[error("the text of a block is wrong at line {}", .0.line)]
    Asm(AsmFault),
    /// Memory ran out.
    #[error("memory ran out")]
    NoMemory,
}

impl From<AllocError> for ScriptErr {
    ghost from_gives = { λ _ e. e ≡ script_errors.NoMemory };

    fn from(_: AllocError) -> Self {
        ScriptErr::NoMemory
    }
}

// Why a line gave nothing.
#[derive(Clone, Copy, Debug, PartialEq, Eq)]
pub enum LineErr {
    Kind(ScriptKind),
    NoMemory,
}

impl From<AllocError> for LineErr {
    ghost from_gives = { λ _ e. e ≡ NoMemory };

    fn from(_: AllocError) -> Self {
        LineErr::NoMemory
    }
}

impl<T: Drop> From<AllocFailed<T>> for LineErr {
    ghost from_gives = { λ _ e. e ≡ NoMemory };

    fn from(_: AllocFailed<T>) -> Self {
        LineErr::NoMemory
    }
}
