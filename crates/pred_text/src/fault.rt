//! What is wrong with a text.
ghost use Rattle.std.specs.Prelude.{◌≡◌};
ghost use Rattle.pred_text.specs.Words.{fault_word};

use std::alloc::AllocError;

/// The kinds of faults.
#[derive(Clone, Copy, Debug, PartialEq, Eq)]
pub enum PredKind {
    /// The 201st node begins here.
    Nodes,
    /// A number may stand here. There is another run of bytes, or a number that is too great.
    Number,
    /// Another token may stand here, or none; or one is wanting at the text's end.
    Form,
}

/// The first faulty token, by its offset.
#[derive(Clone, Copy, Debug, PartialEq, Eq)]
pub struct PredFault {
    pub at: u64,
    pub kind: PredKind,
}

/// Why a text gave no predicate.
#[derive(Clone, Copy, Debug, PartialEq, Eq)]
pub enum PredTextErr {
    /// It has this first fault.
    Text(PredFault),
    /// Memory ran out.
    NoMemory,
}

impl From<AllocError> for PredTextErr {
    ghost use Rattle.std.specs.Prelude.{◌≡◌};
    ghost use Rattle.pred_text.specs.declared.fault.PredTextErr.TheVariants.{NoMemory};

    ghost from_gives = { λ _ e. e ≡ NoMemory };

    fn from(_: AllocError) -> Self {
        PredTextErr::NoMemory
    }
}

/// The word for a kind of fault.
pub fn fault_word(kind: PredKind) -> &'static str
    ensures { result.now ≡ fault_word kind }
{
    match kind {
        PredKind::Nodes => "nodes",
        PredKind::Number => "number",
        PredKind::Form => "form",
    }
}
