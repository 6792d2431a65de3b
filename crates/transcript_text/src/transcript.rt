//! A transcript, and why a text is none.
ghost use Rattle.std.specs.Prelude.{◌≡◌};
ghost use Rattle.transcript_text.specs.declared.transcript.ReplyErr.TheVariants.{NoMemory};

use edge_io::Listed;
use plain_files::Reply;
use std::alloc::{AllocError, AllocFailed};
use thiserror::Error;

/// The replies of a transcript, in the order of its lines.
#[derive(Drop)]
pub struct Transcript {
    /// The number of a lane, the number of a call in it from 1, and the call's reply.
    pub entries: Listed<(u32, u32, Reply)>,
}

/// Why reading a transcript gave none.
#[derive(Clone, Copy, Debug, PartialEq, Eq, Error)]
pub enum TranscriptErr {
    /// The first line that is refused, from 1.
    #[error("the transcript is wrong at line {line}")]
    Form { line: u32 },
    /// Memory ran out.
    #[error("memory ran out")]
    NoMemory,
}

// Why a part of a line gave nothing.
#[derive(Clone, Copy, Debug, PartialEq, Eq)]
pub enum ReplyErr {
    Form,
    NoMemory,
}

impl From<AllocError> for ReplyErr {
    ghost from_gives = { λ _ e. e ≡ NoMemory };

    fn from(_: AllocError) -> Self {
        ReplyErr::NoMemory
    }
}

impl<T: Drop> From<AllocFailed<T>> for ReplyErr {
    ghost from_gives = { λ _ e. e ≡ NoMemory };

    fn from(_: AllocFailed<T>) -> Self {
        ReplyErr::NoMemory
    }
}
