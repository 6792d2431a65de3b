//! Replies of a scan.
ghost use Rattle.std.specs.Prelude.{◌≡◌};
ghost use Rattle.chunk_scan.specs.Replies.{as_reply};

use edge_io::Bytes;
use plain_files::Reply;

/// What a function gave on one piece.
#[derive(Debug, Drop)]
pub enum ScanReply {
    /// The first r0 bytes of its output.
    Res(Bytes),
    /// The instruction at a slot asked for bytes that it may not have.
    Access { address: u64, size: u32, slot: u32 },
    /// The call at a slot was too deep.
    Depth { slot: u32 },
    /// The function tells more bytes than its output has.
    OutLen { r0: u64 },
    /// It used up its fuel.
    Spent,
}

/// Why there are no replies.
#[derive(Clone, Copy, Debug, PartialEq, Eq)]
pub enum ScanErr {
    NoMemory,
}

impl ScanReply {
    /// The same as a reply of `readl`. Takes no memory.
    pub fn into_reply(self) -> Reply
        ensures { result ≡ as_reply self }
    {
        match self {
            ScanReply::Res(bytes) => Reply::Res(bytes),
            ScanReply::Access {
                address,
                size,
                slot,
            } => Reply::TrapAccess {
                address,
                size,
                slot,
            },
            ScanReply::Depth { slot } => Reply::TrapDepth { slot },
            ScanReply::OutLen { r0 } => Reply::TrapOutLen { r0 },
            ScanReply::Spent => Reply::Spent,
        }
    }
}
