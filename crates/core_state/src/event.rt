//! The events of the core. What an event does not name follows from the core before it.
use crate::actor::Actor;
use dispatcher::Side;
use edge_io::Bytes;
use plain_files::{Reply, Request};

/// What a die goes out for, other than the flush of a block.
#[derive(Debug, Drop)]
pub enum Purpose {
    /// To read the page at a place, from 0, of the span of a lane's call.
    Fill {
        /// Whose call it is.
        lane: u32,
        /// Which page of its span.
        i: u32,
    },
    /// To write a page of the meta data.
    Meta {
        /// Which one, from 0.
        page: u32,
        /// The 4,096 bytes to write.
        bytes: Bytes,
    },
}

/// One step of the core, made by one actor.
#[derive(Debug, Drop)]
pub enum Event {
    /// A lane begins.
    Enter {
        lane: u32,
    },
    /// A lane ends.
    Leave {
        lane: u32,
    },
    /// A call that needs no page is answered at once.
    Quick {
        lane: u32,
        request: Request,
        reply: Reply,
    },
    /// A call that hasn't begun is answered by `fault` or `nomemory`.
    Skip {
        lane: u32,
        request: Request,
        fault: bool,
    },
    /// A call gets its lock, its side and its frames.
    Begin {
        lane: u32,
        request: Request,
        side: Side,
    },
    /// The content of a page goes to a call that shares it.
    Copy {
        actor: Actor,
        lane: u32,
        i: u32,
    },
    /// The content of a page goes to a call that has it alone.
    Take {
        actor: Actor,
        lane: u32,
        i: u32,
    },
    /// A die leaves, to read a block's page or to write a page of the meta data.
    DieOut {
        actor: Actor,
        die: u32,
        purpose: Purpose,
    },
    /// A die comes home from a read; `good` says whether it succeeded.
    FillIn {
        actor: Actor,
        die: u32,
        good: bool,
    },
    /// A call goes into the drive's queue.
    Submit {
        lane: u32,
    },
    /// A worker takes the first call of the queue.
    Fetch {
        worker: u32,
        lane: u32,
    },
    /// A worker hands a call back, with what its function gave.
    Report {
        worker: u32,
        lane: u32,
    },
    /// A call gets its number and its reply.
    End {
        lane: u32,
        request: Request,
        reply: Reply,
    },
    /// A copy goes.
    Evict {
        actor: Actor,
        side: Side,
        block: u32,
    },
    /// A copy moves from the host to the drive.
    Demote {
        actor: Actor,
        block: u32,
    },
    /// A die leaves, to write a block's page.
    FlushOut {
        actor: Actor,
        die: u32,
        block: u32,
    },
    /// A die comes home from the write of a block's page; where it failed, `left` is what the page has now.
    FlushIn {
        actor: Actor,
        die: u32,
        good: bool,
        left: Bytes,
    },
    /// A die comes home from the write of a page of the meta data, with the same.
    MetaIn {
        actor: Actor,
        die: u32,
        good: bool,
        left: Bytes,
    },
}
