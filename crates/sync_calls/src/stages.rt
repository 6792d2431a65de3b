//! How far a `sync` is.
use plain_files::Numbered;

/// How far a `sync` is.
#[derive(Clone, Copy, Debug, PartialEq, Eq)]
pub enum Stage {
    /// It hasn't begun.
    Idle,
    /// Unclean blocks are flushed.
    Flush,
    /// So many pages of the meta data are written.
    Store { number: u32 },
    /// A die failed to write: its count of faults has risen.
    Failed,
}

/// What a step of a `sync` answers.
#[derive(Debug, Drop)]
pub enum SyncStep {
    /// It goes on at this stage.
    On { stage: Stage },
    /// It has ended.
    Replied { numbered: Numbered },
    /// Others are to go on first.
    Waits,
}
