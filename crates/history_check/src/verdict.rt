//! What a transcript is held to be.
use plain_files::Reply;

/// What a transcript is held to be. Numbers are those of its lines, from 1.
#[derive(Debug, Drop)]
pub enum Verdict {
    /// Its entries, of which there are so many, are a legal history that serves the script.
    Legal { calls: u64 },
    /// The entry of the number is the next call of its lane, but has another reply than this one.
    Differs { number: u64, expected: Reply },
    /// The entry of the number isn't the next call of its lane, or what it awaits hasn't come; or no
    /// entry has the number, and calls are left.
    Order { number: u64 },
}
