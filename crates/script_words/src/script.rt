//! A script: lanes with their calls, and what is to fail.
use edge_io::{Listed, Text};
use plain_files::Request;

/// A lane: its name of 1 to 16 lower-case letters and digits, and its requests in their order.
#[derive(Drop)]
pub struct Lane {
    /// The name, without the colon.
    pub name: Text,
    /// The calls of the lane.
    pub requests: Listed<Request>,
}

/// A read or a write of a die that is to fail.
#[derive(Clone, Copy, Debug, PartialEq, Eq)]
pub struct FaultLine {
    /// The line's number in the script, from 1.
    pub line: u32,
    /// The die, 0 to 15.
    pub die: u32,
    /// Whether a write fails, and no read.
    pub writing: bool,
    /// Which read or write of the die, from 1.
    pub nth: u32,
    /// Whether it is one of the die's second copy.
    pub copy: bool,
}

/// Lanes with their calls, the order of the lines, and what is to fail.
#[derive(Drop)]
pub struct Script {
    /// The lanes, numbered from 0 as they first appear.
    pub lanes: Listed<Lane>,
    /// The calls in line order: the number of a lane, and the number of a call in it, from 1.
    pub order: Listed<(u32, u32)>,
    /// The `fault` lines in line order.
    pub faults: Listed<FaultLine>,
}
