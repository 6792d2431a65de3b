//! What the lanes of a run are told: the replies to their calls, with their numbers.
#![tactic(auto)]

mod logs;

pub use logs::{LaneLog, empty_logs, note};
