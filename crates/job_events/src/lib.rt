//! The events of calls with their buffers: what a call begins with goes into its job in the same event, and what it ends with comes from it.
#![tactic(auto)]

mod beginning;
mod ending;
mod tables;

pub use beginning::begin_job;
pub use call_turns::{Begun, System, turn_submit};
pub use ending::{end_job, try_collect_job};
