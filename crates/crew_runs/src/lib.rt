//! The run of a crew over a system: a turn is made, each lane, worker and flusher does its work in a thread of its own, and once all of them
//! are joined the first pass ends the run, with the last sync where it is asked for.
#![tactic(auto)]

mod beginning;
mod closing;
mod logs;
mod run;

pub use run::{RunErr, run_lanes};
