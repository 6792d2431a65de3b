//! The text of a run, from what its lanes were told.
#![tactic(auto)]

mod order;
mod printing;

pub use printing::{print_logs, reply_lines};
