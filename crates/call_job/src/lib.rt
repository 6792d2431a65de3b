//! The buffers of a call and its run: all are taken before the call begins, and nothing takes memory afterwards.
#![tactic(auto)]

mod arming;
mod copies;
mod cutting;
mod ending;
mod execution;
mod finishing;
mod job;
pub mod laws;
mod preparing;
mod reading;
mod storing;
mod writing;

pub use job::Job;
pub use preparing::{PrepareErr, Prepared};
pub use storing::Finished;
