//! The calls of lanes and the work of workers in a crew, each by its call over a desk of one pass among others.
#![tactic(auto)]

mod calls;
mod hands;

pub use calls::{data_answer, lambda_answer, quick_answer, sync_answer};
pub use hands::CallHands;
