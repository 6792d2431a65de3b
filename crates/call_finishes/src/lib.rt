//! Data calls without a function, once they have begun at the host, over a desk: the call gathers its pages and ends.
//!
//! A page that can't be read ends the call with a fault.
#![tactic(auto)]

mod finish;

pub use fill_steps::{fill_span, fill_span_alone};
pub use finish::{finish_call, finish_call_alone};
pub use job_turns::{System, turn_begin_job, turn_collect_job, turn_end_job, turn_submit};
