//! Calls with their buffers begin and end over a desk, a turn for each.
#![tactic(auto)]

mod beginning;
mod collecting;
mod ending;

pub use beginning::turn_begin_job;
pub use collecting::turn_collect_job;
pub use ending::turn_end_job;
pub use job_events::{System, turn_submit};
