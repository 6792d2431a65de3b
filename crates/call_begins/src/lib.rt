//! A data call or a `sync` begins over a desk, with room made for it.
#![tactic(auto)]

mod room;
mod step;

pub use quick_calls::{System, skip_call, skip_call_alone};
pub use step::{BeginStep, Stage, begin_step};
