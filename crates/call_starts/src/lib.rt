//! A data call or a `sync` goes on over a desk until it has begun or has ended: room is made for it, step by step.
//!
//! Among other passes it waits for those that are in its way. By the only pass nobody is, and it goes on to its begin or its end.
#![tactic(auto)]

mod start;

pub use call_begins::{System, skip_call, skip_call_alone};
pub use start::{Beginning, begin_call, begin_call_alone};
