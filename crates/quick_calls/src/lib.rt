//! Calls that one event ends, over a desk: calls that need no page, and calls that find no memory before they begin.
//!
//! Among other passes a call waits for those that are in its way. By the only pass none is, and it returns.
#![tactic(auto)]

mod quick;
mod skip;

pub use call_turns::{
    Begun, Loading, Made, MetaOut, System, make_room, turn_begin, turn_end_sync, turn_flush_in,
    turn_meta_in, turn_meta_out, turn_skip,
};
pub use quick::{quick_call, quick_call_alone};
pub use skip::{skip_call, skip_call_alone};
