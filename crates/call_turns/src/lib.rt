//! Calls begin and end over a desk, a turn for each.
#![tactic(auto)]

mod beginning;
mod ending;
pub mod laws;
mod quick;

pub use beginning::turn_begin;
pub use ending::turn_end_sync;
pub use page_steps::{
    Begun, Flushed, Loading, Made, MetaOut, System, flush_home, flush_once, make_room, try_begin,
    try_quick, turn_closing, turn_copy, turn_enter, turn_fetch, turn_fill_in, turn_flush_in,
    turn_leave, turn_meta_in, turn_meta_out, turn_report, turn_skip, turn_submit, turn_take,
};
pub use quick::turn_quick;
