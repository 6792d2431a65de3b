//! Steps that calls over a desk share: a flush, and room for a call.
#![tactic(auto)]

mod making;
mod room;
mod turn;

pub use event_turns::{
    Begun, Flushed, Loading, MetaOut, System, flush_home, flush_once, try_begin, try_quick,
    turn_closing, turn_copy, turn_enter, turn_fetch, turn_fill_in, turn_flush_in, turn_leave,
    turn_meta_in, turn_meta_out, turn_report, turn_skip, turn_submit, turn_take,
};
pub use making::{Made, make_room};
pub use room::{Given, Move, try_room};
pub use turn::turn_room;
