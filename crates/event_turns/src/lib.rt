//! The events of the system over a desk, a turn for each: the book is taken, the event is made, and the book is given back.
//!
//! A turn asks what its actor knows of the core that it saw last, and says the event, the core in which it was made, and the answer; where
//! the system answers that it can't be made now, it says exactly why, and nothing was done.
#![tactic(auto)]

mod handing;
mod lanes;
pub mod laws;
mod metas;
mod pages;

pub use flushes::{
    Begun, Flushed, Loading, System, flush_home, flush_once, try_begin, try_quick, turn_flush_in,
};
pub use handing::{turn_fetch, turn_report, turn_submit};
pub use lanes::{turn_closing, turn_enter, turn_leave, turn_skip};
pub use metas::{MetaOut, turn_meta_in, turn_meta_out};
pub use pages::{turn_copy, turn_fill_in, turn_take};
