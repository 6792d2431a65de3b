//! A `sync` over a desk: blocks are flushed until none is unclean, then the pages of the meta data are written, and the call ends.
//!
//! In one turn the die of the next write goes out; it writes without the turn, and comes home in another one. Others may be at work
//! meanwhile.
#![tactic(auto)]

mod begin;
mod end;
mod homecoming;
mod pages;
mod stages;
mod step;
mod sync;
mod write;

pub use quick_calls::{Loading, System, quick_call, quick_call_alone, skip_call, skip_call_alone};
pub use stages::{Stage, SyncStep};
pub use step::sync_step;
pub use sync::{sync_call, sync_call_alone};
