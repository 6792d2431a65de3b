//! The last sync over a desk, by the closer: blocks are flushed until none is unclean, and then the pages of the meta data are written.
//!
//! In one turn the die of the next write goes out; it writes without the turn, and comes home in another one. Flushers may be at work
//! meanwhile.
#![tactic(auto)]

mod homecoming;
mod last_sync;
mod next;
mod step;
mod turn;

pub use last_sync::{Settled, settle, settle_alone};
pub use next::{Next, try_next};
pub use page_steps::System;
pub use step::{SettleStep, settle_step};
pub use turn::turn_next;
