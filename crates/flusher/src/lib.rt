//! A flusher over a desk: it writes unclean blocks, one after the other, until the system is closing.
#![tactic(auto)]

mod step;
mod work;

pub use step::{FlusherStep, flusher_step};
pub use work::flusher_loop;
