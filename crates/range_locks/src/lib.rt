//! Ranges of file pages that calls hold, shared or each for one call alone.
#![tactic(auto)]

pub mod laws;
mod range;
mod ranges;
mod walks;

pub use index_lists::NoMemory;
pub use range::{Conflict, Mode};
pub use ranges::Ranges;
