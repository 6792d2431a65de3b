//! An image spread over the dies of a drive, and gathered again: one list of pages cut by die and
//! joined.
#![tactic(auto)]

mod gathering;
pub mod laws;
mod mirroring;
mod over_ftl;
mod share;
mod spreading;

pub use gathering::{GatherErr, gather};
pub use mirroring::spread_mirror;
pub use over_ftl::spread_ftl;
pub use spreading::spread;

#[cfg(test)]
mod tests;
