//! Which data block each page of each file has.
#![tactic(auto)]

mod map;
mod order;
mod owners;
mod places;

pub use map::ExtentMap;
pub use places::{Extent, NoSpace, Place, Taken};

#[cfg(test)]
mod tests;
