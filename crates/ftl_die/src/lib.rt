//! A die over raw flash: an out-of-place map, a buffer, and the collection of erase blocks.
#![tactic(auto)]

mod collection;
mod ftl_die;
mod layout;
mod loading;
mod place;
mod steps;

pub use ftl_die::{FtlDie, FtlErr};

#[cfg(test)]
mod tests;
