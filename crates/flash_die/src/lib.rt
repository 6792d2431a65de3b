//! Dies: pages that are read and written whole and may fail, what is told of a die, and one in memory.
#![tactic(auto)]

mod die;
mod die_mem;
mod plan;
mod steps;

pub use die::Die;
pub use die_mem::DieMem;
pub use plan::Plan;
pub use steps::{bounded, is_listed};

#[cfg(test)]
mod tests;
