//! The interpreter: runs code over the regions of a call, which it reads and writes where they lie.
#![tactic(auto)]

mod cells;
mod cpu;
mod flatten;
mod interpreter;
mod number;
mod pages;
mod quick;
mod region;
mod regions;
mod step;
#[cfg(test)]
mod tests;

pub use interpreter::{Outcome, TrapKind, run};
pub use region::Region;
pub use regions::{RegionErr, Regions};
