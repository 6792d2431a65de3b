//! Predicates over records of a fixed width: their nodes, their fields, and the records that satisfy one.
#![tactic(auto)]

mod fields;
mod nodes;
mod pred;
mod selecting;
#[cfg(test)]
mod tests;

pub use fields::field_fault;
pub use nodes::count_nodes;
pub use pred::{Pred, PredCond};
pub use selecting::{satisfies, select};
