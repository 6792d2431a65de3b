//! The text of a predicate: a predicate is read from it, or its first faulty token is told.
#![tactic(auto)]

mod fault;
mod opens;
mod place;
mod reading;
mod steps;
mod words;

pub use fault::{PredFault, PredKind, PredTextErr, fault_word};
pub use reading::read_pred;

#[cfg(test)]
mod tests;
