//! What the `fault` lines of a script come to: which of them speak of what a drive lacks, and the plans of its dies.
#![tactic(auto)]

pub mod laws;
mod missing;
mod planning;

pub use missing::{first_missing, is_missing};
pub use planning::{numbers_of, plan_for, plans};

#[cfg(test)]
mod tests;
