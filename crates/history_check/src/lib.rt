//! Whether a transcript is one legal history of a script's calls on plain files.
#![tactic(auto)]

mod checking;
pub mod laws;
mod replies;
mod verdict;

pub use checking::check_history;
pub use verdict::Verdict;

#[cfg(test)]
mod tests;
