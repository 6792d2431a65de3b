//! What the tables tell of a call before it begins: its file and its function, an early refusal, and what it locks and spans.
#![tactic(auto)]

mod claims;
mod finding;
mod reach;
mod refusals;

pub use claims::claim_for;
pub use finding::{file_for, file_named, function_named};
pub use reach::reach_of;
pub use refusals::{early, is_too_long};
