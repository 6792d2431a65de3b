//! One function is run on each piece of a file, in parallel. The replies are those of `readl` on the pieces, in their order.
#![tactic(auto)]

pub mod laws;
mod piece;
mod reply;
mod run;
mod scanning;
#[cfg(test)]
mod tests;

pub use piece::{is_within_limits, piece_count};
pub use reply::{ScanErr, ScanReply};
pub use run::reply_on;
pub use scanning::scan;
