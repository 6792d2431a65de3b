//! What `scan` prints: the replies of a function on each piece of a file.
#![tactic(auto)]

mod lines;
mod scanning;
#[cfg(test)]
mod tests;

pub use lines::scan_lines;
pub use scanning::{LinesErr, scanned_lines};
