//! The plain machine: it answers calls one at a time on files that are whole vectors of bytes, and runs functions over flat
//! regions. It is slow and has nothing to go wrong, and it is what every faster body is compared with.
#![tactic(auto)]

mod contents;
mod early;
mod files;
mod functions;
pub mod laws;
mod plain;
mod running;
#[cfg(test)]
mod tests;

pub use plain::Plain;
