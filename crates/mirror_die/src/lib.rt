//! Mirrors: two dies that hold the same pages and stand for one.
#![tactic(auto)]

mod copies;
mod freshness;
pub mod laws;
mod mirror;

pub use mirror::{MirrorDie, MirrorErr, RebuildErr};

#[cfg(test)]
mod tests;
