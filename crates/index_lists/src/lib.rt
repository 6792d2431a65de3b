//! Intrusive doubly linked lists by index, over which orders of blocks, frames and calls are kept.
#![tactic(auto)]

mod links;
mod ring;

pub use links::{Links, NoMemory};
