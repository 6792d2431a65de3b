//! The core machine as the layers above see it: its actors and events, and the laws of all its runs.
#![tactic(auto)]

pub mod laws;

pub use core_state::{Actor, Event, Purpose};
