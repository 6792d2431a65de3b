//! The core machine, as definitions: its state, what holds of it, what may happen and what that does. Nothing here runs.
//! The layer above keeps such a state in memory, and shows that each of its methods is one event.
#![tactic(auto)]

mod actor;
mod event;
pub mod laws;

pub use actor::Actor;
pub use event::{Event, Purpose};
