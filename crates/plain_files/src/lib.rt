//! Calls on plain files, their replies, and the machine that answers them one at a time, as definitions.
#![tactic(auto)]

mod calls;
pub mod laws;
mod words;

pub use calls::{Call, CodeKind, Numbered, PlainFile, Reply, Request, allowed};
pub use words::Word;
