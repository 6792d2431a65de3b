//! The system of a drive: files, blocks, both caches, locks, lanes and dies, as one value. Each of its methods makes one event of the
//! core machine, or answers why it can't be made yet and changes nothing.
//!
//! A system is the book of a turn: passes take it, make an event or none, and give it back.
#![tactic(auto)]

mod book;
mod calls;
mod dies;
mod lanes;
mod pages;
mod system;

pub use pages::Step;
pub use system::System;
pub use system_quick::{Begun, Loading, try_begin, try_quick};
pub use system_start::Options;
pub use system_state::{Errand, NotYet, Places};
