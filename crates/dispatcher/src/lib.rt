//! Where a call that runs a function goes, the host or the drive, by what it would cost there.
#![tactic(auto)]

mod costs;
mod side;

pub use costs::{Counts, Profile, learn, pick};
pub use side::{Place, Side};
