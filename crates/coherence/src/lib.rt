//! The caches of the host and of the drive, kept coherent: each block's copies with its flags and version.
#![tactic(auto)]

mod caches;
mod flags;
pub mod laws;
mod order;
mod pair;

pub use dispatcher::Side;
pub use page_base::NoMemory;
pub use pair::Pair;
