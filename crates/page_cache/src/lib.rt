//! One side's cache of pages: a pool of frames that is made once, and its order of use.
#![tactic(auto)]

mod cache;

pub use cache::Cache;
pub use page_base::NoMemory;
