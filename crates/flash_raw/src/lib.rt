//! Raw flash: pages that are programmed one by one and erased by blocks, what is told of it, and one in memory.
#![tactic(auto)]

mod calls;
mod erasing;
mod raw_flash;
mod raw_mem;
mod raw_page;

pub use raw_flash::RawFlash;
pub use raw_mem::RawMem;

#[cfg(test)]
mod tests;
