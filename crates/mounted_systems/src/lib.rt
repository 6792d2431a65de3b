//! Systems over dies that have an image: the system of a drive that was mounted, over dies of each kind, and the image of a system's dies.
//!
//! An image's pages are dealt to the dies in turn, the system starts on them, and in the end the dies' pages are gathered again.
#![tactic(auto)]

mod closing;
mod opening;

pub use closing::gather_system;
pub use drive_array::GatherErr;
pub use opening::{open_ftl, open_memory, open_mirror};
pub use system_start::Options;
