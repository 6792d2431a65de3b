//! Pages of 4,096 bytes, the words on the bytes of files and pages, and the geometry of a drive.
#![tactic(auto)]

mod geometry;
mod page;

pub use geometry::Geometry;
pub use page::{DieFault, NoMemory, Page};
