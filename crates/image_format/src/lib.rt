//! Images of a drive: reading them with their faults, and the meta data in their pages.
#![tactic(auto)]

mod bitmap;
mod bits;
mod entries;
mod faults;
mod header;
mod image;
pub mod laws;
mod layout;
mod meta;
mod mounting;
mod numbers;
mod pages;
mod records;
mod tails;

pub use bits::Bits;
pub use faults::{ImageFault, ImageKind, MountErr};
pub use header::Header;
pub use image::image_of;
pub use meta::{Meta, empty_meta};
pub use mounting::mount;
pub use pages::meta_page;

#[cfg(test)]
mod tests;
