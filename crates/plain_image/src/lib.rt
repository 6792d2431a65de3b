//! An image as a plain machine.
#![tactic(auto)]

mod drive;
pub mod laws;
mod loading;
mod pages;

pub use drive::{OpenedImage, PlainDrive};
pub use loading::open_image;

#[cfg(test)]
mod tests;
