//! Laws of mounted images: they are whole, their pages are an image again, and the pages of a drive are its image.
#![tactic(auto)]

pub mod laws;
