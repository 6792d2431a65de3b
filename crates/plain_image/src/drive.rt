//! Drives as images have them.

use image_format::Meta;
use page_base::{Geometry, Page};
use plain_run::Plain;

/// A mounted drive: its sizes, and its files in a plain machine.
#[derive(Drop)]
pub struct PlainDrive {
    /// How many data blocks and dies it has.
    pub geometry: Geometry,
    /// The machine that has its files.
    pub plain: Plain,
}

/// An image that was opened.
#[derive(Drop)]
pub struct OpenedImage {
    /// The drive that it is of.
    pub drive: PlainDrive,
    /// Its meta data: files, places and written flags.
    pub meta: Meta,
    /// Its pages in order: those of the meta data, as version 2 has them, and then the data blocks.
    pub pages: Vec<Page>,
}
