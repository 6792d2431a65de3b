//! The bytes of a call in the pages of its span: they are read, written and run over where they lie, without memory.
//!
//! A span is a list of pages. Its byte q is byte q mod 4,096 of page q / 4,096, so a call's bytes begin at the place of their first byte
//! in the first page.
#![tactic(auto)]

mod pages;
mod runs;

pub use pages::{copy_span, patch_span, read_span};
pub use runs::{Ran, run_reading, run_writing};
