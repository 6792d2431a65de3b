//! Names of files and functions, and the table of a drive's files.
#![tactic(auto)]

mod files;
mod index;
mod naming;

pub use files::{FileRec, NameErr, Names};
pub use naming::Name;

#[cfg(test)]
mod tests;
