//! What `select` prints: the numbers of the records of a file that satisfy a predicate.
#![tactic(auto)]

mod files;
mod lines;

pub use files::file_named;
pub use lines::{select_lines, selected_lines};

#[cfg(test)]
mod tests;
