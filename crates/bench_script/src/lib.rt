//! The script that `bench` runs, drawn from a number, and the line that names its transcript.
#![tactic(auto)]

mod digest;
mod draws;
mod script;

pub use digest::digest_line;
pub use script::make_script;

#[cfg(test)]
mod tests;
