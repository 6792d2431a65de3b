//! Which code may be run, and where it comes from: the verifier, bytes of code, and object files.
#![tactic(auto)]

mod loading;
mod object;
mod rules;
#[cfg(test)]
mod tests;
mod verifying;

pub use loading::{CodeErr, load_code};
pub use object::{ObjectErr, read_object, write_object};
pub use verifying::{Unverified, Verified, verify};
