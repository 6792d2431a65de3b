//! Scripts of calls as text: a script is read, or its first fault is named.
#![tactic(auto)]

mod awaits;
mod blocks;
mod building;
mod calls;
mod fault_lines;
mod faults;
mod lanes;
mod limits;
mod reading;
#[cfg(test)]
mod tests;
mod verb;

pub use faults::{ScriptErr, ScriptFault, ScriptKind};
pub use reading::read_script;
