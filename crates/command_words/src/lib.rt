//! The grammar of the words behind the program's own name: which command they ask for.
#![tactic(auto)]

mod command;
mod commands;
mod numbers;
mod options;
mod params;
mod pieces;
mod places;
mod quiet;

pub use command::{Command, Quiet, Run, Scan};
pub use commands::{command_of, quiet_of, scan_command};
pub use options::{Crew, DieKind, Setup};
pub use params::Param;
pub use pieces::Pieces;
pub use places::Width;

#[cfg(test)]
mod tests;
