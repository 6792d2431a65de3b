//! The run of `bench`: a drawn script over an image on one thread, and the two lines that tell of it.
#![tactic(auto)]

mod fed;
pub mod laws;
mod lines;
mod run;

pub use drive_runs::{CrewErr, DriveImage, DriveRun, run_crew, run_drive};
pub use run::bench_lines;
