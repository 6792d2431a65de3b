//! Runs over the drive of an image: dies of the kind that is asked for are made with the script's plans, the calls are made by one thread in the
//! order of the lines or by a crew of many threads, and the image that the dies then have is gathered.
#![tactic(auto)]

mod crew;
mod image;
mod kinds;
mod requests;
mod running;
mod whole;

pub use crew::{CrewErr, run_crew};
pub use running::{DriveImage, DriveRun, run_drive};
