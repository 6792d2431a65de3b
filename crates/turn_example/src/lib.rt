//! An example of code over a turn: a counter that is handed from pass to pass, by loops and by threads.
#![tactic(auto)]

mod add;
mod counter;
mod crew;
mod ends;
mod job;
mod pair;
mod raise;
mod share;
#[cfg(test)]
mod tests;

pub use add::{add_once, add_seated};
pub use counter::{Add, Counter, Start, empty};
pub use crew::{run_all, run_job};
pub use ends::GiveUp;
pub use job::Job;
pub use pair::two;
pub use raise::{raise_alone, raise_once, raise_seated};
pub use share::{add_all, join_all, seat_all};
