//! Lanes, workers and flushers, each in a thread of its own, over one turn.
#![tactic(auto)]

mod seating;
mod threads;
mod working;

pub use seating::{Crew, seat_all};
pub use threads::run_posts;
pub use working::work_all;
