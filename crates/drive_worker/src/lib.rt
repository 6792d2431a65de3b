//! Workers of the drive over a desk: a worker takes the first call of the queue, gathers its pages, runs its function and reports it.
//!
//! Pages are read, and functions run, without the turn.
#![tactic(auto)]

mod call;
mod running;
mod serve;
mod work;

pub use serve::{Served, serve_one, serve_one_alone};
pub use work::worker_loop;
