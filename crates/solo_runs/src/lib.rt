//! The run of one thread: all lanes enter, the lines of a script are answered one after the other, all lanes leave, and where it is asked for
//! the last sync follows.
//!
//! How a line is answered is a `LineCalls`: the run is proved once for all of them.
#![tactic(auto)]

mod line_calls;
mod lines;
mod making;
mod run;
mod turns;

pub use line_calls::LineCalls;
pub use making::make_run;
pub use run::{Ran, run_over};
pub use settling::Settled;
pub use turns::stored_settles;
