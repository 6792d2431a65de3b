//! Calls with a function, once they have begun, over a desk: at the host the call gathers its pages, runs its function and ends; for the drive
//! it is put into the queue, and ends once a worker has served it.
#![tactic(auto)]

mod drive;
mod host;
mod solo;
mod waiting;

pub use call_finishes::{System, finish_call, finish_call_alone};
pub use drive::finish_at_drive;
pub use host::{finish_at_host, finish_at_host_alone};
pub use solo::finish_at_drive_alone;
