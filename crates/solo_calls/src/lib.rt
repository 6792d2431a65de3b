//! The calls of a script, answered in the run of one thread: each kind by its call over the desk of the only pass.
#![tactic(auto)]

mod calls;
mod data;
mod lambda;
mod quick;
mod sync;

pub use calls::Calls;
pub use data::data_line;
pub use lambda::lambda_line;
pub use quick::quick_line;
pub use sync::sync_line;
