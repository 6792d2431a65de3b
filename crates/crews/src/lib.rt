//! Posts of a crew: lanes, workers and flushers, each with a pass of one turn. Each post's actor does its work by its own pass, and the passes
//! are joined to the first one.
#![tactic(auto)]

mod hands;
mod joining;
mod lane;
mod looking;
mod post;
mod running;

pub use hands::Hands;
pub use joining::join_all;
pub use lane::run_lane;
pub use looking::look;
pub use post::Post;
pub use running::run_post;
