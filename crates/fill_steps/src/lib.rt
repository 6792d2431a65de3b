//! The pages of a call over a desk: whoever owns the call gathers them into its job, the lowest first.
//!
//! A page that is in neither cache is read by its die: the die goes out in one turn, reads without the turn, and comes home in another one.
#![tactic(auto)]

mod home;
mod page;
mod span;
mod step;

pub use event_turns::{System, turn_fetch, turn_report};
pub use page::FillStep;
pub use span::{fill_span, fill_span_alone};
pub use step::fill_step;
