//! All lanes enter, and all lanes leave, by the only pass of a turn: the first part of the run of one thread, and the last one before its
//! last sync.
#![tactic(auto)]

mod entering;
mod leaving;

pub use entering::enter_all;
pub use leaving::leave_all;
