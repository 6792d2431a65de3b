//! From the joined passes of a crew to the calls of its lanes: what each post left says what the whole history is, and what each lane was told.
#![tactic(auto)]

pub mod laws;
