//! Histories whose die events fail as the plans of dies say, or as a script's fault lines do, and what plans determine, as laws over definitions
//! alone.
#![tactic(auto)]

pub mod laws;
