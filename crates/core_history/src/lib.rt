//! Laws of the core on whole runs that need no coherence: how far versions and numbers rise, that a call stands behind those that it
//! awaits, and that each `fault` has its failed die.
#![tactic(auto)]

pub mod laws;
