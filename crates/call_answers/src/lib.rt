//! Laws of the core: what the plain machine answers a call in flight, by the bytes of its pages.
#![tactic(auto)]

pub mod laws;
