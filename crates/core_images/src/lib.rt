//! A core and its image, as laws over definitions alone: what a core is opened from, the meta pages that it has, and what it mounts to once
//! all is stored.
#![tactic(auto)]

pub mod laws;
