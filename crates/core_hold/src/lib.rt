//! Laws of the core: what an actor holds is changed by no other actor's event, and a Report hands a worker's part to the lane.
#![tactic(auto)]

pub mod laws;
