//! Laws of the core: the events on copies, and those that bring a die home with a block's page, keep a core coherent.
#![tactic(auto)]

pub mod laws;
