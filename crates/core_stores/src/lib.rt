//! Laws of the core: an End keeps a core coherent and moves the plain state as the plain machine says, so every run keeps a core coherent,
//! and the calls of a run are legal on plain files.
#![tactic(auto)]

pub mod laws;
