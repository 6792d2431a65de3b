//! Laws of the core: a call that ends and stores nothing keeps a core coherent, and leaves the plain state.
#![tactic(auto)]

pub mod laws;
