//! Laws of the core: a call that is answered at once keeps a core coherent, whatever files and functions it makes, seals or takes away,
//! and moves the plain state as the plain machine says.
#![tactic(auto)]

pub mod laws;
