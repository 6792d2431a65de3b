//! Laws of the core: the events of lanes and workers before a call's end, those by which a die goes out, and MetaIn keep a core coherent.
#![tactic(auto)]

pub mod laws;
