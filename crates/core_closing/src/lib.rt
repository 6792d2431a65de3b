//! What a core keeps in which every lane has left: laws for the last sync, where flushers may still act.
#![tactic(auto)]

pub mod laws;
