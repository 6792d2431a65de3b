//! Lemmas on the core machine that the laws of all kinds of events share. It has no code.
#![tactic(auto)]
