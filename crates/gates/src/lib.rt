//! Where a run lets others look in: before a function runs, and after a reply.
#![tactic(auto)]

/// It is called without the turn, so that it may wait. It can't reach the system, and answers nothing.
pub trait Gate {
    /// The function of this lane's call is about to run.
    fn before_run(&self, lane: u32);

    /// This lane's call number `k` was replied to, and its next one hasn't begun.
    fn replied(&self, lane: u32, k: u32);
}

/// A gate that does nothing.
#[derive(Clone, Copy, Debug, Drop)]
pub struct OpenGate;

impl Gate for OpenGate {
    fn before_run(&self, _lane: u32) {}

    fn replied(&self, _lane: u32, _k: u32) {}
}
