//! What one thread has.
use core_state::Actor;
use flash_die::Die;
use page_base::Page;
use page_steps::System;
use plain_files::{Numbered, Request};
use system_state::CallJob;
use turn_cell::Pass;

/// An actor with a pass of the turn, and all that its thread needs besides.
#[derive(Drop)]
pub struct Post<D: Die, J: CallJob> {
    /// None while the thread has it, and once it is joined.
    pub pass: Option<Pass<System<D, J>>>,
    /// Whose events the thread makes: a lane's, a worker's or a flusher's.
    pub actor: Actor,
    /// A lane's requests, in order.
    pub requests: Vec<Request>,
    /// Their replies, in order. It has room for all of them before the thread starts.
    pub log: Vec<Numbered>,
    /// For pages on their way to a die.
    pub page: Page,
}
