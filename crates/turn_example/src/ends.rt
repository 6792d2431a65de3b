//! Why work over a turn gave up.
use crate::counter::Counter;
use turn_cell::Pass;

/// Why not everything was added.
#[derive(Drop)]
pub enum GiveUp {
    /// Memory ran out.
    NoMemory,
    /// A take found the turn worn, by this pass, which tells it.
    Worn(Pass<Counter>),
}
