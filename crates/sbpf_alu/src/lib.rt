//! What the operators of instructions compute: arithmetic, moves with sign extension, byte swaps,
//! tests and atomic operations. Each function is total, takes no memory, and equals its definition
//! in `Rattle.sbpf_insn.specs.Arithmetic`.
#![tactic(auto)]

mod arithmetic;
mod atomic;
mod compare;
mod moves;
#[cfg(test)]
mod tests;

pub use arithmetic::{alu32, alu64};
pub use atomic::{atomic32, atomic64};
pub use compare::{compare32, compare64};
pub use moves::{movsx, swap};
