//! The instructions of RFC 9669 in this project's profile: their types, their bytes, their meaning,
//! and which code may be run. Definitions stand in `specs/`; `Opcodes`, `Table`, `Decoded`,
//! `Arithmetic`, `Machine`, `Accepted` and `Refusal` are those that a reader has to believe.
#![tactic(auto)]

mod code;
mod decoding;
mod encoding;
mod fault;
mod form;
mod insn;
mod insn_decoding;
mod insn_encoding;
pub mod laws;
mod opcode;
mod slot;
#[cfg(test)]
mod tests;

pub use code::Code;
pub use decoding::{DecodeErr, decode};
pub use encoding::encode;
pub use fault::{InsnFault, InsnKind, VerifyFault, VerifyKind};
pub use insn::{AluOp, AtomicOp, Cond, Insn, Order, Reg, Size, Src};
