//! Code as assembler text: `assemble` gives the code of a text or its first fault, and `disassemble`
//! the text of code.
#![tactic(auto)]

mod assembling;
mod disassembling;
mod fault;
mod forms;
mod instruction;
mod labels;
pub mod laws;
mod lexing;
mod mnemonic;
mod numbers;
mod operand;
mod operand_lists;
mod operands;
mod printing;
mod words;

pub use assembling::{assemble, assemble_bytes};
pub use disassembling::disassemble;
pub use fault::{AsmFault, AsmKind, TextErr};

#[cfg(test)]
mod tests;
