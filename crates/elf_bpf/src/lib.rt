//! A function out of a relocatable ELF64 object: the code of a named section that has no relocations.
#![tactic(auto)]

mod fault;
mod numbers;
mod reading;
mod section;
mod table;
#[cfg(test)]
mod tests;

pub use fault::{ElfErr, ElfFault, ElfKind, kind_word};
pub use reading::read_elf;
