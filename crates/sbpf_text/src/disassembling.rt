// The text of code.
ghost use Rattle.std.specs.Prelude.{◌≡◌, ◌≤◌, ◌++◌, Ok, OnOk, IfOk, string_bytes};
ghost use Rattle.sbpf_insn.specs.Cells.{slots, insns};
ghost use Rattle.sbpf_text.specs.Asm.{asm};
ghost use Rattle.sbpf_text.specs.Print.{text_of};

use crate::printing::put_insn;
use edge_io::Text;
use sbpf_insn::{Code, Insn};
use std::alloc::{AllocError, Global};

// The line of the instruction that begins at a slot, if one does.
#[tactic(auto, using(crate::proofs::CellTexts::text_of_one))]
fn put_cell(text: &mut String, cell: Option<Insn>) -> Result<(), AllocError>
    ensures { OnOk result (string_bytes text.new ≡ string_bytes text.old ++ text_of (insns cell)) }
{
    match cell {
        Some(insn) => put_insn(text, insn),
        None => Ok(()),
    }
}

fn listing(alloc: Global, code: &Code) -> Result<String, AllocError>
    ensures text { IfOk result (λ s. string_bytes s ≡ text_of code.now.insns) }
    ensures again { IfOk result (λ s. slots code.now.insns ≤ 4096 → asm (string_bytes s) ≡ Ok code.now.insns) }
{
    let mut text = String::new(alloc);
    for slot in 0..code.slots() {
        put_cell(&mut text, code.at_slot(slot))?;
    }
    Ok(text)
}

/// The text of code: a line for each instruction, with no labels. Of code of at most 4,096 slots
/// `assemble` gives the code back.
pub fn disassemble(alloc: Global, code: &Code) -> Result<Text, AllocError>
    ensures text { IfOk result (λ text. text ≡ text_of code.now.insns) }
    ensures again { IfOk result (λ text. slots code.now.insns ≤ 4096 → asm text ≡ Ok code.now.insns) }
{
    Ok(Text::new(listing(alloc, code)?))
}
