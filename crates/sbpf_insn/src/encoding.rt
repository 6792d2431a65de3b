//! Bytes of code.

ghost use Rattle.std.specs.Prelude.{◌≡◌, ◌++◌, IfOk, OnOk, IfSome, IsTrue, Ok, true};
ghost use Rattle.std.specs.List.{flat_map};
ghost use Rattle.sbpf_insn.specs.Decoded.{decoded};
ghost use Rattle.sbpf_insn.specs.Cells.{insns};
ghost use Rattle.sbpf_insn.specs.Ranges.{fits_fields};
ghost use Rattle.sbpf_insn.specs.Table.{Spells, spelling, is_well_formed};

use crate::code::Code;
use crate::insn::Insn;
use crate::insn_encoding::put_insn;
use std::alloc::{AllocError, Global};

// The bytes of the instruction that begins at a slot, if one does.
fn put_cell(bytes: &mut Vec<u8>, cell: Option<Insn>) -> Result<(), AllocError>
    requires { IfSome cell (λ i. IsTrue (is_well_formed i)) }
    ensures { OnOk result (bytes.new.items ≡ bytes.old.items ++ flat_map spelling (insns cell)) }
{
    match cell {
        Some(insn) => put_insn(bytes, insn),
        None => Ok(()),
    }
}

/// The bytes that spell the code, 8 for each slot: the one spelling. Decoding them gives the code back.
pub fn encode(alloc: Global, code: &Code) -> Result<Vec<u8>, AllocError>
    ensures spelled { IfOk result (λ v. Spells v.items code.now.insns) }
    ensures again { IfOk result (λ v. decoded v.items ≡ Ok code.now.insns) }
{
    let mut bytes = Vec::new(alloc);
    for slot in 0..code.slots() {
        put_cell(&mut bytes, code.at_slot(slot))?;
    }
    Ok(bytes)
}
