//! Code: instructions by their slots.

ghost use Rattle.std.specs.Prelude.{◌≡◌, ◌+◌, ◌^◌, ◌<◌, ◌≤◌, [], ◌∷◌, ◌++◌, length, true, OnOk, OnErr, IfOk, IfSome, IsTrue, slice_get, vec_capacity};
ghost use Rattle.sbpf_insn.specs.Cells.{cells_of, flat};
ghost use Rattle.sbpf_insn.specs.Ranges.{fits16, fits32, src_fits, fits_fields};

use crate::insn::{Insn, Src};
use std::alloc::{AllocError, Global};
use std::marker::Model;

/// A list of instructions, which can be looked up by slot in one step. A wide load has two slots,
/// every other instruction one. Contracts see the list, `insns`, and `room`: how many slots of other
/// code can be copied here without memory. The instructions are well formed.
#[derive(Drop)]
pub struct Code {
    cells: Vec<Option<Insn>>,
    room: usize,
}

impl Model for Code {
    ghost use Rattle.std.specs.Prelude.{vec_capacity};
    ghost use Rattle.sbpf_insn.specs.Program.{Program};
    ghost use Rattle.sbpf_insn.specs.Cells.{insns_of, Holds};

    ghost Value = { Program };

    ghost view = { λ c. record { insns = insns_of c.cells.items; room = c.room } };

    ghost invariant = { λ c. Holds c.cells.items c.room (vec_capacity c.cells) };
}

impl Code {
    ghost use Rattle.sbpf_insn.specs.Cells.{slots, at_slot};
    ghost use Rattle.sbpf_insn.specs.Decoded.{slots_of};
    ghost use Rattle.sbpf_insn.specs.Program.{AreProper};
    ghost use Rattle.sbpf_insn.specs.Table.{is_well_formed};

    /// Code of no slots. Takes no memory.
    pub fn new(alloc: Global) -> Self
        ensures insns { result.insns ≡ [] }
        ensures room { result.room ≡ 0 }
    {
        Code {
            cells: Vec::new(alloc),
            room: 0,
        }
    }

    /// Code of no slots with room for so many, at most 4,096.
    pub fn with_room(alloc: Global, slots: u32) -> Result<Self, AllocError>
        requires { slots ≤ 4096 }
        ensures insns { IfOk result (λ c. c.insns ≡ []) }
        ensures room { IfOk result (λ c. c.room ≡ slots) }
    {
        Ok(Code {
            cells: Vec::with_capacity(alloc, slots as usize)?,
            room: slots as usize,
        })
    }

    /// How many slots there are.
    pub fn slots(&self) -> u32
        ensures count { result ≡ slots self.now.insns }
        ensures proper { AreProper self.now.insns }
    {
        self.cells.len() as u32
    }

    /// The instruction that begins at a slot; None exactly at a wide load's second slot and past the
    /// end.
    #[inline]
    pub fn at_slot(&self, slot: u32) -> Option<Insn>
        ensures value { result ≡ at_slot self.now.insns slot }
        ensures formed { IfSome result (λ i. IsTrue (is_well_formed i)) }
        ensures fit { IfSome result (λ i. fits_fields i ≡ true) }
    {
        let insn = cell(&self.cells, slot as usize);
        insn
    }

    /// Puts the instruction last.
    pub fn push(&mut self, insn: Insn) -> Result<(), AllocError>
        requires formed { IsTrue (is_well_formed insn) }
        requires slots { slots self.old.insns + slots_of insn < 2 ^ 32 }
        ensures ok { OnOk result (self.new.insns ≡ self.old.insns ++ insn ∷ []) }
        ensures err { OnErr result (self.new.insns ≡ self.old.insns) }
        ensures room { self.new.room ≡ self.old.room }
    {
        put(&mut self.cells, insn)?;
        Ok(())
    }

    /// Becomes the other code, whose slots have to fit the room. Takes no memory.
    pub fn copy_from(&mut self, other: &Code)
        requires { slots other.now.insns ≤ self.old.room }
        ensures insns { self.new.insns ≡ other.now.insns }
        ensures room { self.new.room ≡ self.old.room }
    {
        fill(&mut self.cells, &other.cells);
    }
}

// The slots of one more instruction.
fn put(cells: &mut Vec<Option<Insn>>, insn: Insn) -> Result<(), AllocError>
    ensures ok { OnOk result (cells.new.items ≡ cells.old.items ++ cells_of insn) }
    ensures err { OnErr result (cells.new.items ≡ cells.old.items) }
    ensures room { vec_capacity cells.old ≤ vec_capacity cells.new }
    ensures fit { fits_fields insn ≡ true }
{
    ranges(insn);
    cells.reserve(2)?;
    cells.push(Some(insn))?;
    if let Insn::LoadWide { .. } = insn {
        cells.push(None)?;
    }
    Ok(())
}

#[inline]
fn cell(cells: &[Option<Insn>], slot: usize) -> Option<Insn>
    ensures { result ≡ flat (slice_get cells.now slot) }
{
    if slot < cells.len() {
        cells[slot]
    } else {
        None
    }
}

// Copies into the capacity that is there.
fn fill(cells: &mut Vec<Option<Insn>>, from: &[Option<Insn>])
    requires { length from.now ≤ vec_capacity cells.old }
    ensures items { cells.new.items ≡ from.now }
    ensures room { vec_capacity cells.old ≤ vec_capacity cells.new }
{
    cells.clear();
    for cell in from {
        match cells.push(*cell) {
            Ok(()) => {}
            Err(_) => unreachable!(),
        }
    }
}

// The numbers of an instruction fit its fields, by their types.
fn ranges(insn: Insn)
    ensures { fits_fields insn ≡ true }
{
    match insn {
        Insn::Alu { src, .. } => src_range(src),
        Insn::Jump { src, offset, .. } => {
            src_range(src);
            near(offset);
        }
        Insn::Ja { offset } => near(offset),
        Insn::JaFar { offset } => far(offset),
        Insn::Call { offset } => far(offset),
        Insn::Load { offset, .. } => near(offset),
        Insn::LoadSx { offset, .. } => near(offset),
        Insn::StoreReg { offset, .. } => near(offset),
        Insn::Atomic { offset, .. } => near(offset),
        Insn::StoreImm { offset, imm, .. } => {
            near(offset);
            far(imm);
        }
        _ => {}
    }
}

fn near(offset: i16)
    ensures { fits16 offset ≡ true }
{
    let _ = offset < 0;
}

fn far(offset: i32)
    ensures { fits32 offset ≡ true }
{
    let _ = offset < 0;
}

fn src_range(src: Src)
    ensures { src_fits src ≡ true }
{
    if let Src::Imm(imm) = src {
        far(imm);
    }
}
