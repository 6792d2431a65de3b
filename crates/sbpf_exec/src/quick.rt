// The quick step: what the instruction of a flat cell does where the run goes on after it.
ghost use Rattle.std.specs.Prelude.{◌≡◌, ◌⊎◌, ◌<◌, ◌≤◌, IsTrue, IsFalse, IfSome, Some, None, true, false, slice_index, slice_set};
ghost use Rattle.sbpf_insn.specs.Table.{is_src};
ghost use Rattle.sbpf_insn.specs.declared.insn.Src.TheVariants as src;
ghost use Rattle.sbpf_insn.specs.Arithmetic.{extended, movsx_of, swap_of};
ghost use Rattle.sbpf_insn.specs.Machine as machine;
ghost use Rattle.sbpf_insn.specs.Machine.{Goes, step, step_at, after_slot, operand, address, alu_of, neg_of, jumped, target, holds, call, leave, size_width, load_step, store, store_step};
ghost use Rattle.sbpf_exec.specs.Steps.{state, advanced, to_store, Reaches};
ghost use Rattle.sbpf_exec.specs.Parts.{machine_regions, IsShaped, WritesWithin};
ghost use Rattle.sbpf_exec.specs.FlatCells.{insn_of, is_formed, Stands, Mirrors};
ghost use Rattle.sbpf_insn.specs.Cells.{at_slot};

use crate::cells::Cell;
use crate::cpu::Cpu;
use crate::regions::Regions;
use crate::step::{
    Ending, address_of, call_to, computes, extend, get, is_met, jump_to, leave_frame, negated,
    next, operand_of, set,
};
use sbpf_alu::{movsx, swap};
use sbpf_insn::{AluOp, Code, Cond, Insn, Order, Reg, Size, Src};

/// What a quick step came to: on to the next slot, to another slot, a store that is still to be made, or
/// nothing, so that the step of the instruction has to be made.
#[derive(Clone, Copy)]
pub enum Advance {
    Next,
    To(u32),
    Store {
        size: Size,
        address: u64,
        value: u64,
    },
    Slow,
}

// An operation.
#[inline(always)]
fn operates(cpu: &mut Cpu, wide: bool, op: AluOp, dst: Reg, src: Src) -> Advance
    requires dst { dst.n ≤ 10 }
    requires src { IsTrue (is_src src) }
    ensures next { result ≡ Advance.Next }
    ensures set { cpu.new ≡ record cpu.old { registers = slice_set cpu.old.registers dst.n (alu_of wide op (slice_index cpu.old.registers dst.n) (operand cpu.old.registers src)) } }
{
    let b = operand_of(cpu, src);
    let value = computes(wide, op, get(cpu, dst), b);
    set(cpu, dst, value);
    Advance::Next
}

// The register, negated.
#[inline]
fn negates(cpu: &mut Cpu, wide: bool, dst: Reg) -> Advance
    requires dst { dst.n ≤ 10 }
    ensures next { result ≡ Advance.Next }
    ensures set { cpu.new ≡ record cpu.old { registers = slice_set cpu.old.registers dst.n (neg_of wide (slice_index cpu.old.registers dst.n)) } }
{
    let value = negated(wide, get(cpu, dst));
    set(cpu, dst, value);
    Advance::Next
}

// A move with its sign.
#[inline]
fn moves_signed(cpu: &mut Cpu, wide: bool, bits: u8, dst: Reg, src: Reg) -> Advance
    requires dst { dst.n ≤ 10 }
    requires src { src.n ≤ 10 }
    requires bits { (bits ≡ 8) ⊎ (bits ≡ 16) ⊎ ((bits ≡ 32) × (wide ≡ true)) }
    ensures next { result ≡ Advance.Next }
    ensures set { cpu.new ≡ record cpu.old { registers = slice_set cpu.old.registers dst.n (movsx_of wide bits (slice_index cpu.old.registers src.n)) } }
{
    let value = movsx(wide, bits, get(cpu, src));
    set(cpu, dst, value);
    Advance::Next
}

// The register, its bytes swapped.
#[inline]
fn swaps(cpu: &mut Cpu, order: Order, bits: u8, dst: Reg) -> Advance
    requires dst { dst.n ≤ 10 }
    requires bits { (bits ≡ 16) ⊎ (bits ≡ 32) ⊎ (bits ≡ 64) }
    ensures next { result ≡ Advance.Next }
    ensures set { cpu.new ≡ record cpu.old { registers = slice_set cpu.old.registers dst.n (swap_of order bits (slice_index cpu.old.registers dst.n)) } }
{
    let value = swap(order, bits, get(cpu, dst));
    set(cpu, dst, value);
    Advance::Next
}

// A local call; `Slow`, and nothing changes, where all frames are taken.
#[inline]
fn calls(cpu: &mut Cpu, slot: u32, offset: i32) -> Advance
    ensures no_store { to_store result ≡ None }
    ensures next { (m : machine.Regions) → IfSome (advanced result slot) (λ n. call (state cpu.old slot m) (target slot offset) ≡ Goes (state cpu.new n m)) }
    ensures none { advanced result slot ≡ None → cpu.new ≡ cpu.old }
{
    match call_to(cpu, slot, jump_to(slot, offset)) {
        Ending::Goes(to) => Advance::To(to),
        _ => Advance::Slow,
    }
}

// A return; `Slow`, and nothing changes, in the first frame.
#[inline]
fn leaves(cpu: &mut Cpu, slot: u32) -> Advance
    ensures no_store { to_store result ≡ None }
    ensures next { (m : machine.Regions) → IfSome (advanced result slot) (λ n. leave (state cpu.old slot m) cpu.old.frames ≡ Goes (state cpu.new n m)) }
    ensures none { advanced result slot ≡ None → cpu.new ≡ cpu.old }
{
    match leave_frame(cpu, slot) {
        Ending::Goes(to) => Advance::To(to),
        _ => Advance::Slow,
    }
}

// A conditional jump, on 64 bits where it is wide.
#[inline(always)]
fn jumps(cpu: &Cpu, slot: u32, wide: bool, cond: Cond, dst: Reg, src: Src, offset: i16) -> Advance
    requires dst { dst.n ≤ 10 }
    requires src { IsTrue (is_src src) }
    ensures no_store { to_store result ≡ None }
    ensures next { advanced result slot ≡ Some (jumped (holds wide cond (slice_index cpu.now.registers dst.n) (operand cpu.now.registers src)) slot offset) }
{
    let b = operand_of(cpu, src);
    let a = get(cpu, dst);
    if is_met(wide, cond, a, b) {
        Advance::To(jump_to(slot, offset as i32))
    } else {
        Advance::Next
    }
}

#[inline]
fn jump_imm(cpu: &Cpu, slot: u32, cond: Cond, dst: Reg, imm: i32, offset: i16) -> Advance
    requires dst { dst.n ≤ 10 }
    ensures no_store { to_store result ≡ None }
    ensures next { advanced result slot ≡ Some (jumped (holds true cond (slice_index cpu.now.registers dst.n) (operand cpu.now.registers (src.Imm imm))) slot offset) }
{
    jumps(cpu, slot, true, cond, dst, Src::Imm(imm), offset)
}

#[inline]
fn jump_reg(cpu: &Cpu, slot: u32, cond: Cond, dst: Reg, from: Reg, offset: i16) -> Advance
    requires dst { dst.n ≤ 10 }
    requires from { from.n ≤ 10 }
    ensures no_store { to_store result ≡ None }
    ensures next { advanced result slot ≡ Some (jumped (holds true cond (slice_index cpu.now.registers dst.n) (slice_index cpu.now.registers from.n)) slot offset) }
{
    jumps(cpu, slot, true, cond, dst, Src::Reg(from), offset)
}

#[inline]
fn jump32_imm(cpu: &Cpu, slot: u32, cond: Cond, dst: Reg, imm: i32, offset: i16) -> Advance
    requires dst { dst.n ≤ 10 }
    ensures no_store { to_store result ≡ None }
    ensures next { advanced result slot ≡ Some (jumped (holds false cond (slice_index cpu.now.registers dst.n) (operand cpu.now.registers (src.Imm imm))) slot offset) }
{
    jumps(cpu, slot, false, cond, dst, Src::Imm(imm), offset)
}

#[inline]
fn jump32_reg(cpu: &Cpu, slot: u32, cond: Cond, dst: Reg, from: Reg, offset: i16) -> Advance
    requires dst { dst.n ≤ 10 }
    requires from { from.n ≤ 10 }
    ensures no_store { to_store result ≡ None }
    ensures next { advanced result slot ≡ Some (jumped (holds false cond (slice_index cpu.now.registers dst.n) (slice_index cpu.now.registers from.n)) slot offset) }
{
    jumps(cpu, slot, false, cond, dst, Src::Reg(from), offset)
}

// A load; `Slow`, and nothing changes, where it traps.
#[inline(always)]
fn load(
    cpu: &mut Cpu,
    regions: &Regions,
    slot: u32,
    size: Size,
    dst: Reg,
    base: Reg,
    offset: i16,
) -> Advance
    requires dst { dst.n ≤ 10 }
    requires base { base.n ≤ 10 }
    requires shaped { IsShaped regions.now }
    ensures next { IfSome (advanced result slot) (λ n. load_step (state cpu.old slot (machine_regions regions.now)) size dst (address cpu.old.registers base offset) (λ v. v) ≡ Goes (state cpu.new n (machine_regions regions.now))) }
    ensures no_store { to_store result ≡ None }
    ensures none { advanced result slot ≡ None → cpu.new ≡ cpu.old }
{
    let address = address_of(cpu, base, offset);
    let top = cpu.registers[10];
    // Each region has a load of its own, so that no test follows it.
    if regions.is_in_input(address, size) {
        let value = regions.input_number(top, address, size);
        set(cpu, dst, value);
        return Advance::Next;
    }
    if regions.is_in_stack(top, address, size) {
        let value = regions.number_in_stack(top, address, size);
        set(cpu, dst, value);
        return Advance::Next;
    }
    if regions.is_in_output(address, size) {
        let value = regions.output_number(top, address, size);
        set(cpu, dst, value);
        return Advance::Next;
    }
    match regions.load_far(top, address, size) {
        None => Advance::Slow,
        Some(value) => {
            set(cpu, dst, value);
            Advance::Next
        }
    }
}

// A load with its sign; `Slow`, and nothing changes, where it traps.
#[inline(always)]
fn load_signed(
    cpu: &mut Cpu,
    regions: &Regions,
    slot: u32,
    size: Size,
    dst: Reg,
    base: Reg,
    offset: i16,
) -> Advance
    requires dst { dst.n ≤ 10 }
    requires base { base.n ≤ 10 }
    requires shaped { IsShaped regions.now }
    ensures next { IfSome (advanced result slot) (λ n. load_step (state cpu.old slot (machine_regions regions.now)) size dst (address cpu.old.registers base offset) (extended (size_width size) 64) ≡ Goes (state cpu.new n (machine_regions regions.now))) }
    ensures no_store { to_store result ≡ None }
    ensures none { advanced result slot ≡ None → cpu.new ≡ cpu.old }
{
    let address = address_of(cpu, base, offset);
    let top = cpu.registers[10];
    if regions.is_in_input(address, size) {
        let value = regions.input_number(top, address, size);
        set(cpu, dst, extend(size, value));
        return Advance::Next;
    }
    match regions.load_far(top, address, size) {
        None => Advance::Slow,
        Some(value) => {
            set(cpu, dst, extend(size, value));
            Advance::Next
        }
    }
}

// A store, which is still to be made.
#[inline]
fn put(cpu: &Cpu, size: Size, base: Reg, offset: i16, src: Src) -> Advance
    requires base { base.n ≤ 10 }
    requires src { IsTrue (is_src src) }
    ensures { result ≡ Advance.Store size (address cpu.now.registers base offset) (operand cpu.now.registers src) }
{
    let address = address_of(cpu, base, offset);
    let value = operand_of(cpu, src);
    Advance::Store {
        size,
        address,
        value,
    }
}

// The step of a cell's instruction, up to what it stores; `Slow`, and nothing changes, where the cell has
// none or it may trap.
#[inline(always)]
fn quick_step(cell: &Cell, cpu: &mut Cpu, regions: &Regions, slot: u32) -> Advance
    requires formed { IsTrue (is_formed (insn_of cell.now)) }
    requires shaped { IsShaped regions.now }
    ensures next { IfSome (advanced result slot) (λ n. step_at (insn_of cell.now) (state cpu.old slot (machine_regions regions.now)) ≡ Goes (state cpu.new n (machine_regions regions.now))) }
    ensures stores { IfSome (to_store result) (λ put. step_at (insn_of cell.now) (state cpu.old slot (machine_regions regions.now)) ≡ store_step (state cpu.old slot (machine_regions regions.now)) put.0 put.1 put.2) }
    ensures none { advanced result slot ≡ None → cpu.new ≡ cpu.old }
{
    match *cell {
        Cell::Other => Advance::Slow,
        Cell::AddImm { dst, imm } => operates(cpu, true, AluOp::Add, dst, Src::Imm(imm)),
        Cell::AddReg { dst, src } => operates(cpu, true, AluOp::Add, dst, Src::Reg(src)),
        Cell::SubImm { dst, imm } => operates(cpu, true, AluOp::Sub, dst, Src::Imm(imm)),
        Cell::SubReg { dst, src } => operates(cpu, true, AluOp::Sub, dst, Src::Reg(src)),
        Cell::MulImm { dst, imm } => operates(cpu, true, AluOp::Mul, dst, Src::Imm(imm)),
        Cell::MulReg { dst, src } => operates(cpu, true, AluOp::Mul, dst, Src::Reg(src)),
        Cell::OrImm { dst, imm } => operates(cpu, true, AluOp::Or, dst, Src::Imm(imm)),
        Cell::OrReg { dst, src } => operates(cpu, true, AluOp::Or, dst, Src::Reg(src)),
        Cell::AndImm { dst, imm } => operates(cpu, true, AluOp::And, dst, Src::Imm(imm)),
        Cell::AndReg { dst, src } => operates(cpu, true, AluOp::And, dst, Src::Reg(src)),
        Cell::LshImm { dst, imm } => operates(cpu, true, AluOp::Lsh, dst, Src::Imm(imm)),
        Cell::LshReg { dst, src } => operates(cpu, true, AluOp::Lsh, dst, Src::Reg(src)),
        Cell::RshImm { dst, imm } => operates(cpu, true, AluOp::Rsh, dst, Src::Imm(imm)),
        Cell::RshReg { dst, src } => operates(cpu, true, AluOp::Rsh, dst, Src::Reg(src)),
        Cell::XorImm { dst, imm } => operates(cpu, true, AluOp::Xor, dst, Src::Imm(imm)),
        Cell::XorReg { dst, src } => operates(cpu, true, AluOp::Xor, dst, Src::Reg(src)),
        Cell::MovImm { dst, imm } => operates(cpu, true, AluOp::Mov, dst, Src::Imm(imm)),
        Cell::MovReg { dst, src } => operates(cpu, true, AluOp::Mov, dst, Src::Reg(src)),
        Cell::ArshImm { dst, imm } => operates(cpu, true, AluOp::Arsh, dst, Src::Imm(imm)),
        Cell::ArshReg { dst, src } => operates(cpu, true, AluOp::Arsh, dst, Src::Reg(src)),
        Cell::Add32Imm { dst, imm } => operates(cpu, false, AluOp::Add, dst, Src::Imm(imm)),
        Cell::Add32Reg { dst, src } => operates(cpu, false, AluOp::Add, dst, Src::Reg(src)),
        Cell::Sub32Imm { dst, imm } => operates(cpu, false, AluOp::Sub, dst, Src::Imm(imm)),
        Cell::Sub32Reg { dst, src } => operates(cpu, false, AluOp::Sub, dst, Src::Reg(src)),
        Cell::Mul32Imm { dst, imm } => operates(cpu, false, AluOp::Mul, dst, Src::Imm(imm)),
        Cell::Mul32Reg { dst, src } => operates(cpu, false, AluOp::Mul, dst, Src::Reg(src)),
        Cell::Or32Imm { dst, imm } => operates(cpu, false, AluOp::Or, dst, Src::Imm(imm)),
        Cell::Or32Reg { dst, src } => operates(cpu, false, AluOp::Or, dst, Src::Reg(src)),
        Cell::And32Imm { dst, imm } => operates(cpu, false, AluOp::And, dst, Src::Imm(imm)),
        Cell::And32Reg { dst, src } => operates(cpu, false, AluOp::And, dst, Src::Reg(src)),
        Cell::Lsh32Imm { dst, imm } => operates(cpu, false, AluOp::Lsh, dst, Src::Imm(imm)),
        Cell::Lsh32Reg { dst, src } => operates(cpu, false, AluOp::Lsh, dst, Src::Reg(src)),
        Cell::Rsh32Imm { dst, imm } => operates(cpu, false, AluOp::Rsh, dst, Src::Imm(imm)),
        Cell::Rsh32Reg { dst, src } => operates(cpu, false, AluOp::Rsh, dst, Src::Reg(src)),
        Cell::Xor32Imm { dst, imm } => operates(cpu, false, AluOp::Xor, dst, Src::Imm(imm)),
        Cell::Xor32Reg { dst, src } => operates(cpu, false, AluOp::Xor, dst, Src::Reg(src)),
        Cell::Mov32Imm { dst, imm } => operates(cpu, false, AluOp::Mov, dst, Src::Imm(imm)),
        Cell::Mov32Reg { dst, src } => operates(cpu, false, AluOp::Mov, dst, Src::Reg(src)),
        Cell::Arsh32Imm { dst, imm } => operates(cpu, false, AluOp::Arsh, dst, Src::Imm(imm)),
        Cell::Arsh32Reg { dst, src } => operates(cpu, false, AluOp::Arsh, dst, Src::Reg(src)),
        Cell::AluImm { wide, op, dst, imm } => operates(cpu, wide, op, dst, Src::Imm(imm)),
        Cell::AluReg { wide, op, dst, src } => operates(cpu, wide, op, dst, Src::Reg(src)),
        Cell::MovSx {
            wide,
            bits,
            dst,
            src,
        } => moves_signed(cpu, wide, bits, dst, src),
        Cell::Neg { wide, dst } => negates(cpu, wide, dst),
        Cell::End { order, bits, dst } => swaps(cpu, order, bits, dst),
        Cell::Ja { offset } => Advance::To(jump_to(slot, offset as i32)),
        Cell::JaFar { offset } => Advance::To(jump_to(slot, offset)),
        Cell::Call { offset } => calls(cpu, slot, offset),
        Cell::Exit => leaves(cpu, slot),
        Cell::JeqImm { dst, offset, imm } => jump_imm(cpu, slot, Cond::Jeq, dst, imm, offset),
        Cell::JeqReg { dst, src, offset } => jump_reg(cpu, slot, Cond::Jeq, dst, src, offset),
        Cell::JgtImm { dst, offset, imm } => jump_imm(cpu, slot, Cond::Jgt, dst, imm, offset),
        Cell::JgtReg { dst, src, offset } => jump_reg(cpu, slot, Cond::Jgt, dst, src, offset),
        Cell::JgeImm { dst, offset, imm } => jump_imm(cpu, slot, Cond::Jge, dst, imm, offset),
        Cell::JgeReg { dst, src, offset } => jump_reg(cpu, slot, Cond::Jge, dst, src, offset),
        Cell::JsetImm { dst, offset, imm } => jump_imm(cpu, slot, Cond::Jset, dst, imm, offset),
        Cell::JsetReg { dst, src, offset } => jump_reg(cpu, slot, Cond::Jset, dst, src, offset),
        Cell::JneImm { dst, offset, imm } => jump_imm(cpu, slot, Cond::Jne, dst, imm, offset),
        Cell::JneReg { dst, src, offset } => jump_reg(cpu, slot, Cond::Jne, dst, src, offset),
        Cell::JsgtImm { dst, offset, imm } => jump_imm(cpu, slot, Cond::Jsgt, dst, imm, offset),
        Cell::JsgtReg { dst, src, offset } => jump_reg(cpu, slot, Cond::Jsgt, dst, src, offset),
        Cell::JsgeImm { dst, offset, imm } => jump_imm(cpu, slot, Cond::Jsge, dst, imm, offset),
        Cell::JsgeReg { dst, src, offset } => jump_reg(cpu, slot, Cond::Jsge, dst, src, offset),
        Cell::JltImm { dst, offset, imm } => jump_imm(cpu, slot, Cond::Jlt, dst, imm, offset),
        Cell::JltReg { dst, src, offset } => jump_reg(cpu, slot, Cond::Jlt, dst, src, offset),
        Cell::JleImm { dst, offset, imm } => jump_imm(cpu, slot, Cond::Jle, dst, imm, offset),
        Cell::JleReg { dst, src, offset } => jump_reg(cpu, slot, Cond::Jle, dst, src, offset),
        Cell::JsltImm { dst, offset, imm } => jump_imm(cpu, slot, Cond::Jslt, dst, imm, offset),
        Cell::JsltReg { dst, src, offset } => jump_reg(cpu, slot, Cond::Jslt, dst, src, offset),
        Cell::JsleImm { dst, offset, imm } => jump_imm(cpu, slot, Cond::Jsle, dst, imm, offset),
        Cell::JsleReg { dst, src, offset } => jump_reg(cpu, slot, Cond::Jsle, dst, src, offset),
        Cell::Jeq32Imm { dst, offset, imm } => jump32_imm(cpu, slot, Cond::Jeq, dst, imm, offset),
        Cell::Jeq32Reg { dst, src, offset } => jump32_reg(cpu, slot, Cond::Jeq, dst, src, offset),
        Cell::Jgt32Imm { dst, offset, imm } => jump32_imm(cpu, slot, Cond::Jgt, dst, imm, offset),
        Cell::Jgt32Reg { dst, src, offset } => jump32_reg(cpu, slot, Cond::Jgt, dst, src, offset),
        Cell::Jge32Imm { dst, offset, imm } => jump32_imm(cpu, slot, Cond::Jge, dst, imm, offset),
        Cell::Jge32Reg { dst, src, offset } => jump32_reg(cpu, slot, Cond::Jge, dst, src, offset),
        Cell::Jset32Imm { dst, offset, imm } => jump32_imm(cpu, slot, Cond::Jset, dst, imm, offset),
        Cell::Jset32Reg { dst, src, offset } => jump32_reg(cpu, slot, Cond::Jset, dst, src, offset),
        Cell::Jne32Imm { dst, offset, imm } => jump32_imm(cpu, slot, Cond::Jne, dst, imm, offset),
        Cell::Jne32Reg { dst, src, offset } => jump32_reg(cpu, slot, Cond::Jne, dst, src, offset),
        Cell::Jsgt32Imm { dst, offset, imm } => jump32_imm(cpu, slot, Cond::Jsgt, dst, imm, offset),
        Cell::Jsgt32Reg { dst, src, offset } => jump32_reg(cpu, slot, Cond::Jsgt, dst, src, offset),
        Cell::Jsge32Imm { dst, offset, imm } => jump32_imm(cpu, slot, Cond::Jsge, dst, imm, offset),
        Cell::Jsge32Reg { dst, src, offset } => jump32_reg(cpu, slot, Cond::Jsge, dst, src, offset),
        Cell::Jlt32Imm { dst, offset, imm } => jump32_imm(cpu, slot, Cond::Jlt, dst, imm, offset),
        Cell::Jlt32Reg { dst, src, offset } => jump32_reg(cpu, slot, Cond::Jlt, dst, src, offset),
        Cell::Jle32Imm { dst, offset, imm } => jump32_imm(cpu, slot, Cond::Jle, dst, imm, offset),
        Cell::Jle32Reg { dst, src, offset } => jump32_reg(cpu, slot, Cond::Jle, dst, src, offset),
        Cell::Jslt32Imm { dst, offset, imm } => jump32_imm(cpu, slot, Cond::Jslt, dst, imm, offset),
        Cell::Jslt32Reg { dst, src, offset } => jump32_reg(cpu, slot, Cond::Jslt, dst, src, offset),
        Cell::Jsle32Imm { dst, offset, imm } => jump32_imm(cpu, slot, Cond::Jsle, dst, imm, offset),
        Cell::Jsle32Reg { dst, src, offset } => jump32_reg(cpu, slot, Cond::Jsle, dst, src, offset),
        Cell::LoadB { dst, base, offset } => load(cpu, regions, slot, Size::B, dst, base, offset),
        Cell::LoadH { dst, base, offset } => load(cpu, regions, slot, Size::H, dst, base, offset),
        Cell::LoadW { dst, base, offset } => load(cpu, regions, slot, Size::W, dst, base, offset),
        Cell::LoadDw { dst, base, offset } => load(cpu, regions, slot, Size::Dw, dst, base, offset),
        Cell::LoadSxB { dst, base, offset } => {
            load_signed(cpu, regions, slot, Size::B, dst, base, offset)
        }
        Cell::LoadSxH { dst, base, offset } => {
            load_signed(cpu, regions, slot, Size::H, dst, base, offset)
        }
        Cell::LoadSxW { dst, base, offset } => {
            load_signed(cpu, regions, slot, Size::W, dst, base, offset)
        }
        Cell::StoreImmB { base, offset, imm } => put(cpu, Size::B, base, offset, Src::Imm(imm)),
        Cell::StoreRegB { base, src, offset } => put(cpu, Size::B, base, offset, Src::Reg(src)),
        Cell::StoreImmH { base, offset, imm } => put(cpu, Size::H, base, offset, Src::Imm(imm)),
        Cell::StoreRegH { base, src, offset } => put(cpu, Size::H, base, offset, Src::Reg(src)),
        Cell::StoreImmW { base, offset, imm } => put(cpu, Size::W, base, offset, Src::Imm(imm)),
        Cell::StoreRegW { base, src, offset } => put(cpu, Size::W, base, offset, Src::Reg(src)),
        Cell::StoreImmDw { base, offset, imm } => put(cpu, Size::Dw, base, offset, Src::Imm(imm)),
        Cell::StoreRegDw { base, src, offset } => put(cpu, Size::Dw, base, offset, Src::Reg(src)),
    }
}

// A store, with code of its own for each size.
#[inline(always)]
fn makes_store(regions: &mut Regions, top: u64, address: u64, size: Size, value: u64) -> bool
    requires shaped { IsShaped regions.old }
    ensures done { IsTrue result → store (machine_regions regions.old) top address size value ≡ Some (machine_regions regions.new) }
    ensures refused { IsFalse result → store (machine_regions regions.old) top address size value ≡ None }
    ensures kept { IsFalse result → machine_regions regions.new ≡ machine_regions regions.old }
    ensures within { WritesWithin regions.old regions.new }
    ensures shaped { IsShaped regions.new }
{
    match size {
        Size::B => regions.store_near(top, address, Size::B, value),
        Size::H => regions.store_near(top, address, Size::H, value),
        Size::W => regions.store_near(top, address, Size::W, value),
        Size::Dw => regions.store_near(top, address, Size::Dw, value),
    }
}

// The step of a cell's instruction; `Slow`, and nothing changes, where the cell has none or it may trap.
#[inline(always)]
fn whole_step(cell: &Cell, cpu: &mut Cpu, regions: &mut Regions, slot: u32) -> Advance
    requires formed { IsTrue (is_formed (insn_of cell.now)) }
    requires shaped { IsShaped regions.old }
    ensures next { IfSome (advanced result slot) (λ n. step_at (insn_of cell.now) (state cpu.old slot (machine_regions regions.old)) ≡ Goes (state cpu.new n (machine_regions regions.new))) }
    ensures none { advanced result slot ≡ None → cpu.new ≡ cpu.old }
    ensures kept { advanced result slot ≡ None → machine_regions regions.new ≡ machine_regions regions.old }
    ensures within { WritesWithin regions.old regions.new }
    ensures shaped { IsShaped regions.new }
{
    match quick_step(cell, cpu, regions, slot) {
        Advance::Next => Advance::Next,
        Advance::To(to) => Advance::To(to),
        Advance::Store {
            size,
            address,
            value,
        } => {
            if makes_store(regions, cpu.registers[10], address, size, value) {
                Advance::Next
            } else {
                Advance::Slow
            }
        }
        Advance::Slow => Advance::Slow,
    }
}

// Makes the step of a wide load; false, and nothing changes, where none begins at the slot. It is a call,
// since the whole instruction takes room that each step would clear.
#[inline(never)]
#[tactic(auto, unfolding(sbpf_insn::specs::Machine::step))]
fn loads_wide(code: &Code, cpu: &mut Cpu, slot: u32) -> bool
    ensures done { IsTrue result → (m : machine.Regions) → step code.now.insns (state cpu.old slot m) ≡ Goes (state cpu.new (after_slot slot 2) m) }
    ensures none { IsFalse result → cpu.new ≡ cpu.old }
{
    match code.at_slot(slot) {
        Some(Insn::LoadWide { dst, value }) => {
            set(cpu, dst, value);
            true
        }
        _ => false,
    }
}

// The step of the code at a slot, whose cell this is; `Slow`, and nothing changes, where it may trap, or
// is atomic.
#[inline(always)]
fn code_step(code: &Code, cell: &Cell, cpu: &mut Cpu, regions: &mut Regions, slot: u32) -> Advance
    requires stands { Stands (insn_of cell.now) (at_slot code.now.insns slot) }
    requires shaped { IsShaped regions.old }
    ensures next { IfSome (advanced result slot) (λ n. step code.now.insns (state cpu.old slot (machine_regions regions.old)) ≡ Goes (state cpu.new n (machine_regions regions.new))) }
    ensures none { advanced result slot ≡ None → cpu.new ≡ cpu.old }
    ensures kept { advanced result slot ≡ None → machine_regions regions.new ≡ machine_regions regions.old }
    ensures within { WritesWithin regions.old regions.new }
    ensures shaped { IsShaped regions.new }
{
    match whole_step(cell, cpu, regions, slot) {
        Advance::Next => Advance::Next,
        Advance::To(to) => Advance::To(to),
        _ => {
            if loads_wide(code, cpu, slot) {
                Advance::To(next(slot, 2))
            } else {
                Advance::Slow
            }
        }
    }
}

/// How many steps were made, and the slot to go on at.
#[derive(Clone, Copy)]
pub struct Reached {
    pub steps: u64,
    pub slot: u32,
}

// How many steps are made at once.
const MOST: u64 = 1 << 62;

/// As many quick steps as can be made with this fuel, short of its last units, of which there are as many
/// as the code has slots.
///
/// `credit` is the slot and the fuel that is left from there, so that a step to the next slot changes the
/// slot alone. Where it is above the number of slots there is fuel up to the end of the code, so only
/// jumps have to look at it.
#[inline(never)]
pub(crate) fn quick_run(
    code: &Code,
    cells: &[Cell],
    cpu: &mut Cpu,
    regions: &mut Regions,
    first: u32,
    fuel: u64,
) -> Reached
    requires mirrors { Mirrors cells.now code.now.insns }
    requires shaped { IsShaped regions.old }
    ensures reaches { Reaches result.steps code.now.insns (state cpu.old first (machine_regions regions.old)) (state cpu.new result.slot (machine_regions regions.new)) }
    ensures some_left { 0 < fuel → result.steps < fuel }
    ensures within { WritesWithin regions.old regions.new }
    ensures shaped { IsShaped regions.new }
{
    let end = code.slots();
    let most = if fuel > MOST { MOST } else { fuel };
    let mut slot = first as usize;
    let mut credit = most + first as u64;
    if cells.len() <= end as usize || end < first || credit <= end as u64 {
        return Reached {
            steps: 0,
            slot: first,
        };
    }
    loop {
        match code_step(code, &cells[slot], cpu, regions, slot as u32) {
            Advance::Next => slot += 1,
            Advance::To(to) => {
                let left = credit - slot as u64 - 1;
                slot = to as usize;
                credit = left + to as u64;
                if end < to || credit <= end as u64 {
                    let steps = most - left;
                    return Reached { steps, slot: to };
                }
            }
            _ => {
                let steps = most - (credit - slot as u64);
                let slot = slot as u32;
                return Reached { steps, slot };
            }
        }
    }
}
