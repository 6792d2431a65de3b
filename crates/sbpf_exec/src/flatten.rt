// Code laid out as flat cells.
ghost use Rattle.std.specs.Prelude.{◌≡◌, true, false, Some, IfSome};
ghost use Rattle.sbpf_insn.specs.declared.insn.Insn.TheVariants as insn;
ghost use Rattle.sbpf_insn.specs.declared.insn.Src.TheVariants as src;
ghost use Rattle.sbpf_exec.specs.FlatCells.{insn_of, Mirrors};

use crate::cells::Cell;
use sbpf_insn::{AluOp, Code, Cond, Insn, Reg, Size, Src};

/// Puts into the table what the code has at each slot. Cells past the code stay.
pub(crate) fn flatten(code: &Code, cells: &mut [Cell])
    requires { Mirrors cells.old code.now.insns }
    ensures { Mirrors cells.new code.now.insns }
{
    let count = cells.len().min(code.slots() as usize);
    for slot in 0..count {
        if let Some(insn) = code.at_slot(slot as u32) {
            cells[slot] = cell_of(insn);
        }
    }
}

fn cell_of(insn: Insn) -> Cell
    ensures { IfSome (insn_of result) (λ i. i ≡ insn) }
{
    match insn {
        Insn::Alu { wide, op, dst, src } => alu_cell(wide, op, dst, src),
        Insn::MovSx {
            wide,
            bits,
            dst,
            src,
        } => Cell::MovSx {
            wide,
            bits,
            dst,
            src,
        },
        Insn::Neg { wide, dst } => Cell::Neg { wide, dst },
        Insn::End { order, bits, dst } => Cell::End { order, bits, dst },
        Insn::Ja { offset } => Cell::Ja { offset },
        Insn::JaFar { offset } => Cell::JaFar { offset },
        Insn::Call { offset } => Cell::Call { offset },
        Insn::Exit => Cell::Exit,
        Insn::Jump {
            wide,
            cond,
            dst,
            src,
            offset,
        } => jump_cell(wide, cond, dst, src, offset),
        Insn::Load {
            size,
            dst,
            base,
            offset,
        } => load_cell(size, dst, base, offset),
        Insn::LoadSx {
            size,
            dst,
            base,
            offset,
        } => load_signed_cell(size, dst, base, offset),
        Insn::StoreImm {
            size,
            base,
            offset,
            imm,
        } => store_imm(size, base, offset, imm),
        Insn::StoreReg {
            size,
            base,
            offset,
            src,
        } => store_reg(size, base, offset, src),
        _ => Cell::Other,
    }
}

fn alu_cell(wide: bool, op: AluOp, dst: Reg, src: Src) -> Cell
    ensures { IfSome (insn_of result) (λ i. i ≡ insn.Alu wide op dst src) }
{
    match src {
        Src::Imm(imm) => alu_imm(wide, op, dst, imm),
        Src::Reg(src) => alu_reg(wide, op, dst, src),
    }
}

fn alu_imm(wide: bool, op: AluOp, dst: Reg, imm: i32) -> Cell
    ensures { IfSome (insn_of result) (λ i. i ≡ insn.Alu wide op dst (src.Imm imm)) }
{
    if !wide {
        return alu32_imm(op, dst, imm);
    }
    match op {
        AluOp::Add => Cell::AddImm { dst, imm },
        AluOp::Sub => Cell::SubImm { dst, imm },
        AluOp::Mul => Cell::MulImm { dst, imm },
        AluOp::Or => Cell::OrImm { dst, imm },
        AluOp::And => Cell::AndImm { dst, imm },
        AluOp::Lsh => Cell::LshImm { dst, imm },
        AluOp::Rsh => Cell::RshImm { dst, imm },
        AluOp::Xor => Cell::XorImm { dst, imm },
        AluOp::Mov => Cell::MovImm { dst, imm },
        AluOp::Arsh => Cell::ArshImm { dst, imm },
        _ => Cell::AluImm { wide, op, dst, imm },
    }
}

fn alu_reg(wide: bool, op: AluOp, dst: Reg, from: Reg) -> Cell
    ensures { IfSome (insn_of result) (λ i. i ≡ insn.Alu wide op dst (src.Reg from)) }
{
    let src = from;
    if !wide {
        return alu32_reg(op, dst, src);
    }
    match op {
        AluOp::Add => Cell::AddReg { dst, src },
        AluOp::Sub => Cell::SubReg { dst, src },
        AluOp::Mul => Cell::MulReg { dst, src },
        AluOp::Or => Cell::OrReg { dst, src },
        AluOp::And => Cell::AndReg { dst, src },
        AluOp::Lsh => Cell::LshReg { dst, src },
        AluOp::Rsh => Cell::RshReg { dst, src },
        AluOp::Xor => Cell::XorReg { dst, src },
        AluOp::Mov => Cell::MovReg { dst, src },
        AluOp::Arsh => Cell::ArshReg { dst, src },
        _ => Cell::AluReg { wide, op, dst, src },
    }
}

fn alu32_imm(op: AluOp, dst: Reg, imm: i32) -> Cell
    ensures { IfSome (insn_of result) (λ i. i ≡ insn.Alu false op dst (src.Imm imm)) }
{
    match op {
        AluOp::Add => Cell::Add32Imm { dst, imm },
        AluOp::Sub => Cell::Sub32Imm { dst, imm },
        AluOp::Mul => Cell::Mul32Imm { dst, imm },
        AluOp::Or => Cell::Or32Imm { dst, imm },
        AluOp::And => Cell::And32Imm { dst, imm },
        AluOp::Lsh => Cell::Lsh32Imm { dst, imm },
        AluOp::Rsh => Cell::Rsh32Imm { dst, imm },
        AluOp::Xor => Cell::Xor32Imm { dst, imm },
        AluOp::Mov => Cell::Mov32Imm { dst, imm },
        AluOp::Arsh => Cell::Arsh32Imm { dst, imm },
        _ => Cell::AluImm {
            wide: false,
            op,
            dst,
            imm,
        },
    }
}

fn alu32_reg(op: AluOp, dst: Reg, from: Reg) -> Cell
    ensures { IfSome (insn_of result) (λ i. i ≡ insn.Alu false op dst (src.Reg from)) }
{
    let src = from;
    match op {
        AluOp::Add => Cell::Add32Reg { dst, src },
        AluOp::Sub => Cell::Sub32Reg { dst, src },
        AluOp::Mul => Cell::Mul32Reg { dst, src },
        AluOp::Or => Cell::Or32Reg { dst, src },
        AluOp::And => Cell::And32Reg { dst, src },
        AluOp::Lsh => Cell::Lsh32Reg { dst, src },
        AluOp::Rsh => Cell::Rsh32Reg { dst, src },
        AluOp::Xor => Cell::Xor32Reg { dst, src },
        AluOp::Mov => Cell::Mov32Reg { dst, src },
        AluOp::Arsh => Cell::Arsh32Reg { dst, src },
        _ => Cell::AluReg {
            wide: false,
            op,
            dst,
            src,
        },
    }
}

fn jump_cell(wide: bool, cond: Cond, dst: Reg, src: Src, offset: i16) -> Cell
    ensures { IfSome (insn_of result) (λ i. i ≡ insn.Jump wide cond dst src offset) }
{
    match (wide, src) {
        (true, Src::Imm(imm)) => jump_imm(cond, dst, offset, imm),
        (true, Src::Reg(src)) => jump_reg(cond, dst, src, offset),
        (false, Src::Imm(imm)) => jump32_imm(cond, dst, offset, imm),
        (false, Src::Reg(src)) => jump32_reg(cond, dst, src, offset),
    }
}

fn jump_imm(cond: Cond, dst: Reg, offset: i16, imm: i32) -> Cell
    ensures { IfSome (insn_of result) (λ i. i ≡ insn.Jump true cond dst (src.Imm imm) offset) }
{
    match cond {
        Cond::Jeq => Cell::JeqImm { dst, offset, imm },
        Cond::Jgt => Cell::JgtImm { dst, offset, imm },
        Cond::Jge => Cell::JgeImm { dst, offset, imm },
        Cond::Jset => Cell::JsetImm { dst, offset, imm },
        Cond::Jne => Cell::JneImm { dst, offset, imm },
        Cond::Jsgt => Cell::JsgtImm { dst, offset, imm },
        Cond::Jsge => Cell::JsgeImm { dst, offset, imm },
        Cond::Jlt => Cell::JltImm { dst, offset, imm },
        Cond::Jle => Cell::JleImm { dst, offset, imm },
        Cond::Jslt => Cell::JsltImm { dst, offset, imm },
        Cond::Jsle => Cell::JsleImm { dst, offset, imm },
    }
}

fn jump_reg(cond: Cond, dst: Reg, from: Reg, offset: i16) -> Cell
    ensures { IfSome (insn_of result) (λ i. i ≡ insn.Jump true cond dst (src.Reg from) offset) }
{
    let src = from;
    match cond {
        Cond::Jeq => Cell::JeqReg { dst, src, offset },
        Cond::Jgt => Cell::JgtReg { dst, src, offset },
        Cond::Jge => Cell::JgeReg { dst, src, offset },
        Cond::Jset => Cell::JsetReg { dst, src, offset },
        Cond::Jne => Cell::JneReg { dst, src, offset },
        Cond::Jsgt => Cell::JsgtReg { dst, src, offset },
        Cond::Jsge => Cell::JsgeReg { dst, src, offset },
        Cond::Jlt => Cell::JltReg { dst, src, offset },
        Cond::Jle => Cell::JleReg { dst, src, offset },
        Cond::Jslt => Cell::JsltReg { dst, src, offset },
        Cond::Jsle => Cell::JsleReg { dst, src, offset },
    }
}

fn jump32_imm(cond: Cond, dst: Reg, offset: i16, imm: i32) -> Cell
    ensures { IfSome (insn_of result) (λ i. i ≡ insn.Jump false cond dst (src.Imm imm) offset) }
{
    match cond {
        Cond::Jeq => Cell::Jeq32Imm { dst, offset, imm },
        Cond::Jgt => Cell::Jgt32Imm { dst, offset, imm },
        Cond::Jge => Cell::Jge32Imm { dst, offset, imm },
        Cond::Jset => Cell::Jset32Imm { dst, offset, imm },
        Cond::Jne => Cell::Jne32Imm { dst, offset, imm },
        Cond::Jsgt => Cell::Jsgt32Imm { dst, offset, imm },
        Cond::Jsge => Cell::Jsge32Imm { dst, offset, imm },
        Cond::Jlt => Cell::Jlt32Imm { dst, offset, imm },
        Cond::Jle => Cell::Jle32Imm { dst, offset, imm },
        Cond::Jslt => Cell::Jslt32Imm { dst, offset, imm },
        Cond::Jsle => Cell::Jsle32Imm { dst, offset, imm },
    }
}

fn jump32_reg(cond: Cond, dst: Reg, from: Reg, offset: i16) -> Cell
    ensures { IfSome (insn_of result) (λ i. i ≡ insn.Jump false cond dst (src.Reg from) offset) }
{
    let src = from;
    match cond {
        Cond::Jeq => Cell::Jeq32Reg { dst, src, offset },
        Cond::Jgt => Cell::Jgt32Reg { dst, src, offset },
        Cond::Jge => Cell::Jge32Reg { dst, src, offset },
        Cond::Jset => Cell::Jset32Reg { dst, src, offset },
        Cond::Jne => Cell::Jne32Reg { dst, src, offset },
        Cond::Jsgt => Cell::Jsgt32Reg { dst, src, offset },
        Cond::Jsge => Cell::Jsge32Reg { dst, src, offset },
        Cond::Jlt => Cell::Jlt32Reg { dst, src, offset },
        Cond::Jle => Cell::Jle32Reg { dst, src, offset },
        Cond::Jslt => Cell::Jslt32Reg { dst, src, offset },
        Cond::Jsle => Cell::Jsle32Reg { dst, src, offset },
    }
}

fn load_cell(size: Size, dst: Reg, base: Reg, offset: i16) -> Cell
    ensures { IfSome (insn_of result) (λ i. i ≡ insn.Load size dst base offset) }
{
    match size {
        Size::B => Cell::LoadB { dst, base, offset },
        Size::H => Cell::LoadH { dst, base, offset },
        Size::W => Cell::LoadW { dst, base, offset },
        Size::Dw => Cell::LoadDw { dst, base, offset },
    }
}

fn load_signed_cell(size: Size, dst: Reg, base: Reg, offset: i16) -> Cell
    ensures { IfSome (insn_of result) (λ i. i ≡ insn.LoadSx size dst base offset) }
{
    match size {
        Size::B => Cell::LoadSxB { dst, base, offset },
        Size::H => Cell::LoadSxH { dst, base, offset },
        Size::W => Cell::LoadSxW { dst, base, offset },
        Size::Dw => Cell::Other,
    }
}

fn store_imm(size: Size, base: Reg, offset: i16, imm: i32) -> Cell
    ensures { IfSome (insn_of result) (λ i. i ≡ insn.StoreImm size base offset imm) }
{
    match size {
        Size::B => Cell::StoreImmB { base, offset, imm },
        Size::H => Cell::StoreImmH { base, offset, imm },
        Size::W => Cell::StoreImmW { base, offset, imm },
        Size::Dw => Cell::StoreImmDw { base, offset, imm },
    }
}

fn store_reg(size: Size, base: Reg, offset: i16, from: Reg) -> Cell
    ensures { IfSome (insn_of result) (λ i. i ≡ insn.StoreReg size base offset from) }
{
    let src = from;
    match size {
        Size::B => Cell::StoreRegB { base, src, offset },
        Size::H => Cell::StoreRegH { base, src, offset },
        Size::W => Cell::StoreRegW { base, src, offset },
        Size::Dw => Cell::StoreRegDw { base, src, offset },
    }
}
