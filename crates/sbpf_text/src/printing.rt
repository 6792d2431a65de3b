// The text of an instruction, put behind a text.
ghost use Rattle.std.specs.Prelude.{◌≡◌, ◌++◌, OnOk, string_bytes, [], ◌∷◌};
ghost use Rattle.sbpf_text.specs.Print.{register_text, offset_text, address_text, operand_text, operands_text, source_operand, mnemonic_of, operands_of, insn_text};
ghost use Rattle.sbpf_text.specs.declared.operand.Operand.TheVariants as operand;

use crate::mnemonic::Mnemonic;
use crate::operand::Operand;
use crate::words::word_of;
use sbpf_insn::{Insn, Reg, Src};
use std::alloc::AllocError;

fn put_register(text: &mut String, r: Reg) -> Result<(), AllocError>
    ensures { OnOk result (string_bytes text.new ≡ string_bytes text.old ++ register_text r) }
{
    let n = r.n;
    write!(text, "r{n}")
}

fn put_near(text: &mut String, offset: i16) -> Result<(), AllocError>
    ensures { OnOk result (string_bytes text.new ≡ string_bytes text.old ++ offset_text offset) }
{
    if offset < 0 {
        return write!(text, "{offset}");
    }
    write!(text, "+{offset}")
}

fn put_far(text: &mut String, offset: i32) -> Result<(), AllocError>
    ensures { OnOk result (string_bytes text.new ≡ string_bytes text.old ++ offset_text offset) }
{
    if offset < 0 {
        return write!(text, "{offset}");
    }
    write!(text, "+{offset}")
}

fn put_address(text: &mut String, base: Reg, offset: i16) -> Result<(), AllocError>
    ensures { OnOk result
        (string_bytes text.new ≡ string_bytes text.old ++ address_text base offset) }
{
    text.push_str("[")?;
    put_register(text, base)?;
    put_near(text, offset)?;
    text.push_str("]")
}

fn put_operand(text: &mut String, operand: Operand) -> Result<(), AllocError>
    ensures { OnOk result (string_bytes text.new ≡ string_bytes text.old ++ operand_text operand) }
{
    match operand {
        Operand::Register(r) => put_register(text, r),
        Operand::Number(k) => write!(text, "{k}"),
        Operand::Wide(n) => write!(text, "{n}"),
        Operand::Near(offset) => put_near(text, offset),
        Operand::Far(offset) => put_far(text, offset),
        Operand::Address(base, offset) => put_address(text, base, offset),
    }
}

fn put_one(text: &mut String, a: Operand) -> Result<(), AllocError>
    ensures { OnOk result
        (string_bytes text.new ≡ string_bytes text.old ++ operands_text (a ∷ [])) }
{
    text.push_str(" ")?;
    put_operand(text, a)
}

fn put_two(text: &mut String, a: Operand, b: Operand) -> Result<(), AllocError>
    ensures { OnOk result
        (string_bytes text.new ≡ string_bytes text.old ++ operands_text (a ∷ b ∷ [])) }
{
    text.push_str(" ")?;
    put_operand(text, a)?;
    text.push_str(", ")?;
    put_operand(text, b)
}

fn put_three(text: &mut String, a: Operand, b: Operand, c: Operand) -> Result<(), AllocError>
    ensures { OnOk result
        (string_bytes text.new ≡ string_bytes text.old ++ operands_text (a ∷ b ∷ c ∷ [])) }
{
    text.push_str(" ")?;
    put_operand(text, a)?;
    text.push_str(", ")?;
    put_operand(text, b)?;
    text.push_str(", ")?;
    put_operand(text, c)
}

fn source_operand(src: Src) -> Operand
    ensures { result ≡ source_operand src }
{
    match src {
        Src::Imm(k) => Operand::Number(k),
        Src::Reg(r) => Operand::Register(r),
    }
}

fn mnemonic_of(insn: Insn) -> Mnemonic
    ensures { result ≡ mnemonic_of insn }
{
    match insn {
        Insn::Alu { wide, op, .. } => Mnemonic::Alu(wide, op),
        Insn::MovSx { wide, bits, .. } => Mnemonic::MovSx(wide, bits),
        Insn::Neg { wide, .. } => Mnemonic::Neg(wide),
        Insn::End { order, bits, .. } => Mnemonic::End(order, bits),
        Insn::Ja { .. } => Mnemonic::Ja,
        Insn::JaFar { .. } => Mnemonic::JaFar,
        Insn::Jump { wide, cond, .. } => Mnemonic::Jump(wide, cond),
        Insn::Call { .. } => Mnemonic::Call,
        Insn::Exit => Mnemonic::Exit,
        Insn::Load { size, .. } => Mnemonic::Load(size),
        Insn::LoadSx { size, .. } => Mnemonic::LoadSx(size),
        Insn::StoreImm { size, .. } => Mnemonic::StoreImm(size),
        Insn::StoreReg { size, .. } => Mnemonic::StoreReg(size),
        Insn::Atomic {
            wide,
            op,
            fetch,
            ..
        } => Mnemonic::Atomic(wide, op, fetch),
        Insn::LoadWide { .. } => Mnemonic::LoadWide,
    }
}

fn put_load(text: &mut String, dst: Reg, base: Reg, offset: i16) -> Result<(), AllocError>
    ensures { OnOk result
        (string_bytes text.new ≡ string_bytes text.old ++ operands_text (operand.Register dst ∷ operand.Address base offset ∷ [])) }
{
    put_two(text, Operand::Register(dst), Operand::Address(base, offset))
}

fn put_store(text: &mut String, base: Reg, offset: i16, src: Reg) -> Result<(), AllocError>
    ensures { OnOk result
        (string_bytes text.new ≡ string_bytes text.old ++ operands_text (operand.Address base offset ∷ operand.Register src ∷ [])) }
{
    put_two(text, Operand::Address(base, offset), Operand::Register(src))
}

fn put_operands(text: &mut String, insn: Insn) -> Result<(), AllocError>
    ensures { OnOk result
        (string_bytes text.new ≡ string_bytes text.old ++ operands_text (operands_of insn)) }
{
    match insn {
        Insn::Alu { dst, src, .. } => put_two(text, Operand::Register(dst), source_operand(src)),
        Insn::MovSx { dst, src, .. } => put_two(
            text,
            Operand::Register(dst),
            Operand::Register(src),
        ),
        Insn::Neg { dst, .. } => put_one(text, Operand::Register(dst)),
        Insn::End { dst, .. } => put_one(text, Operand::Register(dst)),
        Insn::Ja { offset } => put_one(text, Operand::Near(offset)),
        Insn::JaFar { offset } => put_one(text, Operand::Far(offset)),
        Insn::Jump {
            dst,
            src,
            offset,
            ..
        } => {
            let dst = Operand::Register(dst);
            put_three(text, dst, source_operand(src), Operand::Near(offset))
        }
        Insn::Call { offset } => put_one(text, Operand::Far(offset)),
        Insn::Exit => Ok(()),
        Insn::Load {
            dst,
            base,
            offset,
            ..
        } => put_load(text, dst, base, offset),
        Insn::LoadSx {
            dst,
            base,
            offset,
            ..
        } => put_load(text, dst, base, offset),
        Insn::StoreImm {
            base,
            offset,
            imm,
            ..
        } => { put_two(text, Operand::Address(base, offset), Operand::Number(imm)) }
        Insn::StoreReg {
            base,
            offset,
            src,
            ..
        } => put_store(text, base, offset, src),
        Insn::Atomic {
            base,
            offset,
            src,
            ..
        } => put_store(text, base, offset, src),
        Insn::LoadWide { dst, value } => put_two(
            text,
            Operand::Register(dst),
            Operand::Wide(value),
        ),
    }
}

/// Writes an instruction's line behind a text.
pub(crate) fn put_insn(text: &mut String, insn: Insn) -> Result<(), AllocError>
    ensures { OnOk result (string_bytes text.new ≡ string_bytes text.old ++ insn_text insn) }
{
    text.push_str(word_of(mnemonic_of(insn)))?;
    put_operands(text, insn)?;
    text.push_str("\n")
}
