// The instruction of a mnemonic with its operands.
ghost use Rattle.std.specs.Prelude.{◌≡◌, ◌≤◌, ◌+◌, map, IfOk, IfSome, IsTrue, Ok, ◌^◌};
ghost use Rattle.sbpf_insn.specs.Decoded.{slots_of};
ghost use Rattle.sbpf_insn.specs.Table.{is_well_formed};
ghost use Rattle.sbpf_text.specs.Mnemonics.{is_mnemonic};
ghost use Rattle.sbpf_text.specs.declared.mnemonic.Mnemonic.TheVariants as mnemonic;
ghost use Rattle.sbpf_insn.specs.declared.insn.Insn.TheVariants as insn;
ghost use Rattle.sbpf_text.specs.Faults.{Gives, ◌>>=◌ as ◌and_then◌};
ghost use Rattle.sbpf_text.specs.Instructions.{one_register, two_registers, register_value, register_wide, register_address, address_number, address_register, one_target, register_value_target, insn_of, within_code, insn_with, insn_at, IsFitting};

use crate::fault::{AsmKind, LineErr};
use crate::labels::Labels;
use crate::lexing::{cut_word, operand_words};
use crate::mnemonic::{Mnemonic, mnemonic_spelled};
use crate::operand_lists::{
    address_number, address_register, no_operands, one_register, register_address, register_value,
    register_value_target, register_wide, target16, target32, two_registers,
};
use sbpf_insn::{AluOp, AtomicOp, Cond, Insn, Order, Size};
use std::alloc::Global;

fn alu(wide: bool, op: AluOp, words: &[&[u8]]) -> Result<Insn, AsmKind>
    ensures is { result ≡ (register_value (map (λ x. x.now) words.now)
        and_then λ o. Ok (insn.Alu wide op o.0 o.1)) }
    ensures formed { IfOk result (λ i. IsTrue (is_well_formed i)) }
{
    let (dst, src) = register_value(words)?;
    Ok(Insn::Alu { wide, op, dst, src })
}

fn neg(wide: bool, words: &[&[u8]]) -> Result<Insn, AsmKind>
    ensures is { result ≡ (one_register (map (λ x. x.now) words.now)
        and_then λ dst. Ok (insn.Neg wide dst)) }
    ensures formed { IfOk result (λ i. IsTrue (is_well_formed i)) }
{
    let dst = one_register(words)?;
    Ok(Insn::Neg { wide, dst })
}

fn mov_sx(wide: bool, bits: u8, words: &[&[u8]]) -> Result<Insn, AsmKind>
    requires { IsTrue (is_mnemonic (mnemonic.MovSx wide bits)) }
    ensures is { result ≡ (two_registers (map (λ x. x.now) words.now)
        and_then λ o. Ok (insn.MovSx wide bits o.0 o.1)) }
    ensures formed { IfOk result (λ i. IsTrue (is_well_formed i)) }
{
    let (dst, src) = two_registers(words)?;
    Ok(Insn::MovSx {
        wide,
        bits,
        dst,
        src,
    })
}

fn end(order: Order, bits: u8, words: &[&[u8]]) -> Result<Insn, AsmKind>
    requires { IsTrue (is_mnemonic (mnemonic.End order bits)) }
    ensures is { result ≡ (one_register (map (λ x. x.now) words.now)
        and_then λ dst. Ok (insn.End order bits dst)) }
    ensures formed { IfOk result (λ i. IsTrue (is_well_formed i)) }
{
    let dst = one_register(words)?;
    Ok(Insn::End { order, bits, dst })
}

fn ja(labels: &Labels, slot: u32, settled: bool, words: &[&[u8]]) -> Result<Insn, AsmKind>
    ensures is { result ≡ (one_target (2 ^ 15) labels.now slot settled (map (λ x. x.now) words.now)
        and_then λ t. Ok (insn.Ja t)) }
    ensures formed { IfOk result (λ i. IsTrue (is_well_formed i)) }
{
    let offset = target16(labels, slot, settled, words)?;
    Ok(Insn::Ja { offset })
}

fn ja_far(labels: &Labels, slot: u32, settled: bool, words: &[&[u8]]) -> Result<Insn, AsmKind>
    ensures is { result ≡ (one_target (2 ^ 31) labels.now slot settled (map (λ x. x.now) words.now)
        and_then λ t. Ok (insn.JaFar t)) }
    ensures formed { IfOk result (λ i. IsTrue (is_well_formed i)) }
{
    let offset = target32(labels, slot, settled, words)?;
    Ok(Insn::JaFar { offset })
}

fn jump(
    labels: &Labels,
    slot: u32,
    settled: bool,
    wide: bool,
    cond: Cond,
    words: &[&[u8]],
) -> Result<Insn, AsmKind>
    ensures is { result ≡ (register_value_target labels.now slot settled (map (λ x. x.now) words.now)
        and_then λ o. Ok (insn.Jump wide cond o.0 o.1 o.2)) }
    ensures formed { IfOk result (λ i. IsTrue (is_well_formed i)) }
{
    let (dst, src, offset) = register_value_target(labels, slot, settled, words)?;
    Ok(Insn::Jump {
        wide,
        cond,
        dst,
        src,
        offset,
    })
}

fn call(labels: &Labels, slot: u32, settled: bool, words: &[&[u8]]) -> Result<Insn, AsmKind>
    ensures is { result ≡ (one_target (2 ^ 31) labels.now slot settled (map (λ x. x.now) words.now)
        and_then λ t. Ok (insn.Call t)) }
    ensures formed { IfOk result (λ i. IsTrue (is_well_formed i)) }
{
    let offset = target32(labels, slot, settled, words)?;
    Ok(Insn::Call { offset })
}

fn load(size: Size, words: &[&[u8]]) -> Result<Insn, AsmKind>
    ensures is { result ≡ (register_address (map (λ x. x.now) words.now)
        and_then λ o. Ok (insn.Load size o.0 o.1 o.2)) }
    ensures formed { IfOk result (λ i. IsTrue (is_well_formed i)) }
{
    let (dst, base, offset) = register_address(words)?;
    Ok(Insn::Load {
        size,
        dst,
        base,
        offset,
    })
}

fn load_sx(size: Size, words: &[&[u8]]) -> Result<Insn, AsmKind>
    requires { IsTrue (is_mnemonic (mnemonic.LoadSx size)) }
    ensures is { result ≡ (register_address (map (λ x. x.now) words.now)
        and_then λ o. Ok (insn.LoadSx size o.0 o.1 o.2)) }
    ensures formed { IfOk result (λ i. IsTrue (is_well_formed i)) }
{
    let (dst, base, offset) = register_address(words)?;
    Ok(Insn::LoadSx {
        size,
        dst,
        base,
        offset,
    })
}

fn store_imm(size: Size, words: &[&[u8]]) -> Result<Insn, AsmKind>
    ensures is { result ≡ (address_number (map (λ x. x.now) words.now)
        and_then λ o. Ok (insn.StoreImm size o.0 o.1 o.2)) }
    ensures formed { IfOk result (λ i. IsTrue (is_well_formed i)) }
{
    let (base, offset, imm) = address_number(words)?;
    Ok(Insn::StoreImm {
        size,
        base,
        offset,
        imm,
    })
}

fn store_reg(size: Size, words: &[&[u8]]) -> Result<Insn, AsmKind>
    ensures is { result ≡ (address_register (map (λ x. x.now) words.now)
        and_then λ o. Ok (insn.StoreReg size o.0 o.1 o.2)) }
    ensures formed { IfOk result (λ i. IsTrue (is_well_formed i)) }
{
    let (base, offset, src) = address_register(words)?;
    Ok(Insn::StoreReg {
        size,
        base,
        offset,
        src,
    })
}

fn atomic(wide: bool, op: AtomicOp, fetch: bool, words: &[&[u8]]) -> Result<Insn, AsmKind>
    requires { IsTrue (is_mnemonic (mnemonic.Atomic wide op fetch)) }
    ensures is { result ≡ (address_register (map (λ x. x.now) words.now)
        and_then λ o. Ok (insn.Atomic wide op fetch o.0 o.1 o.2)) }
    ensures formed { IfOk result (λ i. IsTrue (is_well_formed i)) }
{
    let (base, offset, src) = address_register(words)?;
    Ok(Insn::Atomic {
        wide,
        op,
        fetch,
        base,
        offset,
        src,
    })
}

fn load_wide(words: &[&[u8]]) -> Result<Insn, AsmKind>
    ensures is { result ≡ (register_wide (map (λ x. x.now) words.now)
        and_then λ o. Ok (insn.LoadWide o.0 o.1)) }
    ensures formed { IfOk result (λ i. IsTrue (is_well_formed i)) }
{
    let (dst, value) = register_wide(words)?;
    Ok(Insn::LoadWide { dst, value })
}

#[tactic(auto, unfolding(crate::specs::Instructions::insn_of))]
fn insn_of(
    labels: &Labels,
    slot: u32,
    settled: bool,
    mnemonic: Mnemonic,
    words: &[&[u8]],
) -> Result<Insn, AsmKind>
    requires { IsTrue (is_mnemonic mnemonic) }
    ensures is { result ≡ insn_of labels.now slot settled mnemonic (map (λ x. x.now) words.now) }
    ensures formed { IfOk result (λ i. IsTrue (is_well_formed i)) }
{
    match mnemonic {
        Mnemonic::Alu(wide, op) => alu(wide, op, words),
        Mnemonic::Neg(wide) => neg(wide, words),
        Mnemonic::MovSx(wide, bits) => mov_sx(wide, bits, words),
        Mnemonic::End(order, bits) => end(order, bits, words),
        Mnemonic::Ja => ja(labels, slot, settled, words),
        Mnemonic::JaFar => ja_far(labels, slot, settled, words),
        Mnemonic::Jump(wide, cond) => jump(labels, slot, settled, wide, cond, words),
        Mnemonic::Call => call(labels, slot, settled, words),
        Mnemonic::Exit => no_operands(words),
        Mnemonic::Load(size) => load(size, words),
        Mnemonic::LoadSx(size) => load_sx(size, words),
        Mnemonic::StoreImm(size) => store_imm(size, words),
        Mnemonic::StoreReg(size) => store_reg(size, words),
        Mnemonic::Atomic(wide, op, fetch) => atomic(wide, op, fetch, words),
        Mnemonic::LoadWide => load_wide(words),
    }
}

/// How many slots an instruction has.
pub(crate) fn slot_count(insn: Insn) -> u32
    ensures { result ≡ slots_of insn }
{
    match insn {
        Insn::LoadWide { .. } => 2,
        _ => 1,
    }
}

#[tactic(auto, unfolding(crate::specs::Instructions::within_code))]
fn within_code(slot: u32, insn: Insn) -> Result<Option<Insn>, AsmKind>
    requires small { slot ≤ 4096 }
    requires formed { IsTrue (is_well_formed insn) }
    ensures is { result ≡ within_code slot insn }
    ensures fits { IfOk result (λ o. IfSome o (λ i. IsFitting slot i)) }
{
    if slot + slot_count(insn) <= 4096 {
        return Ok(Some(insn));
    }
    Err(AsmKind::Long)
}

#[tactic(auto, unfolding(crate::specs::Instructions::insn_with))]
fn insn_with(
    alloc: Global,
    labels: &Labels,
    slot: u32,
    settled: bool,
    mnemonic: Option<Mnemonic>,
    rest: &[u8],
) -> Result<Option<Insn>, LineErr>
    requires small { slot ≤ 4096 }
    requires formed { IfSome mnemonic (λ r. IsTrue (is_mnemonic r)) }
    ensures is { Gives result (insn_with labels.now slot settled mnemonic rest.now) }
    ensures fits { IfOk result (λ o. IfSome o (λ i. IsFitting slot i)) }
{
    let Some(mnemonic) = mnemonic else {
        return Err(LineErr::Kind(AsmKind::Word));
    };
    let words = operand_words(alloc, rest)?;
    let insn = insn_of(labels, slot, settled, mnemonic, &words)?;
    Ok(within_code(slot, insn)?)
}

/// The instruction of a line, if it has one, that begins at a slot.
#[tactic(auto, unfolding(crate::specs::Instructions::insn_at))]
pub(crate) fn insn_at(
    alloc: Global,
    labels: &Labels,
    slot: u32,
    settled: bool,
    text: &[u8],
) -> Result<Option<Insn>, LineErr>
    requires { slot ≤ 4096 }
    ensures is { Gives result (insn_at labels.now slot settled text.now) }
    ensures fits { IfOk result (λ o. IfSome o (λ i. IsFitting slot i)) }
{
    let (word, rest) = cut_word(text);
    match word {
        [] => Ok(None),
        _ => insn_with(alloc, labels, slot, settled, mnemonic_spelled(word), rest),
    }
}
