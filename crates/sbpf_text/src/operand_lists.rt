// The operands of instructions, by the places that a mnemonic has. All forms are judged before any
// register, and all registers before any number.
ghost use Rattle.std.specs.Prelude.{◌≡◌, ◌^◌, map, IfOk, IsTrue, true, ◌&&◌};
ghost use Rattle.sbpf_insn.specs.Table.{is_reg, is_src, is_well_formed};
ghost use Rattle.sbpf_text.specs.Instructions.{one_register, two_registers, register_value, register_wide, register_address, address_number_of, address_number, address_register_of, address_register, one_target, register_value_target_of, register_value_target, no_operands};

use crate::fault::AsmKind;
use crate::forms::{cut_address, is_address, is_number, is_register, is_target, is_value};
use crate::labels::Labels;
use crate::operands::{
    number_at, offset_at, register_at, target16_at, target32_at, value_at, wide_at,
};
use sbpf_insn::{Insn, Reg, Src};

/// `rD`.
#[tactic(auto, unfolding(crate::specs::Instructions::one_register))]
pub(crate) fn one_register(words: &[&[u8]]) -> Result<Reg, AsmKind>
    ensures is { result ≡ one_register (map (λ x. x.now) words.now) }
    ensures formed { IfOk result (λ r. IsTrue (is_reg r)) }
{
    match words {
        [d] if is_register(d) => register_at(d),
        _ => Err(AsmKind::Operand),
    }
}

/// `rD, rS`.
#[tactic(auto, unfolding(crate::specs::Instructions::two_registers))]
pub(crate) fn two_registers(words: &[&[u8]]) -> Result<(Reg, Reg), AsmKind>
    ensures is { result ≡ two_registers (map (λ x. x.now) words.now) }
    ensures formed { IfOk result (λ o. IsTrue (is_reg o.0 && is_reg o.1)) }
{
    match words {
        [d, s] if is_register(d) && is_register(s) => {
            let dst = register_at(d)?;
            let src = register_at(s)?;
            Ok((dst, src))
        }
        _ => Err(AsmKind::Operand),
    }
}

/// `rD, rS` or `rD, IMM`.
#[tactic(auto, unfolding(crate::specs::Instructions::register_value))]
pub(crate) fn register_value(words: &[&[u8]]) -> Result<(Reg, Src), AsmKind>
    ensures is { result ≡ register_value (map (λ x. x.now) words.now) }
    ensures formed { IfOk result (λ o. IsTrue (is_reg o.0 && is_src o.1)) }
{
    match words {
        [d, s] if is_register(d) && is_value(s) => {
            let dst = register_at(d)?;
            let src = value_at(s)?;
            Ok((dst, src))
        }
        _ => Err(AsmKind::Operand),
    }
}

/// `rD, NUMBER` of 64 bits.
#[tactic(auto, unfolding(crate::specs::Instructions::register_wide))]
pub(crate) fn register_wide(words: &[&[u8]]) -> Result<(Reg, u64), AsmKind>
    ensures is { result ≡ register_wide (map (λ x. x.now) words.now) }
    ensures formed { IfOk result (λ o. IsTrue (is_reg o.0)) }
{
    match words {
        [d, n] if is_register(d) && is_number(n) => {
            let dst = register_at(d)?;
            let value = wide_at(n)?;
            Ok((dst, value))
        }
        _ => Err(AsmKind::Operand),
    }
}

/// `rD, [rB+OFF]`.
#[tactic(auto, unfolding(crate::specs::Instructions::register_address))]
pub(crate) fn register_address(words: &[&[u8]]) -> Result<(Reg, Reg, i16), AsmKind>
    ensures is { result ≡ register_address (map (λ x. x.now) words.now) }
    ensures formed { IfOk result (λ o. IsTrue (is_reg o.0 && is_reg o.1)) }
{
    match words {
        [d, a] if is_register(d) && is_address(a) => {
            let (base, offset) = cut_address(a);
            let dst = register_at(d)?;
            let base = register_at(base)?;
            let offset = offset_at(offset)?;
            Ok((dst, base, offset))
        }
        _ => Err(AsmKind::Operand),
    }
}

#[tactic(auto, unfolding(crate::specs::Instructions::address_number_of))]
fn address_number_of(a: &[u8], n: &[u8]) -> Result<(Reg, i16, i32), AsmKind>
    ensures is { result ≡ address_number_of a.now n.now }
    ensures formed { IfOk result (λ o. IsTrue (is_reg o.0)) }
{
    if is_address(a) && is_number(n) {
        let (base, offset) = cut_address(a);
        let base = register_at(base)?;
        let offset = offset_at(offset)?;
        let imm = number_at(n)?;
        Ok((base, offset, imm))
    } else {
        Err(AsmKind::Operand)
    }
}

/// `[rB+OFF], IMM`.
#[tactic(auto, unfolding(crate::specs::Instructions::address_number))]
pub(crate) fn address_number(words: &[&[u8]]) -> Result<(Reg, i16, i32), AsmKind>
    ensures is { result ≡ address_number (map (λ x. x.now) words.now) }
    ensures formed { IfOk result (λ o. IsTrue (is_reg o.0)) }
{
    match words {
        [a, n] => address_number_of(a, n),
        _ => Err(AsmKind::Operand),
    }
}

#[tactic(auto, unfolding(crate::specs::Instructions::address_register_of))]
fn address_register_of(a: &[u8], s: &[u8]) -> Result<(Reg, i16, Reg), AsmKind>
    ensures is { result ≡ address_register_of a.now s.now }
    ensures formed { IfOk result (λ o. IsTrue (is_reg o.0 && is_reg o.2)) }
{
    if is_address(a) && is_register(s) {
        let (base, offset) = cut_address(a);
        let base = register_at(base)?;
        let src = register_at(s)?;
        let offset = offset_at(offset)?;
        Ok((base, offset, src))
    } else {
        Err(AsmKind::Operand)
    }
}

/// `[rB+OFF], rS`.
#[tactic(auto, unfolding(crate::specs::Instructions::address_register))]
pub(crate) fn address_register(words: &[&[u8]]) -> Result<(Reg, i16, Reg), AsmKind>
    ensures is { result ≡ address_register (map (λ x. x.now) words.now) }
    ensures formed { IfOk result (λ o. IsTrue (is_reg o.0 && is_reg o.2)) }
{
    match words {
        [a, s] => address_register_of(a, s),
        _ => Err(AsmKind::Operand),
    }
}

/// One target, in a field of 16 bits.
#[tactic(auto, unfolding(crate::specs::Instructions::one_target))]
pub(crate) fn target16(
    labels: &Labels,
    slot: u32,
    settled: bool,
    words: &[&[u8]],
) -> Result<i16, AsmKind>
    ensures { result ≡ one_target (2 ^ 15) labels.now slot settled (map (λ x. x.now) words.now) }
{
    match words {
        [t] if is_target(t) => target16_at(labels, slot, settled, t),
        _ => Err(AsmKind::Operand),
    }
}

/// One target, in a field of 32 bits.
#[tactic(auto, unfolding(crate::specs::Instructions::one_target))]
pub(crate) fn target32(
    labels: &Labels,
    slot: u32,
    settled: bool,
    words: &[&[u8]],
) -> Result<i32, AsmKind>
    ensures { result ≡ one_target (2 ^ 31) labels.now slot settled (map (λ x. x.now) words.now) }
{
    match words {
        [t] if is_target(t) => target32_at(labels, slot, settled, t),
        _ => Err(AsmKind::Operand),
    }
}

#[tactic(auto, unfolding(crate::specs::Instructions::register_value_target_of))]
fn register_value_target_of(
    labels: &Labels,
    slot: u32,
    settled: bool,
    d: &[u8],
    s: &[u8],
    t: &[u8],
) -> Result<(Reg, Src, i16), AsmKind>
    ensures is { result ≡ register_value_target_of labels.now slot settled d.now s.now t.now }
    ensures formed { IfOk result (λ o. IsTrue (is_reg o.0 && is_src o.1)) }
{
    if is_register(d) && is_value(s) && is_target(t) {
        let dst = register_at(d)?;
        let src = value_at(s)?;
        let offset = target16_at(labels, slot, settled, t)?;
        Ok((dst, src, offset))
    } else {
        Err(AsmKind::Operand)
    }
}

/// `rD, rS, T` or `rD, IMM, T`.
#[tactic(auto, unfolding(crate::specs::Instructions::register_value_target))]
pub(crate) fn register_value_target(
    labels: &Labels,
    slot: u32,
    settled: bool,
    words: &[&[u8]],
) -> Result<(Reg, Src, i16), AsmKind>
    ensures is { result ≡ register_value_target labels.now slot settled (map (λ x. x.now) words.now) }
    ensures formed { IfOk result (λ o. IsTrue (is_reg o.0 && is_src o.1)) }
{
    match words {
        [d, s, t] => register_value_target_of(labels, slot, settled, d, s, t),
        _ => Err(AsmKind::Operand),
    }
}

/// Nothing, which only `exit` has.
#[tactic(auto, unfolding(crate::specs::Instructions::no_operands))]
pub(crate) fn no_operands(words: &[&[u8]]) -> Result<Insn, AsmKind>
    ensures is { result ≡ no_operands (map (λ x. x.now) words.now) }
    ensures formed { IfOk result (λ i. IsTrue (is_well_formed i)) }
{
    match words {
        [] => Ok(Insn::Exit),
        _ => Err(AsmKind::Operand),
    }
}
