// What operands of the right form stand for.
ghost use Rattle.std.specs.Prelude.{◌≡◌, ◌^◌, true, false, IfOk, IsTrue};
ghost use Rattle.sbpf_insn.specs.Table.{is_reg, is_src};
ghost use Rattle.sbpf_text.specs.Operands.{register_at, number_at, wide_at, offset_at, value_at, label_at, target_at};

use crate::fault::AsmKind;
use crate::forms::{begins_with_sign, is_register};
use crate::labels::Labels;
use crate::numbers::{distance16, distance32, number32, offset16, offset32, register, wide_number};
use sbpf_insn::{Reg, Src};

pub(crate) fn register_at(word: &[u8]) -> Result<Reg, AsmKind>
    ensures is { result ≡ register_at word.now }
    ensures formed { IfOk result (λ r. IsTrue (is_reg r)) }
{
    register(word).ok_or(AsmKind::Register)
}

pub(crate) fn number_at(word: &[u8]) -> Result<i32, AsmKind>
    ensures { result ≡ number_at word.now }
{
    number32(word).ok_or(AsmKind::Number)
}

pub(crate) fn wide_at(word: &[u8]) -> Result<u64, AsmKind>
    ensures { result ≡ wide_at word.now }
{
    wide_number(word).ok_or(AsmKind::Number)
}

pub(crate) fn offset_at(word: &[u8]) -> Result<i16, AsmKind>
    ensures { result ≡ offset_at word.now }
{
    offset16(word).ok_or(AsmKind::Number)
}

#[tactic(auto, unfolding(crate::specs::Operands::value_at))]
pub(crate) fn value_at(word: &[u8]) -> Result<Src, AsmKind>
    ensures is { result ≡ value_at word.now }
    ensures formed { IfOk result (λ s. IsTrue (is_src s)) }
{
    if is_register(word) {
        return Ok(Src::Reg(register_at(word)?));
    }
    Ok(Src::Imm(number_at(word)?))
}

#[tactic(auto, unfolding(crate::specs::Operands::label_at))]
fn label16_at(labels: &Labels, slot: u32, settled: bool, name: &[u8]) -> Result<i16, AsmKind>
    ensures { result ≡ label_at (2 ^ 15) labels.now slot settled name.now }
{
    if !settled {
        return Ok(0);
    }
    match labels.slot_of(name) {
        Some(to) => distance16(slot, to).ok_or(AsmKind::Range),
        None => Err(AsmKind::Unknown),
    }
}

#[tactic(auto, unfolding(crate::specs::Operands::label_at))]
fn label32_at(labels: &Labels, slot: u32, settled: bool, name: &[u8]) -> Result<i32, AsmKind>
    ensures { result ≡ label_at (2 ^ 31) labels.now slot settled name.now }
{
    if !settled {
        return Ok(0);
    }
    match labels.slot_of(name) {
        Some(to) => distance32(slot, to).ok_or(AsmKind::Range),
        None => Err(AsmKind::Unknown),
    }
}

#[tactic(auto, unfolding(crate::specs::Operands::target_at))]
pub(crate) fn target16_at(
    labels: &Labels,
    slot: u32,
    settled: bool,
    word: &[u8],
) -> Result<i16, AsmKind>
    ensures { result ≡ target_at (2 ^ 15) labels.now slot settled word.now }
{
    if begins_with_sign(word) {
        return offset16(word).ok_or(AsmKind::Number);
    }
    label16_at(labels, slot, settled, word)
}

#[tactic(auto, unfolding(crate::specs::Operands::target_at))]
pub(crate) fn target32_at(
    labels: &Labels,
    slot: u32,
    settled: bool,
    word: &[u8],
) -> Result<i32, AsmKind>
    ensures { result ≡ target_at (2 ^ 31) labels.now slot settled word.now }
{
    if begins_with_sign(word) {
        return offset32(word).ok_or(AsmKind::Number);
    }
    label32_at(labels, slot, settled, word)
}
