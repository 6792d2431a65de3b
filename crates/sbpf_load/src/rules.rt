//! What is wrong with one instruction at its slot.

ghost use Rattle.std.specs.Prelude.{◌≡◌, ◌<◌, IfSome, FitsSigned};
ghost use Rattle.std.specs.Int.{w32};
ghost use Rattle.sbpf_insn.specs.Cells.{slots, at_slot};
ghost use Rattle.sbpf_insn.specs.Accepted.{writes_r10, jump_of, call_of, is_end, is_within, is_first};
ghost use Rattle.sbpf_insn.specs.Refusal.{fault_at, fault_in, end_fault, jump_fault, call_fault};

use sbpf_insn::{AtomicOp, Code, Insn, VerifyKind};

fn writes_frame_end(insn: Insn) -> bool
    ensures { result ≡ writes_r10 insn }
{
    match insn {
        Insn::Alu { dst, .. }
        | Insn::MovSx { dst, .. }
        | Insn::Neg { dst, .. }
        | Insn::End { dst, .. }
        | Insn::Load { dst, .. }
        | Insn::LoadSx { dst, .. }
        | Insn::LoadWide { dst, .. } => dst.n == 10,
        Insn::Atomic {
            op: AtomicOp::CmpXchg,
            ..
        } => false,
        Insn::Atomic { fetch, src, .. } => fetch && src.n == 10,
        _ => false,
    }
}

// The distance of a jump.
fn jump_distance(insn: Insn) -> Option<i64>
    ensures value { result ≡ jump_of insn }
    ensures fits { IfSome result (λ k. FitsSigned w32 k) }
{
    match insn {
        Insn::Ja { offset } => Some(offset as i64),
        Insn::JaFar { offset } => Some(offset as i64),
        Insn::Jump { offset, .. } => Some(offset as i64),
        _ => None,
    }
}

fn ends_code(insn: Insn) -> bool
    ensures { result ≡ is_end insn }
{
    matches!(insn, Insn::Exit | Insn::Ja { .. } | Insn::JaFar { .. })
}

fn lies_within(code: &Code, to: i64) -> bool
    ensures { result ≡ is_within code.now.insns to }
{
    to >= 0 && to < code.slots() as i64
}

fn is_first_slot(code: &Code, to: i64) -> bool
    ensures { result ≡ is_first code.now.insns to }
{
    to >= 0 && to < code.slots() as i64 && code.at_slot(to as u32).is_some()
}

fn jump_kind(code: &Code, slot: u32, distance: Option<i64>) -> Option<VerifyKind>
    requires { IfSome distance (λ k. FitsSigned w32 k) }
    ensures { result ≡ jump_fault code.now.insns slot distance }
{
    let to = slot as i64 + 1 + distance?;
    if !lies_within(code, to) {
        return Some(VerifyKind::Jump);
    }
    if !is_first_slot(code, to) {
        return Some(VerifyKind::Middle);
    }
    None
}

fn call_kind(code: &Code, slot: u32, insn: Insn) -> Option<VerifyKind>
    ensures { result ≡ call_fault code.now.insns slot (call_of insn) }
{
    let Insn::Call { offset } = insn else {
        return None;
    };
    if is_first_slot(code, slot as i64 + 1 + offset as i64) {
        None
    } else {
        Some(VerifyKind::CallTarget)
    }
}

fn end_kind(code: &Code, slot: u32, insn: Insn) -> Option<VerifyKind>
    requires { slot < slots code.now.insns }
    ensures { result ≡ end_fault code.now.insns slot insn }
{
    let size = if let Insn::LoadWide { .. } = insn {
        2
    } else {
        1
    };
    if slot as u64 + size == code.slots() as u64 && !ends_code(insn) {
        return Some(VerifyKind::FallsOff);
    }
    None
}

fn insn_fault(code: &Code, slot: u32, insn: Insn) -> Option<VerifyKind>
    requires { slot < slots code.now.insns }
    ensures { result ≡ fault_at code.now.insns slot insn }
{
    if writes_frame_end(insn) {
        return Some(VerifyKind::Writer10);
    }
    if let Some(kind) = jump_kind(code, slot, jump_distance(insn)) {
        return Some(kind);
    }
    if let Some(kind) = call_kind(code, slot, insn) {
        return Some(kind);
    }
    end_kind(code, slot, insn)
}

/// The fault of the instruction that begins at a slot, if one begins there and has one.
pub(crate) fn slot_fault(code: &Code, slot: u32) -> Option<VerifyKind>
    requires { slot < slots code.now.insns }
    ensures { result ≡ fault_in code.now.insns slot (at_slot code.now.insns slot) }
{
    match code.at_slot(slot) {
        Some(insn) => insn_fault(code, slot, insn),
        None => None,
    }
}
