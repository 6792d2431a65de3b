//! One instruction from its bytes.

ghost use Rattle.std.specs.Prelude.{IfOk, ◌≡◌, ◌≤◌, drop, length};
ghost use Rattle.sbpf_insn.specs.Decoded.{slot_at, is_packet_mode, uses_dst, uses_src, is_refused_src, op_with, atomic_op, alu_built, built, wide_load, by_fields, by_form, insn_at};
ghost use Rattle.sbpf_insn.specs.Spelled.{Found};

use crate::fault::InsnKind;
use crate::form::Form;
use crate::insn::{AluOp, AtomicOp, Insn, Reg, Src};
use crate::opcode::form_of;
use crate::slot::{Slot, first_slot};

#[tactic(auto, unfolding(crate::specs::Decoded::is_packet_mode))]
fn is_packet_access(opcode: u8) -> bool
    ensures { result ≡ is_packet_mode opcode }
{
    matches!(
        opcode,
        0x20 | 0x28 | 0x30 | 0x38 | 0x40 | 0x48 | 0x50 | 0x58
    )
}

fn has_dst(form: Form) -> bool
    ensures { result ≡ uses_dst form }
{
    !matches!(form, Form::Ja | Form::JaFar | Form::Call | Form::Exit)
}

fn has_src(form: Form) -> bool
    ensures { result ≡ uses_src form }
{
    match form {
        Form::Alu { reg, .. } | Form::Jump { reg, .. } => reg,
        Form::Load { .. } | Form::LoadSx { .. } | Form::StoreReg { .. } | Form::Atomic { .. } =>
            true,
        _ => false,
    }
}

fn refuses_src(form: Form, src: u8) -> bool
    ensures { result ≡ is_refused_src form src }
{
    match form {
        Form::LoadWide => src >= 1 && src <= 6,
        Form::Call => src == 0 || src == 2,
        _ => false,
    }
}

fn op_at_offset(op: AluOp, offset: u16) -> Option<AluOp>
    ensures { result ≡ op_with op offset }
{
    match (op, offset) {
        (op, 0) => Some(op),
        (AluOp::Div, 1) => Some(AluOp::Sdiv),
        (AluOp::Mod, 1) => Some(AluOp::Smod),
        _ => None,
    }
}

fn atomic_at(imm: u32) -> Option<(AtomicOp, bool)>
    ensures { result ≡ atomic_op imm }
{
    match imm {
        0x00 => Some((AtomicOp::Add, false)),
        0x01 => Some((AtomicOp::Add, true)),
        0x40 => Some((AtomicOp::Or, false)),
        0x41 => Some((AtomicOp::Or, true)),
        0x50 => Some((AtomicOp::And, false)),
        0x51 => Some((AtomicOp::And, true)),
        0xa0 => Some((AtomicOp::Xor, false)),
        0xa1 => Some((AtomicOp::Xor, true)),
        0xe1 => Some((AtomicOp::Xchg, true)),
        0xf1 => Some((AtomicOp::CmpXchg, true)),
        _ => None,
    }
}

fn alu_insn(wide: bool, op: AluOp, reg: bool, slot: Slot) -> Option<Insn>
    ensures { result ≡ alu_built wide op reg slot }
{
    let dst = Reg { n: slot.dst };
    if !reg {
        if slot.src != 0 {
            return None;
        }
        let op = op_at_offset(op, slot.offset)?;
        let imm = slot.imm.cast_signed();
        return Some(Insn::Alu {
            wide,
            op,
            dst,
            src: Src::Imm(imm),
        });
    }
    if slot.imm != 0 {
        return None;
    }
    let src = Reg { n: slot.src };
    match (op, slot.offset) {
        (AluOp::Mov, 8) => Some(Insn::MovSx {
            wide,
            bits: 8,
            dst,
            src,
        }),
        (AluOp::Mov, 16) => Some(Insn::MovSx {
            wide,
            bits: 16,
            dst,
            src,
        }),
        (AluOp::Mov, 32) if wide => Some(Insn::MovSx {
            wide,
            bits: 32,
            dst,
            src,
        }),
        (op, offset) => {
            let op = op_at_offset(op, offset)?;
            Some(Insn::Alu {
                wide,
                op,
                dst,
                src: Src::Reg(src),
            })
        }
    }
}

fn insn_of(form: Form, slot: Slot) -> Option<Insn>
    ensures { result ≡ built form slot }
{
    let dst = Reg { n: slot.dst };
    let src = Reg { n: slot.src };
    let offset = slot.offset.cast_signed();
    let imm = slot.imm.cast_signed();
    match form {
        Form::Alu { wide, op, reg } => alu_insn(wide, op, reg, slot),
        Form::Neg { wide } if slot.src == 0 && slot.offset == 0 && slot.imm == 0 => Some(Insn::Neg {
            wide,
            dst,
        }),
        Form::End { order } if slot.src == 0 && slot.offset == 0 => match slot.imm {
            16 => Some(Insn::End {
                order,
                bits: 16,
                dst,
            }),
            32 => Some(Insn::End {
                order,
                bits: 32,
                dst,
            }),
            64 => Some(Insn::End {
                order,
                bits: 64,
                dst,
            }),
            _ => None,
        },
        Form::Ja if slot.dst == 0 && slot.src == 0 && slot.imm == 0 => Some(Insn::Ja { offset }),
        Form::JaFar if slot.dst == 0 && slot.src == 0 && slot.offset == 0 => Some(Insn::JaFar {
            offset: imm,
        }),
        Form::Jump {
            wide,
            cond,
            reg: false,
        } if slot.src == 0 => Some(Insn::Jump {
            wide,
            cond,
            dst,
            src: Src::Imm(imm),
            offset,
        }),
        Form::Jump {
            wide,
            cond,
            reg: true,
        } if slot.imm == 0 => Some(Insn::Jump {
            wide,
            cond,
            dst,
            src: Src::Reg(src),
            offset,
        }),
        Form::Call if slot.dst == 0 && slot.src == 1 && slot.offset == 0 => Some(Insn::Call {
            offset: imm,
        }),
        Form::Exit if slot.dst == 0 && slot.src == 0 && slot.offset == 0 && slot.imm == 0 => Some(
            Insn::Exit,
        ),
        Form::Load { size } if slot.imm == 0 => Some(Insn::Load {
            size,
            dst,
            base: src,
            offset,
        }),
        Form::LoadSx { size } if slot.imm == 0 => Some(Insn::LoadSx {
            size,
            dst,
            base: src,
            offset,
        }),
        Form::StoreImm { size } if slot.src == 0 => Some(Insn::StoreImm {
            size,
            base: dst,
            offset,
            imm,
        }),
        Form::StoreReg { size } if slot.imm == 0 => Some(Insn::StoreReg {
            size,
            base: dst,
            offset,
            src,
        }),
        Form::Atomic { wide } => {
            let (op, fetch) = atomic_at(slot.imm)?;
            Some(Insn::Atomic {
                wide,
                op,
                fetch,
                base: dst,
                offset,
                src,
            })
        }
        _ => None,
    }
}

#[tactic(auto, unfolding(crate::specs::Decoded::wide_load))]
fn wide_insn(slot: Slot, rest: &[u8]) -> Result<Insn, InsnKind>
    ensures { result ≡ wide_load slot rest.now }
{
    if slot.src != 0 || slot.offset != 0 {
        return Err(InsnKind::Field);
    }
    if rest.len() < 8 {
        return Err(InsnKind::Truncated);
    }
    if rest[0] != 0 || rest[1] != 0 || rest[2] != 0 || rest[3] != 0 {
        return Err(InsnKind::Wide);
    }
    let high = u32::from_le_bytes([rest[4], rest[5], rest[6], rest[7]]);
    Ok(Insn::LoadWide {
        dst: Reg { n: slot.dst },
        value: slot.imm as u64 + ((high as u64) << 32),
    })
}

fn of_form(form: Form, slot: Slot, rest: &[u8]) -> Result<Insn, InsnKind>
    ensures { result ≡ by_fields form slot rest.now }
{
    if let Form::LoadWide = form {
        return wide_insn(slot, rest);
    }
    insn_of(form, slot).ok_or(InsnKind::Field)
}

#[tactic(auto, unfolding(crate::specs::Decoded::insn_at))]
fn one(bytes: &[u8]) -> Result<Insn, InsnKind>
    ensures { result ≡ insn_at bytes.now }
{
    if bytes.len() < 8 {
        return Err(InsnKind::Truncated);
    }
    let slot = first_slot(bytes);
    if is_packet_access(slot.opcode) {
        return Err(InsnKind::Refused);
    }
    let Some(form) = form_of(slot.opcode) else {
        return Err(InsnKind::Opcode);
    };
    if has_dst(form) && slot.dst > 10 || has_src(form) && slot.src > 10 {
        return Err(InsnKind::Register);
    }
    if refuses_src(form, slot.src) {
        return Err(InsnKind::Refused);
    }
    of_form(form, slot, &bytes[8..])
}

/// The instruction at the front of the bytes, or its fault.
pub(crate) fn decode_one(bytes: &[u8]) -> Result<Insn, InsnKind>
    ensures exact { result ≡ insn_at bytes.now }
    ensures found { IfOk result (λ i. Found bytes.now i) }
{
    one(bytes)
}
