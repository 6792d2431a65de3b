//! The fields and the bytes of an instruction.

ghost use Rattle.std.specs.Prelude.{◌≡◌, ◌<◌, ◌/◌, ◌^◌, ◌∷◌, ◌++◌, OnOk, IsTrue};
ghost use Rattle.std.specs.Int.{w32, to_le_bytes};
ghost use Rattle.sbpf_insn.specs.Opcodes.{alu_code, cond_code, size_bits, opcode_of};
ghost use Rattle.sbpf_insn.specs.Table.{slot, slot_of, slot_bytes, spelling, is_well_formed, atomic_imm, alu_offset, row_op};

use crate::form::Form;
use crate::insn::{AluOp, AtomicOp, Cond, Insn, Order, Size, Src};
use crate::slot::Slot;
use std::alloc::AllocError;

fn op_code(op: AluOp) -> u8
    ensures value { result ≡ alu_code op }
    ensures small { result < 16 }
{
    match op {
        AluOp::Add => 0,
        AluOp::Sub => 1,
        AluOp::Mul => 2,
        AluOp::Div | AluOp::Sdiv => 3,
        AluOp::Or => 4,
        AluOp::And => 5,
        AluOp::Lsh => 6,
        AluOp::Rsh => 7,
        AluOp::Mod | AluOp::Smod => 9,
        AluOp::Xor => 10,
        AluOp::Mov => 11,
        AluOp::Arsh => 12,
    }
}

fn test_code(cond: Cond) -> u8
    ensures value { result ≡ cond_code cond }
    ensures small { result < 14 }
{
    match cond {
        Cond::Jeq => 1,
        Cond::Jgt => 2,
        Cond::Jge => 3,
        Cond::Jset => 4,
        Cond::Jne => 5,
        Cond::Jsgt => 6,
        Cond::Jsge => 7,
        Cond::Jlt => 10,
        Cond::Jle => 11,
        Cond::Jslt => 12,
        Cond::Jsle => 13,
    }
}

fn access_bits(size: Size) -> u8
    ensures value { result ≡ size_bits size }
    ensures small { result < 32 }
{
    match size {
        Size::W => 0x00,
        Size::H => 0x08,
        Size::B => 0x10,
        Size::Dw => 0x18,
    }
}

fn opcode(form: Form) -> u8
    ensures { result ≡ opcode_of form }
{
    match form {
        Form::Alu { wide, op, reg } => {
            op_code(op) * 16 + if reg { 8 } else { 0 } + if wide { 7 } else { 4 }
        }
        Form::Neg { wide } => if wide { 0x87 } else { 0x84 },
        Form::End {
            order: Order::Little,
        } => 0xd4,
        Form::End { order: Order::Big } => 0xdc,
        Form::End { order: Order::Swap } => 0xd7,
        Form::Ja => 0x05,
        Form::JaFar => 0x06,
        Form::Jump { wide, cond, reg } => {
            test_code(cond) * 16 + if reg { 8 } else { 0 } + if wide { 5 } else { 6 }
        }
        Form::Call => 0x85,
        Form::Exit => 0x95,
        Form::Load { size } => 0x61 + access_bits(size),
        Form::LoadSx { size } => 0x81 + access_bits(size),
        Form::StoreImm { size } => 0x62 + access_bits(size),
        Form::StoreReg { size } => 0x63 + access_bits(size),
        Form::Atomic { wide } => if wide { 0xdb } else { 0xc3 },
        Form::LoadWide => 0x18,
    }
}

fn offset_of_op(op: AluOp) -> u16
    ensures { result ≡ alu_offset op }
{
    match op {
        AluOp::Sdiv | AluOp::Smod => 1,
        _ => 0,
    }
}

fn row_of(op: AluOp) -> AluOp
    ensures { result ≡ row_op op }
{
    match op {
        AluOp::Sdiv => AluOp::Div,
        AluOp::Smod => AluOp::Mod,
        op => op,
    }
}

fn fields(form: Form, dst: u8, src: u8, offset: u16, imm: u32) -> Slot
    ensures { result ≡ slot form dst src offset imm }
{
    Slot {
        opcode: opcode(form),
        dst,
        src,
        offset,
        imm,
    }
}

fn imm_of(op: AtomicOp, fetch: bool) -> u32
    ensures { result ≡ atomic_imm op fetch }
{
    let bit = if fetch { 1 } else { 0 };
    match op {
        AtomicOp::Add => bit,
        AtomicOp::Or => 0x40 + bit,
        AtomicOp::And => 0x50 + bit,
        AtomicOp::Xor => 0xa0 + bit,
        AtomicOp::Xchg => 0xe1,
        AtomicOp::CmpXchg => 0xf1,
    }
}

fn first_slot_of(insn: Insn) -> Slot
    ensures { result ≡ slot_of insn }
{
    match insn {
        Insn::Alu {
            wide,
            op,
            dst,
            src: Src::Imm(k),
        } => fields(
            Form::Alu {
                wide,
                op: row_of(op),
                reg: false,
            },
            dst.n,
            0,
            offset_of_op(op),
            k.cast_unsigned(),
        ),
        Insn::Alu {
            wide,
            op,
            dst,
            src: Src::Reg(r),
        } => fields(
            Form::Alu {
                wide,
                op: row_of(op),
                reg: true,
            },
            dst.n,
            r.n,
            offset_of_op(op),
            0,
        ),
        Insn::MovSx {
            wide,
            bits,
            dst,
            src,
        } => fields(
            Form::Alu {
                wide,
                op: AluOp::Mov,
                reg: true,
            },
            dst.n,
            src.n,
            bits as u16,
            0,
        ),
        Insn::Neg { wide, dst } => fields(Form::Neg { wide }, dst.n, 0, 0, 0),
        Insn::End { order, bits, dst } => fields(Form::End { order }, dst.n, 0, 0, bits as u32),
        Insn::Ja { offset } => fields(Form::Ja, 0, 0, offset.cast_unsigned(), 0),
        Insn::JaFar { offset } => fields(Form::JaFar, 0, 0, 0, offset.cast_unsigned()),
        Insn::Jump {
            wide,
            cond,
            dst,
            src: Src::Imm(k),
            offset,
        } => fields(
            Form::Jump {
                wide,
                cond,
                reg: false,
            },
            dst.n,
            0,
            offset.cast_unsigned(),
            k.cast_unsigned(),
        ),
        Insn::Jump {
            wide,
            cond,
            dst,
            src: Src::Reg(r),
            offset,
        } => fields(
            Form::Jump {
                wide,
                cond,
                reg: true,
            },
            dst.n,
            r.n,
            offset.cast_unsigned(),
            0,
        ),
        Insn::Call { offset } => fields(Form::Call, 0, 1, 0, offset.cast_unsigned()),
        Insn::Exit => fields(Form::Exit, 0, 0, 0, 0),
        Insn::Load {
            size,
            dst,
            base,
            offset,
        } => fields(
            Form::Load { size },
            dst.n,
            base.n,
            offset.cast_unsigned(),
            0,
        ),
        Insn::LoadSx {
            size,
            dst,
            base,
            offset,
        } => fields(
            Form::LoadSx { size },
            dst.n,
            base.n,
            offset.cast_unsigned(),
            0,
        ),
        Insn::StoreImm {
            size,
            base,
            offset,
            imm,
        } => fields(
            Form::StoreImm { size },
            base.n,
            0,
            offset.cast_unsigned(),
            imm.cast_unsigned(),
        ),
        Insn::StoreReg {
            size,
            base,
            offset,
            src,
        } => fields(
            Form::StoreReg { size },
            base.n,
            src.n,
            offset.cast_unsigned(),
            0,
        ),
        Insn::Atomic {
            wide,
            op,
            fetch,
            base,
            offset,
            src,
        } => fields(
            Form::Atomic { wide },
            base.n,
            src.n,
            offset.cast_unsigned(),
            imm_of(op, fetch),
        ),
        Insn::LoadWide { dst, value } => fields(
            Form::LoadWide,
            dst.n,
            0,
            0,
            (value % 0x1_0000_0000) as u32,
        ),
    }
}

fn bytes_of(slot: Slot) -> [u8; 8]
    requires dst { slot.dst < 16 }
    requires src { slot.src < 16 }
    ensures { result ≡ slot_bytes slot }
{
    let [offset_low, offset_high] = slot.offset.to_le_bytes();
    let [imm_0, imm_1, imm_2, imm_3] = slot.imm.to_le_bytes();
    [
        slot.opcode,
        slot.dst + 16 * slot.src,
        offset_low,
        offset_high,
        imm_0,
        imm_1,
        imm_2,
        imm_3,
    ]
}

// The second slot of a wide load.
fn second_bytes(value: u64) -> [u8; 8]
    ensures { result ≡ 0 ∷ 0 ∷ 0 ∷ 0 ∷ to_le_bytes w32 (value / 2 ^ 32) }
{
    let [imm_0, imm_1, imm_2, imm_3] = ((value >> 32) as u32).to_le_bytes();
    [0, 0, 0, 0, imm_0, imm_1, imm_2, imm_3]
}

/// Puts the bytes of the instruction last.
pub(crate) fn put_insn(bytes: &mut Vec<u8>, insn: Insn) -> Result<(), AllocError>
    requires { IsTrue (is_well_formed insn) }
    ensures { OnOk result (bytes.new.items ≡ bytes.old.items ++ spelling insn) }
{
    let slot = first_slot_of(insn);
    bytes.extend_from_slice(&bytes_of(slot))?;
    if let Insn::LoadWide { value, .. } = insn {
        bytes.extend_from_slice(&second_bytes(value))?;
    }
    Ok(())
}
