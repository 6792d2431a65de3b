//! The row of an opcode, by its bits.

ghost use Rattle.std.specs.Prelude.{◌≡◌};
ghost use Rattle.sbpf_insn.specs.Opcodes.{form_at};
ghost use Rattle.sbpf_insn.specs.Bits.{op_of_code, cond_of_code, size_of_code, alu_of_bits, jump_of_bits, load_of_bits, store_of_bits, form_of_bits};

use crate::form::Form;
use crate::insn::{AluOp, Cond, Order, Size};

#[tactic(auto, unfolding(crate::specs::Bits::op_of_code))]
fn alu_op(code: u8) -> Option<AluOp>
    ensures { result ≡ op_of_code code }
{
    match code {
        0 => Some(AluOp::Add),
        1 => Some(AluOp::Sub),
        2 => Some(AluOp::Mul),
        3 => Some(AluOp::Div),
        4 => Some(AluOp::Or),
        5 => Some(AluOp::And),
        6 => Some(AluOp::Lsh),
        7 => Some(AluOp::Rsh),
        9 => Some(AluOp::Mod),
        10 => Some(AluOp::Xor),
        11 => Some(AluOp::Mov),
        12 => Some(AluOp::Arsh),
        _ => None,
    }
}

#[tactic(auto, unfolding(crate::specs::Bits::cond_of_code))]
fn jump_cond(code: u8) -> Option<Cond>
    ensures { result ≡ cond_of_code code }
{
    match code {
        1 => Some(Cond::Jeq),
        2 => Some(Cond::Jgt),
        3 => Some(Cond::Jge),
        4 => Some(Cond::Jset),
        5 => Some(Cond::Jne),
        6 => Some(Cond::Jsgt),
        7 => Some(Cond::Jsge),
        10 => Some(Cond::Jlt),
        11 => Some(Cond::Jle),
        12 => Some(Cond::Jslt),
        13 => Some(Cond::Jsle),
        _ => None,
    }
}

fn size(code: u8) -> Size
    ensures { result ≡ size_of_code code }
{
    match code {
        0 => Size::W,
        1 => Size::H,
        2 => Size::B,
        _ => Size::Dw,
    }
}

fn alu_form(wide: bool, opcode: u8) -> Option<Form>
    ensures { result ≡ alu_of_bits wide opcode }
{
    let reg = opcode / 8 % 2 == 1;
    match alu_op(opcode / 16) {
        Some(op) => Some(Form::Alu { wide, op, reg }),
        None => match opcode {
            0x80..=0x87 => Some(Form::Neg { wide }),
            0xd4 => Some(Form::End {
                order: Order::Little,
            }),
            0xdc => Some(Form::End { order: Order::Big }),
            0xd7 => Some(Form::End { order: Order::Swap }),
            _ => None,
        },
    }
}

fn jump_form(wide: bool, opcode: u8) -> Option<Form>
    ensures { result ≡ jump_of_bits wide opcode }
{
    let reg = opcode / 8 % 2 == 1;
    match jump_cond(opcode / 16) {
        Some(cond) => Some(Form::Jump { wide, cond, reg }),
        None => match opcode {
            0x05 => Some(Form::Ja),
            0x06 => Some(Form::JaFar),
            0x85 => Some(Form::Call),
            0x95 => Some(Form::Exit),
            _ => None,
        },
    }
}

fn load_form(opcode: u8) -> Option<Form>
    ensures { result ≡ load_of_bits opcode }
{
    let code = opcode / 8 % 4;
    match opcode / 32 {
        3 => Some(Form::Load { size: size(code) }),
        4 if code < 3 => Some(Form::LoadSx { size: size(code) }),
        _ => None,
    }
}

fn store_form(opcode: u8) -> Option<Form>
    ensures { result ≡ store_of_bits opcode }
{
    match opcode {
        0x60..=0x7f => Some(Form::StoreReg {
            size: size(opcode / 8 % 4),
        }),
        0xc3 => Some(Form::Atomic { wide: false }),
        0xdb => Some(Form::Atomic { wide: true }),
        _ => None,
    }
}

/// The row of an opcode, if the table has one.
#[tactic(auto, using(crate::proofs::Rows::form_of_bits_is))]
pub(crate) fn form_of(opcode: u8) -> Option<Form>
    ensures { result ≡ form_at opcode }
{
    let form = form_of_class(opcode);
    form
}

#[tactic(auto, unfolding(crate::specs::Bits::form_of_bits))]
fn form_of_class(opcode: u8) -> Option<Form>
    ensures { result ≡ form_of_bits opcode }
{
    match opcode % 8 {
        0 => if opcode == 0x18 {
            Some(Form::LoadWide)
        } else {
            None
        },
        1 => load_form(opcode),
        2 => if opcode / 32 == 3 {
            Some(Form::StoreImm {
                size: size(opcode / 8 % 4),
            })
        } else {
            None
        },
        3 => store_form(opcode),
        4 => alu_form(false, opcode),
        5 => jump_form(true, opcode),
        6 => jump_form(false, opcode),
        _ => alu_form(true, opcode),
    }
}
