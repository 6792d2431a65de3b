// The words of mnemonics.
ghost use Rattle.std.specs.Prelude.{◌≡◌, true, false};
ghost use Rattle.sbpf_text.specs.Mnemonics.{word_of};
ghost use Rattle.sbpf_text.specs.declared.mnemonic.Mnemonic.TheVariants as mnemonic;

use crate::mnemonic::Mnemonic;
use sbpf_insn::{AluOp, AtomicOp, Cond, Order, Size};

fn alu_word(op: AluOp) -> &'static str
    ensures { result.now ≡ word_of (mnemonic.Alu true op) }
{
    match op {
        AluOp::Add => "add",
        AluOp::Sub => "sub",
        AluOp::Mul => "mul",
        AluOp::Div => "div",
        AluOp::Sdiv => "sdiv",
        AluOp::Or => "or",
        AluOp::And => "and",
        AluOp::Lsh => "lsh",
        AluOp::Rsh => "rsh",
        AluOp::Mod => "mod",
        AluOp::Smod => "smod",
        AluOp::Xor => "xor",
        AluOp::Mov => "mov",
        AluOp::Arsh => "arsh",
    }
}

fn alu32_word(op: AluOp) -> &'static str
    ensures { result.now ≡ word_of (mnemonic.Alu false op) }
{
    match op {
        AluOp::Add => "add32",
        AluOp::Sub => "sub32",
        AluOp::Mul => "mul32",
        AluOp::Div => "div32",
        AluOp::Sdiv => "sdiv32",
        AluOp::Or => "or32",
        AluOp::And => "and32",
        AluOp::Lsh => "lsh32",
        AluOp::Rsh => "rsh32",
        AluOp::Mod => "mod32",
        AluOp::Smod => "smod32",
        AluOp::Xor => "xor32",
        AluOp::Mov => "mov32",
        AluOp::Arsh => "arsh32",
    }
}

fn cond_word(cond: Cond) -> &'static str
    ensures { result.now ≡ word_of (mnemonic.Jump true cond) }
{
    match cond {
        Cond::Jeq => "jeq",
        Cond::Jgt => "jgt",
        Cond::Jge => "jge",
        Cond::Jset => "jset",
        Cond::Jne => "jne",
        Cond::Jsgt => "jsgt",
        Cond::Jsge => "jsge",
        Cond::Jlt => "jlt",
        Cond::Jle => "jle",
        Cond::Jslt => "jslt",
        Cond::Jsle => "jsle",
    }
}

fn cond32_word(cond: Cond) -> &'static str
    ensures { result.now ≡ word_of (mnemonic.Jump false cond) }
{
    match cond {
        Cond::Jeq => "jeq32",
        Cond::Jgt => "jgt32",
        Cond::Jge => "jge32",
        Cond::Jset => "jset32",
        Cond::Jne => "jne32",
        Cond::Jsgt => "jsgt32",
        Cond::Jsge => "jsge32",
        Cond::Jlt => "jlt32",
        Cond::Jle => "jle32",
        Cond::Jslt => "jslt32",
        Cond::Jsle => "jsle32",
    }
}

fn load_word(size: Size) -> &'static str
    ensures { result.now ≡ word_of (mnemonic.Load size) }
{
    match size {
        Size::B => "ldxb",
        Size::H => "ldxh",
        Size::W => "ldxw",
        Size::Dw => "ldxdw",
    }
}

fn store_imm_word(size: Size) -> &'static str
    ensures { result.now ≡ word_of (mnemonic.StoreImm size) }
{
    match size {
        Size::B => "stb",
        Size::H => "sth",
        Size::W => "stw",
        Size::Dw => "stdw",
    }
}

fn store_reg_word(size: Size) -> &'static str
    ensures { result.now ≡ word_of (mnemonic.StoreReg size) }
{
    match size {
        Size::B => "stxb",
        Size::H => "stxh",
        Size::W => "stxw",
        Size::Dw => "stxdw",
    }
}

fn load_sx_word(size: Size) -> &'static str
    ensures { result.now ≡ word_of (mnemonic.LoadSx size) }
{
    match size {
        Size::B => "ldxsb",
        Size::H => "ldxsh",
        Size::W => "ldxsw",
        Size::Dw => "ldxsdw",
    }
}

fn atomic_word(op: AtomicOp, fetch: bool) -> &'static str
    ensures { result.now ≡ word_of (mnemonic.Atomic true op fetch) }
{
    match (op, fetch) {
        (AtomicOp::Add, false) => "aadddw",
        (AtomicOp::Or, false) => "aordw",
        (AtomicOp::And, false) => "aanddw",
        (AtomicOp::Xor, false) => "axordw",
        (AtomicOp::Add, true) => "afadddw",
        (AtomicOp::Or, true) => "afordw",
        (AtomicOp::And, true) => "afanddw",
        (AtomicOp::Xor, true) => "afxordw",
        (AtomicOp::Xchg, _) => "axchgdw",
        (AtomicOp::CmpXchg, _) => "acmpxchgdw",
    }
}

fn atomic32_word(op: AtomicOp, fetch: bool) -> &'static str
    ensures { result.now ≡ word_of (mnemonic.Atomic false op fetch) }
{
    match (op, fetch) {
        (AtomicOp::Add, false) => "aaddw",
        (AtomicOp::Or, false) => "aorw",
        (AtomicOp::And, false) => "aandw",
        (AtomicOp::Xor, false) => "axorw",
        (AtomicOp::Add, true) => "afaddw",
        (AtomicOp::Or, true) => "aforw",
        (AtomicOp::And, true) => "afandw",
        (AtomicOp::Xor, true) => "afxorw",
        (AtomicOp::Xchg, _) => "axchgw",
        (AtomicOp::CmpXchg, _) => "acmpxchgw",
    }
}

fn movsx_word(wide: bool, bits: u8) -> &'static str
    ensures { result.now ≡ word_of (mnemonic.MovSx wide bits) }
{
    match (wide, bits) {
        (true, 8) => "movsx8",
        (true, 16) => "movsx16",
        (true, 32) => "movsx32",
        (true, _) => "movsx64",
        (false, 8) => "movsx8_32",
        (false, 16) => "movsx16_32",
        (false, 32) => "movsx32_32",
        (false, _) => "movsx64_32",
    }
}

fn end_word(order: Order, bits: u8) -> &'static str
    ensures { result.now ≡ word_of (mnemonic.End order bits) }
{
    match (order, bits) {
        (Order::Little, 8) => "le8",
        (Order::Little, 16) => "le16",
        (Order::Little, 32) => "le32",
        (Order::Little, _) => "le64",
        (Order::Big, 8) => "be8",
        (Order::Big, 16) => "be16",
        (Order::Big, 32) => "be32",
        (Order::Big, _) => "be64",
        (Order::Swap, 8) => "bswap8",
        (Order::Swap, 16) => "bswap16",
        (Order::Swap, 32) => "bswap32",
        (Order::Swap, _) => "bswap64",
    }
}

/// The word of a mnemonic.
pub(crate) fn word_of(mnemonic: Mnemonic) -> &'static str
    ensures { result.now ≡ word_of mnemonic }
{
    match mnemonic {
        Mnemonic::Alu(true, op) => alu_word(op),
        Mnemonic::Alu(false, op) => alu32_word(op),
        Mnemonic::Neg(true) => "neg",
        Mnemonic::Neg(false) => "neg32",
        Mnemonic::MovSx(wide, bits) => movsx_word(wide, bits),
        Mnemonic::End(order, bits) => end_word(order, bits),
        Mnemonic::Ja => "ja",
        Mnemonic::JaFar => "ja32",
        Mnemonic::Jump(true, cond) => cond_word(cond),
        Mnemonic::Jump(false, cond) => cond32_word(cond),
        Mnemonic::Call => "call",
        Mnemonic::Exit => "exit",
        Mnemonic::Load(size) => load_word(size),
        Mnemonic::LoadSx(size) => load_sx_word(size),
        Mnemonic::StoreImm(size) => store_imm_word(size),
        Mnemonic::StoreReg(size) => store_reg_word(size),
        Mnemonic::Atomic(true, op, fetch) => atomic_word(op, fetch),
        Mnemonic::Atomic(false, op, fetch) => atomic32_word(op, fetch),
        Mnemonic::LoadWide => "lddw",
    }
}
