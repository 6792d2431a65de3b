// Mnemonics, and the one that a word spells.
ghost use Rattle.std.specs.Prelude.{◌≡◌, IfSome, IsTrue, bytes_eq};
ghost use Rattle.sbpf_text.specs.Mnemonics.{word_of, mnemonic_spelled, is_mnemonic};

use crate::words::word_of;
use sbpf_insn::{AluOp, AtomicOp, Cond, Order, Size};

/// What the word of an instruction says of it. A first `bool` is true for the 64-bit form, and that of
/// an atomic's end where it fetches; a number counts bits.
#[derive(Clone, Copy)]
pub(crate) enum Mnemonic {
    Alu(bool, AluOp),
    Neg(bool),
    MovSx(bool, u8),
    End(Order, u8),
    Ja,
    JaFar,
    Jump(bool, Cond),
    Call,
    Exit,
    Load(Size),
    LoadSx(Size),
    StoreImm(Size),
    StoreReg(Size),
    Atomic(bool, AtomicOp, bool),
    LoadWide,
}

const MNEMONICS: [Mnemonic; 106] = [
    Mnemonic::Alu(true, AluOp::Add),
    Mnemonic::Alu(true, AluOp::Sub),
    Mnemonic::Alu(true, AluOp::Mul),
    Mnemonic::Alu(true, AluOp::Div),
    Mnemonic::Alu(true, AluOp::Sdiv),
    Mnemonic::Alu(true, AluOp::Or),
    Mnemonic::Alu(true, AluOp::And),
    Mnemonic::Alu(true, AluOp::Lsh),
    Mnemonic::Alu(true, AluOp::Rsh),
    Mnemonic::Alu(true, AluOp::Mod),
    Mnemonic::Alu(true, AluOp::Smod),
    Mnemonic::Alu(true, AluOp::Xor),
    Mnemonic::Alu(true, AluOp::Mov),
    Mnemonic::Alu(true, AluOp::Arsh),
    Mnemonic::Alu(false, AluOp::Add),
    Mnemonic::Alu(false, AluOp::Sub),
    Mnemonic::Alu(false, AluOp::Mul),
    Mnemonic::Alu(false, AluOp::Div),
    Mnemonic::Alu(false, AluOp::Sdiv),
    Mnemonic::Alu(false, AluOp::Or),
    Mnemonic::Alu(false, AluOp::And),
    Mnemonic::Alu(false, AluOp::Lsh),
    Mnemonic::Alu(false, AluOp::Rsh),
    Mnemonic::Alu(false, AluOp::Mod),
    Mnemonic::Alu(false, AluOp::Smod),
    Mnemonic::Alu(false, AluOp::Xor),
    Mnemonic::Alu(false, AluOp::Mov),
    Mnemonic::Alu(false, AluOp::Arsh),
    Mnemonic::Neg(true),
    Mnemonic::Neg(false),
    Mnemonic::MovSx(true, 8),
    Mnemonic::MovSx(true, 16),
    Mnemonic::MovSx(true, 32),
    Mnemonic::MovSx(false, 8),
    Mnemonic::MovSx(false, 16),
    Mnemonic::End(Order::Little, 16),
    Mnemonic::End(Order::Little, 32),
    Mnemonic::End(Order::Little, 64),
    Mnemonic::End(Order::Big, 16),
    Mnemonic::End(Order::Big, 32),
    Mnemonic::End(Order::Big, 64),
    Mnemonic::End(Order::Swap, 16),
    Mnemonic::End(Order::Swap, 32),
    Mnemonic::End(Order::Swap, 64),
    Mnemonic::Ja,
    Mnemonic::JaFar,
    Mnemonic::Jump(true, Cond::Jeq),
    Mnemonic::Jump(true, Cond::Jgt),
    Mnemonic::Jump(true, Cond::Jge),
    Mnemonic::Jump(true, Cond::Jset),
    Mnemonic::Jump(true, Cond::Jne),
    Mnemonic::Jump(true, Cond::Jsgt),
    Mnemonic::Jump(true, Cond::Jsge),
    Mnemonic::Jump(true, Cond::Jlt),
    Mnemonic::Jump(true, Cond::Jle),
    Mnemonic::Jump(true, Cond::Jslt),
    Mnemonic::Jump(true, Cond::Jsle),
    Mnemonic::Jump(false, Cond::Jeq),
    Mnemonic::Jump(false, Cond::Jgt),
    Mnemonic::Jump(false, Cond::Jge),
    Mnemonic::Jump(false, Cond::Jset),
    Mnemonic::Jump(false, Cond::Jne),
    Mnemonic::Jump(false, Cond::Jsgt),
    Mnemonic::Jump(false, Cond::Jsge),
    Mnemonic::Jump(false, Cond::Jlt),
    Mnemonic::Jump(false, Cond::Jle),
    Mnemonic::Jump(false, Cond::Jslt),
    Mnemonic::Jump(false, Cond::Jsle),
    Mnemonic::Call,
    Mnemonic::Exit,
    Mnemonic::Load(Size::B),
    Mnemonic::Load(Size::H),
    Mnemonic::Load(Size::W),
    Mnemonic::Load(Size::Dw),
    Mnemonic::LoadSx(Size::B),
    Mnemonic::LoadSx(Size::H),
    Mnemonic::LoadSx(Size::W),
    Mnemonic::StoreImm(Size::B),
    Mnemonic::StoreImm(Size::H),
    Mnemonic::StoreImm(Size::W),
    Mnemonic::StoreImm(Size::Dw),
    Mnemonic::StoreReg(Size::B),
    Mnemonic::StoreReg(Size::H),
    Mnemonic::StoreReg(Size::W),
    Mnemonic::StoreReg(Size::Dw),
    Mnemonic::Atomic(false, AtomicOp::Add, false),
    Mnemonic::Atomic(false, AtomicOp::Or, false),
    Mnemonic::Atomic(false, AtomicOp::And, false),
    Mnemonic::Atomic(false, AtomicOp::Xor, false),
    Mnemonic::Atomic(false, AtomicOp::Add, true),
    Mnemonic::Atomic(false, AtomicOp::Or, true),
    Mnemonic::Atomic(false, AtomicOp::And, true),
    Mnemonic::Atomic(false, AtomicOp::Xor, true),
    Mnemonic::Atomic(false, AtomicOp::Xchg, true),
    Mnemonic::Atomic(false, AtomicOp::CmpXchg, true),
    Mnemonic::Atomic(true, AtomicOp::Add, false),
    Mnemonic::Atomic(true, AtomicOp::Or, false),
    Mnemonic::Atomic(true, AtomicOp::And, false),
    Mnemonic::Atomic(true, AtomicOp::Xor, false),
    Mnemonic::Atomic(true, AtomicOp::Add, true),
    Mnemonic::Atomic(true, AtomicOp::Or, true),
    Mnemonic::Atomic(true, AtomicOp::And, true),
    Mnemonic::Atomic(true, AtomicOp::Xor, true),
    Mnemonic::Atomic(true, AtomicOp::Xchg, true),
    Mnemonic::Atomic(true, AtomicOp::CmpXchg, true),
    Mnemonic::LoadWide,
];

fn has_word(mnemonic: Mnemonic, word: &[u8]) -> bool
    ensures { result ≡ bytes_eq (word_of mnemonic) word.now }
{
    word_of(mnemonic).as_bytes() == word
}

#[tactic(auto, unfolding(crate::specs::Mnemonics::mnemonic_spelled))]
fn find_mnemonic(word: &[u8]) -> Option<Mnemonic>
    ensures { result ≡ mnemonic_spelled word.now }
{
    MNEMONICS
        .iter()
        .copied()
        .find(|mnemonic| has_word(*mnemonic, word))
}

/// The mnemonic that a word spells, or `None` where no instruction has that word.
pub(crate) fn mnemonic_spelled(word: &[u8]) -> Option<Mnemonic>
    ensures is { result ≡ mnemonic_spelled word.now }
    ensures formed { IfSome result (λ m. IsTrue (is_mnemonic m)) }
{
    find_mnemonic(word)
}
