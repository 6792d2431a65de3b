//! The instructions, as types.

/// A register. It is well formed where `n` is at most 10: r0 holds results, r1 to r5 are passed, r6
/// to r9 are kept by a local call, and r10 is the end of the frame, which is only read.
#[derive(Clone, Copy, Debug, PartialEq, Eq)]
pub struct Reg {
    pub n: u8,
}

/// The second operand of arithmetic and of a jump: a number that is sign-extended, or a register.
#[derive(Clone, Copy, Debug, PartialEq, Eq)]
pub enum Src {
    Imm(i32),
    Reg(Reg),
}

/// The operators of arithmetic (RFC 9669, section 4.1).
#[derive(Clone, Copy, Debug, PartialEq, Eq)]
pub enum AluOp {
    Add,
    Sub,
    Mul,
    /// Unsigned; a quotient by zero is 0.
    Div,
    /// Signed, towards zero; a quotient by zero is 0.
    Sdiv,
    Or,
    And,
    /// Shifts take their count modulo the width.
    Lsh,
    Rsh,
    /// Unsigned; a remainder by zero leaves the dividend.
    Mod,
    /// Signed; a remainder by zero leaves the dividend.
    Smod,
    Xor,
    Mov,
    /// A shift to the right that keeps the sign.
    Arsh,
}

/// The tests of conditional jumps (RFC 9669, section 4.3). Those with an `s` are signed.
#[derive(Clone, Copy, Debug, PartialEq, Eq)]
pub enum Cond {
    Jeq,
    Jgt,
    Jge,
    /// Some bit is set in both.
    Jset,
    Jne,
    Jsgt,
    Jsge,
    Jlt,
    Jle,
    Jslt,
    Jsle,
}

/// How wide an access to memory is: 1, 2, 4 or 8 bytes.
#[derive(Clone, Copy, Debug, PartialEq, Eq)]
pub enum Size {
    B,
    H,
    W,
    Dw,
}

/// The atomic operations (RFC 9669, section 5.3).
#[derive(Clone, Copy, Debug, PartialEq, Eq)]
pub enum AtomicOp {
    Add,
    Or,
    And,
    Xor,
    /// Puts the operand.
    Xchg,
    /// Puts the operand where the old value equals r0.
    CmpXchg,
}

/// What a byte swap does (RFC 9669, section 4.2): to little endian, to big endian, or always.
#[derive(Clone, Copy, Debug, PartialEq, Eq)]
pub enum Order {
    Little,
    Big,
    Swap,
}

/// One instruction. `wide` is true for 64 bits and false for the low 32. A jump's offset counts
/// slots from the next slot on, and that of an access is added to the base register. An instruction
/// is well formed, and then has exactly one spelling, where its registers are r0 to r10, its bits
/// those named here, a `LoadSx` not of `Dw`, and `fetch` true for exchange and compare-exchange.
#[derive(Clone, Copy, Debug, PartialEq, Eq)]
pub enum Insn {
    Alu {
        wide: bool,
        op: AluOp,
        dst: Reg,
        src: Src,
    },
    /// A move of 8, 16 or, where wide, 32 bits with their sign.
    MovSx {
        wide: bool,
        bits: u8,
        dst: Reg,
        src: Reg,
    },
    Neg {
        wide: bool,
        dst: Reg,
    },
    /// A byte swap of 16, 32 or 64 bits.
    End {
        order: Order,
        bits: u8,
        dst: Reg,
    },
    Ja {
        offset: i16,
    },
    JaFar {
        offset: i32,
    },
    Jump {
        wide: bool,
        cond: Cond,
        dst: Reg,
        src: Src,
        offset: i16,
    },
    /// A call of a function of the same code.
    Call {
        offset: i32,
    },
    Exit,
    Load {
        size: Size,
        dst: Reg,
        base: Reg,
        offset: i16,
    },
    /// A load of 1, 2 or 4 bytes with their sign.
    LoadSx {
        size: Size,
        dst: Reg,
        base: Reg,
        offset: i16,
    },
    StoreImm {
        size: Size,
        base: Reg,
        offset: i16,
        imm: i32,
    },
    StoreReg {
        size: Size,
        base: Reg,
        offset: i16,
        src: Reg,
    },
    /// Reads a value, writes a new one, and with `fetch` gives the old one back.
    Atomic {
        wide: bool,
        op: AtomicOp,
        fetch: bool,
        base: Reg,
        offset: i16,
        src: Reg,
    },
    /// A number of 64 bits. It has two slots.
    LoadWide {
        dst: Reg,
        value: u64,
    },
}
