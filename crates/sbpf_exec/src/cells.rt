//! Code as flat cells: a variant for each common operation with its kind of operand, so that a step of the
//! run jumps once. Wide loads and atomic operations are left to the step of an instruction.
use sbpf_insn::{AluOp, Order, Reg};

/// How many cells a table has: accepted code has fewer slots.
pub(crate) const CELLS: usize = 4097;

/// How many cells the table of short code has, which is sooner made.
pub(crate) const FEW_CELLS: usize = 256;

/// What begins at a slot: one of these instructions, or `Other`, which says nothing of it. A variant that
/// is named for its operation works on 64 bits, and on 32 where its name has 32; `AluImm` and `AluReg` have
/// the other operations.
#[derive(Clone, Copy)]
pub enum Cell {
    Other,
    AddImm {
        dst: Reg,
        imm: i32,
    },
    AddReg {
        dst: Reg,
        src: Reg,
    },
    SubImm {
        dst: Reg,
        imm: i32,
    },
    SubReg {
        dst: Reg,
        src: Reg,
    },
    MulImm {
        dst: Reg,
        imm: i32,
    },
    MulReg {
        dst: Reg,
        src: Reg,
    },
    OrImm {
        dst: Reg,
        imm: i32,
    },
    OrReg {
        dst: Reg,
        src: Reg,
    },
    AndImm {
        dst: Reg,
        imm: i32,
    },
    AndReg {
        dst: Reg,
        src: Reg,
    },
    LshImm {
        dst: Reg,
        imm: i32,
    },
    LshReg {
        dst: Reg,
        src: Reg,
    },
    RshImm {
        dst: Reg,
        imm: i32,
    },
    RshReg {
        dst: Reg,
        src: Reg,
    },
    XorImm {
        dst: Reg,
        imm: i32,
    },
    XorReg {
        dst: Reg,
        src: Reg,
    },
    MovImm {
        dst: Reg,
        imm: i32,
    },
    MovReg {
        dst: Reg,
        src: Reg,
    },
    ArshImm {
        dst: Reg,
        imm: i32,
    },
    ArshReg {
        dst: Reg,
        src: Reg,
    },
    Add32Imm {
        dst: Reg,
        imm: i32,
    },
    Add32Reg {
        dst: Reg,
        src: Reg,
    },
    Sub32Imm {
        dst: Reg,
        imm: i32,
    },
    Sub32Reg {
        dst: Reg,
        src: Reg,
    },
    Mul32Imm {
        dst: Reg,
        imm: i32,
    },
    Mul32Reg {
        dst: Reg,
        src: Reg,
    },
    Or32Imm {
        dst: Reg,
        imm: i32,
    },
    Or32Reg {
        dst: Reg,
        src: Reg,
    },
    And32Imm {
        dst: Reg,
        imm: i32,
    },
    And32Reg {
        dst: Reg,
        src: Reg,
    },
    Lsh32Imm {
        dst: Reg,
        imm: i32,
    },
    Lsh32Reg {
        dst: Reg,
        src: Reg,
    },
    Rsh32Imm {
        dst: Reg,
        imm: i32,
    },
    Rsh32Reg {
        dst: Reg,
        src: Reg,
    },
    Xor32Imm {
        dst: Reg,
        imm: i32,
    },
    Xor32Reg {
        dst: Reg,
        src: Reg,
    },
    Mov32Imm {
        dst: Reg,
        imm: i32,
    },
    Mov32Reg {
        dst: Reg,
        src: Reg,
    },
    Arsh32Imm {
        dst: Reg,
        imm: i32,
    },
    Arsh32Reg {
        dst: Reg,
        src: Reg,
    },
    AluImm {
        wide: bool,
        op: AluOp,
        dst: Reg,
        imm: i32,
    },
    AluReg {
        wide: bool,
        op: AluOp,
        dst: Reg,
        src: Reg,
    },
    MovSx {
        wide: bool,
        bits: u8,
        dst: Reg,
        src: Reg,
    },
    Neg {
        wide: bool,
        dst: Reg,
    },
    End {
        order: Order,
        bits: u8,
        dst: Reg,
    },
    Ja {
        offset: i16,
    },
    JaFar {
        offset: i32,
    },
    Call {
        offset: i32,
    },
    Exit,
    JeqImm {
        dst: Reg,
        offset: i16,
        imm: i32,
    },
    JeqReg {
        dst: Reg,
        src: Reg,
        offset: i16,
    },
    JgtImm {
        dst: Reg,
        offset: i16,
        imm: i32,
    },
    JgtReg {
        dst: Reg,
        src: Reg,
        offset: i16,
    },
    JgeImm {
        dst: Reg,
        offset: i16,
        imm: i32,
    },
    JgeReg {
        dst: Reg,
        src: Reg,
        offset: i16,
    },
    JsetImm {
        dst: Reg,
        offset: i16,
        imm: i32,
    },
    JsetReg {
        dst: Reg,
        src: Reg,
        offset: i16,
    },
    JneImm {
        dst: Reg,
        offset: i16,
        imm: i32,
    },
    JneReg {
        dst: Reg,
        src: Reg,
        offset: i16,
    },
    JsgtImm {
        dst: Reg,
        offset: i16,
        imm: i32,
    },
    JsgtReg {
        dst: Reg,
        src: Reg,
        offset: i16,
    },
    JsgeImm {
        dst: Reg,
        offset: i16,
        imm: i32,
    },
    JsgeReg {
        dst: Reg,
        src: Reg,
        offset: i16,
    },
    JltImm {
        dst: Reg,
        offset: i16,
        imm: i32,
    },
    JltReg {
        dst: Reg,
        src: Reg,
        offset: i16,
    },
    JleImm {
        dst: Reg,
        offset: i16,
        imm: i32,
    },
    JleReg {
        dst: Reg,
        src: Reg,
        offset: i16,
    },
    JsltImm {
        dst: Reg,
        offset: i16,
        imm: i32,
    },
    JsltReg {
        dst: Reg,
        src: Reg,
        offset: i16,
    },
    JsleImm {
        dst: Reg,
        offset: i16,
        imm: i32,
    },
    JsleReg {
        dst: Reg,
        src: Reg,
        offset: i16,
    },
    Jeq32Imm {
        dst: Reg,
        offset: i16,
        imm: i32,
    },
    Jeq32Reg {
        dst: Reg,
        src: Reg,
        offset: i16,
    },
    Jgt32Imm {
        dst: Reg,
        offset: i16,
        imm: i32,
    },
    Jgt32Reg {
        dst: Reg,
        src: Reg,
        offset: i16,
    },
    Jge32Imm {
        dst: Reg,
        offset: i16,
        imm: i32,
    },
    Jge32Reg {
        dst: Reg,
        src: Reg,
        offset: i16,
    },
    Jset32Imm {
        dst: Reg,
        offset: i16,
        imm: i32,
    },
    Jset32Reg {
        dst: Reg,
        src: Reg,
        offset: i16,
    },
    Jne32Imm {
        dst: Reg,
        offset: i16,
        imm: i32,
    },
    Jne32Reg {
        dst: Reg,
        src: Reg,
        offset: i16,
    },
    Jsgt32Imm {
        dst: Reg,
        offset: i16,
        imm: i32,
    },
    Jsgt32Reg {
        dst: Reg,
        src: Reg,
        offset: i16,
    },
    Jsge32Imm {
        dst: Reg,
        offset: i16,
        imm: i32,
    },
    Jsge32Reg {
        dst: Reg,
        src: Reg,
        offset: i16,
    },
    Jlt32Imm {
        dst: Reg,
        offset: i16,
        imm: i32,
    },
    Jlt32Reg {
        dst: Reg,
        src: Reg,
        offset: i16,
    },
    Jle32Imm {
        dst: Reg,
        offset: i16,
        imm: i32,
    },
    Jle32Reg {
        dst: Reg,
        src: Reg,
        offset: i16,
    },
    Jslt32Imm {
        dst: Reg,
        offset: i16,
        imm: i32,
    },
    Jslt32Reg {
        dst: Reg,
        src: Reg,
        offset: i16,
    },
    Jsle32Imm {
        dst: Reg,
        offset: i16,
        imm: i32,
    },
    Jsle32Reg {
        dst: Reg,
        src: Reg,
        offset: i16,
    },
    LoadB {
        dst: Reg,
        base: Reg,
        offset: i16,
    },
    LoadH {
        dst: Reg,
        base: Reg,
        offset: i16,
    },
    LoadW {
        dst: Reg,
        base: Reg,
        offset: i16,
    },
    LoadDw {
        dst: Reg,
        base: Reg,
        offset: i16,
    },
    LoadSxB {
        dst: Reg,
        base: Reg,
        offset: i16,
    },
    LoadSxH {
        dst: Reg,
        base: Reg,
        offset: i16,
    },
    LoadSxW {
        dst: Reg,
        base: Reg,
        offset: i16,
    },
    StoreImmB {
        base: Reg,
        offset: i16,
        imm: i32,
    },
    StoreRegB {
        base: Reg,
        src: Reg,
        offset: i16,
    },
    StoreImmH {
        base: Reg,
        offset: i16,
        imm: i32,
    },
    StoreRegH {
        base: Reg,
        src: Reg,
        offset: i16,
    },
    StoreImmW {
        base: Reg,
        offset: i16,
        imm: i32,
    },
    StoreRegW {
        base: Reg,
        src: Reg,
        offset: i16,
    },
    StoreImmDw {
        base: Reg,
        offset: i16,
        imm: i32,
    },
    StoreRegDw {
        base: Reg,
        src: Reg,
        offset: i16,
    },
}
