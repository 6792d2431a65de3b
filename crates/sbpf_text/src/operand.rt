// Operands as they are printed.
use sbpf_insn::Reg;

/// An operand: a register, an imm, the number of a wide load, a distance or an offset with its sign in a
/// field of 16 bits or of 32, or an address.
#[derive(Clone, Copy)]
pub(crate) enum Operand {
    Register(Reg),
    Number(i32),
    Wide(u64),
    Near(i16),
    Far(i32),
    Address(Reg, i16),
}
