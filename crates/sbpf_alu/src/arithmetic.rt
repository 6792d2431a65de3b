//! Arithmetic on 64 and on 32 bits (RFC 9669, section 4.1).

ghost use Rattle.std.specs.Prelude.{◌≡◌};
ghost use Rattle.std.specs.Int.{w32};
ghost use Rattle.sbpf_insn.specs.Arithmetic.{alu, alu64_of, alu32_of};

use sbpf_insn::AluOp;

/// The operator on 64 bits. Sums, differences and products wrap. A quotient by zero is 0, a
/// remainder by zero is `dst`, and the signed minimum divided by -1 is the minimum with remainder 0.
/// Shifts take `src` modulo 64.
#[inline]
pub fn alu64(op: AluOp, dst: u64, src: u64) -> u64
    ensures { result ≡ alu64_of op dst src }
{
    match op {
        AluOp::Add => dst.wrapping_add(src),
        AluOp::Sub => dst.wrapping_sub(src),
        AluOp::Mul => dst.wrapping_mul(src),
        AluOp::Div if src == 0 => 0,
        AluOp::Div => dst / src,
        AluOp::Sdiv if src == 0 => 0,
        AluOp::Sdiv => dst
            .cast_signed()
            .wrapping_div(src.cast_signed())
            .cast_unsigned(),
        AluOp::Or => dst | src,
        AluOp::And => dst & src,
        AluOp::Lsh => dst << (src % 64),
        AluOp::Rsh => dst >> (src % 64),
        AluOp::Mod if src == 0 => dst,
        AluOp::Mod => dst % src,
        AluOp::Smod if src == 0 => dst,
        AluOp::Smod => dst
            .cast_signed()
            .wrapping_rem(src.cast_signed())
            .cast_unsigned(),
        AluOp::Xor => dst ^ src,
        AluOp::Mov => src,
        AluOp::Arsh => (dst.cast_signed() >> (src % 64)).cast_unsigned(),
    }
}

/// The operator on the low halves, as `alu64` with 32 in place of 64; the upper half of the answer
/// is zero.
#[inline]
pub fn alu32(op: AluOp, dst: u64, src: u64) -> u64
    ensures { result ≡ alu32_of op dst src }
{
    let dst = (dst % 0x1_0000_0000) as u32;
    let src = (src % 0x1_0000_0000) as u32;
    half(op, dst, src) as u64
}

#[inline]
fn half(op: AluOp, a: u32, b: u32) -> u32
    ensures { result ≡ alu w32 op a b }
{
    match op {
        AluOp::Add => a.wrapping_add(b),
        AluOp::Sub => a.wrapping_sub(b),
        AluOp::Mul => a.wrapping_mul(b),
        AluOp::Div if b == 0 => 0,
        AluOp::Div => a / b,
        AluOp::Sdiv if b == 0 => 0,
        AluOp::Sdiv => a
            .cast_signed()
            .wrapping_div(b.cast_signed())
            .cast_unsigned(),
        AluOp::Or => a | b,
        AluOp::And => a & b,
        AluOp::Lsh => a << (b % 32),
        AluOp::Rsh => a >> (b % 32),
        AluOp::Mod if b == 0 => a,
        AluOp::Mod => a % b,
        AluOp::Smod if b == 0 => a,
        AluOp::Smod => a
            .cast_signed()
            .wrapping_rem(b.cast_signed())
            .cast_unsigned(),
        AluOp::Xor => a ^ b,
        AluOp::Mov => b,
        AluOp::Arsh => (a.cast_signed() >> (b % 32)).cast_unsigned(),
    }
}
