//! What atomic operations write (RFC 9669, section 5.3).

ghost use Rattle.std.specs.Prelude.{◌≡◌, true, false};
ghost use Rattle.std.specs.Int.{w32};
ghost use Rattle.sbpf_insn.specs.Arithmetic.{atomic_in, atomic_of};

use sbpf_insn::AtomicOp;

/// What the operation on 64 bits puts in the place of the old value. Compare-exchange puts `src`
/// where the old value is the expected one, and else leaves it; exchange always puts `src`.
#[inline]
pub fn atomic64(op: AtomicOp, old: u64, src: u64, expected: u64) -> u64
    ensures { result ≡ atomic_of true op old src expected }
{
    match op {
        AtomicOp::Add => old.wrapping_add(src),
        AtomicOp::Or => old | src,
        AtomicOp::And => old & src,
        AtomicOp::Xor => old ^ src,
        AtomicOp::Xchg => src,
        AtomicOp::CmpXchg if old == expected => src,
        AtomicOp::CmpXchg => old,
    }
}

/// What the operation on the low halves puts in the place of the old value, as `atomic64`; the upper
/// half of the answer is zero.
#[inline]
pub fn atomic32(op: AtomicOp, old: u64, src: u64, expected: u64) -> u64
    ensures { result ≡ atomic_of false op old src expected }
{
    let old = (old % 0x1_0000_0000) as u32;
    let src = (src % 0x1_0000_0000) as u32;
    let expected = (expected % 0x1_0000_0000) as u32;
    half(op, old, src, expected) as u64
}

#[inline]
fn half(op: AtomicOp, old: u32, put: u32, wanted: u32) -> u32
    ensures { result ≡ atomic_in w32 op old put wanted }
{
    match op {
        AtomicOp::Add => old.wrapping_add(put),
        AtomicOp::Or => old | put,
        AtomicOp::And => old & put,
        AtomicOp::Xor => old ^ put,
        AtomicOp::Xchg => put,
        AtomicOp::CmpXchg if old == wanted => put,
        AtomicOp::CmpXchg => old,
    }
}
