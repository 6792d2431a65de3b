//! The tests of conditional jumps (RFC 9669, section 4.3).

ghost use Rattle.std.specs.Prelude.{◌≡◌, ◌%◌, ◌^◌};
ghost use Rattle.std.specs.Int.{w32, w64};
ghost use Rattle.sbpf_insn.specs.Arithmetic.{compare};

use sbpf_insn::Cond;

/// Whether the test holds of the 64 bits of a and b.
#[inline]
pub fn compare64(cond: Cond, a: u64, b: u64) -> bool
    ensures { result ≡ compare w64 cond a b }
{
    match cond {
        Cond::Jeq => a == b,
        Cond::Jgt => a > b,
        Cond::Jge => a >= b,
        Cond::Jset => a & b != 0,
        Cond::Jne => a != b,
        Cond::Jsgt => a.cast_signed() > b.cast_signed(),
        Cond::Jsge => a.cast_signed() >= b.cast_signed(),
        Cond::Jlt => a < b,
        Cond::Jle => a <= b,
        Cond::Jslt => a.cast_signed() < b.cast_signed(),
        Cond::Jsle => a.cast_signed() <= b.cast_signed(),
    }
}

/// Whether the test holds of the low halves of a and b.
#[inline]
pub fn compare32(cond: Cond, a: u64, b: u64) -> bool
    ensures { result ≡ compare w32 cond (a % 2 ^ 32) (b % 2 ^ 32) }
{
    let left = (a % 0x1_0000_0000) as u32;
    let right = (b % 0x1_0000_0000) as u32;
    match cond {
        Cond::Jeq => left == right,
        Cond::Jgt => left > right,
        Cond::Jge => left >= right,
        Cond::Jset => left & right != 0,
        Cond::Jne => left != right,
        Cond::Jsgt => left.cast_signed() > right.cast_signed(),
        Cond::Jsge => left.cast_signed() >= right.cast_signed(),
        Cond::Jlt => left < right,
        Cond::Jle => left <= right,
        Cond::Jslt => left.cast_signed() < right.cast_signed(),
        Cond::Jsle => left.cast_signed() <= right.cast_signed(),
    }
}
