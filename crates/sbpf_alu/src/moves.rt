//! Moves with sign extension (RFC 9669, section 4.1) and byte swaps (section 4.2).

ghost use Rattle.std.specs.Prelude.{◌≡◌, ◌⊎◌, true};
ghost use Rattle.sbpf_insn.specs.Arithmetic.{extended, movsx_of, swap_of};

use sbpf_insn::Order;

/// The low 8, 16 or, where wide, 32 bits, sign-extended to 64 bits where wide, else to 32 with the
/// upper half zero.
#[inline]
pub fn movsx(wide: bool, bits: u8, src: u64) -> u64
    requires { (bits ≡ 8) ⊎ (bits ≡ 16) ⊎ ((bits ≡ 32) × (wide ≡ true)) }
    ensures { result ≡ movsx_of wide bits src }
{
    let value = match bits {
        8 => byte_extended(src),
        16 => half_word_extended(src),
        _ => word_extended(src),
    };
    if wide { value } else { value % 0x1_0000_0000 }
}

#[inline]
fn byte_extended(src: u64) -> u64
    ensures { result ≡ extended 8 64 src }
{
    let low = ((src % 0x100) as u8).cast_signed();
    (low as i64).cast_unsigned()
}

#[inline]
fn half_word_extended(src: u64) -> u64
    ensures { result ≡ extended 16 64 src }
{
    let low = ((src % 0x1_0000) as u16).cast_signed();
    (low as i64).cast_unsigned()
}

#[inline]
fn word_extended(src: u64) -> u64
    ensures { result ≡ extended 32 64 src }
{
    let low = ((src % 0x1_0000_0000) as u32).cast_signed();
    (low as i64).cast_unsigned()
}

/// The low 16, 32 or 64 bits of the value, as they are for `Little`, with their bytes reversed else.
#[inline]
pub fn swap(order: Order, bits: u8, value: u64) -> u64
    requires { (bits ≡ 16) ⊎ (bits ≡ 32) ⊎ (bits ≡ 64) }
    ensures { result ≡ swap_of order bits value }
{
    match (order, bits) {
        (Order::Little, 16) => value % 0x1_0000,
        (Order::Little, 32) => value % 0x1_0000_0000,
        (Order::Little, _) => value,
        (_, 16) => ((value % 0x1_0000) as u16).swap_bytes() as u64,
        (_, 32) => ((value % 0x1_0000_0000) as u32).swap_bytes() as u64,
        _ => value.swap_bytes(),
    }
}
