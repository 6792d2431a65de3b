// Little-endian numbers in bytes.
ghost use Rattle.std.specs.Prelude.{◌≡◌, ◌+◌, ◌≤◌, length};
ghost use Rattle.sbpf_insn.specs.Machine.{number_at, put, put_number, size_len};

use sbpf_insn::Size;

/// How many bytes a number of this size has.
#[inline]
pub(crate) fn size_len(size: Size) -> usize
    ensures { result ≡ size_len size }
{
    match size {
        Size::B => 1,
        Size::H => 2,
        Size::W => 4,
        Size::Dw => 8,
    }
}

/// The number at a place.
#[inline]
pub(crate) fn number(b: &[u8], at: usize, size: Size) -> u64
    requires { at + size_len size ≤ length b.now }
    ensures { result ≡ number_at size b.now at }
{
    match size {
        Size::B => b[at] as u64,
        Size::H => u16::from_le_bytes([b[at], b[at + 1]]) as u64,
        Size::W => u32::from_le_bytes([b[at], b[at + 1], b[at + 2], b[at + 3]]) as u64,
        Size::Dw => u64::from_le_bytes([
            b[at],
            b[at + 1],
            b[at + 2],
            b[at + 3],
            b[at + 4],
            b[at + 5],
            b[at + 6],
            b[at + 7],
        ]),
    }
}

/// Writes the low bytes of a number at a place.
#[inline]
pub(crate) fn put_number(b: &mut [u8], at: usize, size: Size, value: u64)
    requires { at + size_len size ≤ length b.old }
    ensures { b.new ≡ put_number size b.old at value }
{
    match size {
        Size::B => b[at] = (value % 0x100) as u8,
        Size::H => put2(b, at, ((value % 0x1_0000) as u16).to_le_bytes()),
        Size::W => put4(b, at, ((value % 0x1_0000_0000) as u32).to_le_bytes()),
        Size::Dw => put8(b, at, value.to_le_bytes()),
    }
}

#[inline]
fn put2(b: &mut [u8], at: usize, new: [u8; 2])
    requires { at + 2 ≤ length b.old }
    ensures { b.new ≡ put b.old at new }
{
    b[at] = new[0];
    b[at + 1] = new[1];
}

#[inline]
fn put4(b: &mut [u8], at: usize, new: [u8; 4])
    requires { at + 4 ≤ length b.old }
    ensures { b.new ≡ put b.old at new }
{
    b[at] = new[0];
    b[at + 1] = new[1];
    b[at + 2] = new[2];
    b[at + 3] = new[3];
}

#[inline]
fn put8(b: &mut [u8], at: usize, new: [u8; 8])
    requires { at + 8 ≤ length b.old }
    ensures { b.new ≡ put b.old at new }
{
    b[at] = new[0];
    b[at + 1] = new[1];
    b[at + 2] = new[2];
    b[at + 3] = new[3];
    b[at + 4] = new[4];
    b[at + 5] = new[5];
    b[at + 6] = new[6];
    b[at + 7] = new[7];
}
