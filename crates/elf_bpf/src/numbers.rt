//! Little-endian numbers and parts of bytes.
ghost use Rattle.std.specs.Prelude.{◌≡◌, ◌≤◌, ◌+◌, length};
ghost use Rattle.elf_bpf.specs.Numbers.{u16_at, u32_at, u64_at, lies_within};

pub(crate) fn u16_at(bytes: &[u8], at: usize) -> u16
    requires { at + 2 ≤ length bytes.now }
    ensures { result ≡ u16_at bytes.now at }
{
    let rest = &bytes[at..];
    u16::from_le_bytes([rest[0], rest[1]])
}

pub(crate) fn u32_at(bytes: &[u8], at: usize) -> u32
    requires { at + 4 ≤ length bytes.now }
    ensures { result ≡ u32_at bytes.now at }
{
    let rest = &bytes[at..];
    u32::from_le_bytes([rest[0], rest[1], rest[2], rest[3]])
}

pub(crate) fn u64_at(bytes: &[u8], at: usize) -> u64
    requires { at + 8 ≤ length bytes.now }
    ensures { result ≡ u64_at bytes.now at }
{
    let rest = &bytes[at..];
    u64::from_le_bytes([
        rest[0], rest[1], rest[2], rest[3], rest[4], rest[5], rest[6], rest[7],
    ])
}

/// Whether so many bytes from a place on don't pass the end.
pub(crate) fn lies_within(bytes: &[u8], at: u64, size: u64) -> bool
    ensures { result ≡ lies_within bytes.now at size }
{
    match at.checked_add(size) {
        Some(end) => end <= bytes.len() as u64,
        None => false,
    }
}
