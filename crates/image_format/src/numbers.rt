//! Numbers and zeros among bytes, and tests that answer with a fault.
ghost use Rattle.std.specs.Prelude.{◌≡◌, ◌≤◌, ◌<◌, ◌+◌, length, IfSome, OnOk, IsTrue};
ghost use Rattle.image_format.specs.Numbers.{u32_at, are_zero, first_set};
ghost use Rattle.image_format.specs.Faults.{Gives, demand};

use crate::faults::{ImageFault, ImageKind, MountErr};

/// The number of the four bytes at a place.
pub fn u32_at(bytes: &[u8], at: usize) -> u32
    requires { at + 4 ≤ length bytes.now }
    ensures { result ≡ u32_at bytes.now at }
{
    u32::from_le_bytes([bytes[at], bytes[at + 1], bytes[at + 2], bytes[at + 3]])
}

/// Whether all bytes are zeros.
pub fn are_zero(bytes: &[u8]) -> bool
    ensures { result ≡ are_zero bytes.now }
{
    bytes.iter().all(|b| *b == 0)
}

/// Where the first byte stands that isn't zero.
pub fn first_set(bytes: &[u8]) -> Option<usize>
    ensures value { result ≡ first_set bytes.now }
    ensures within { IfSome result (λ i. i < length bytes.now) }
{
    bytes.iter().position(|b| *b != 0)
}

/// The fault, unless this holds.
pub fn demand(holds: bool, kind: ImageKind, place: u64) -> Result<(), MountErr>
    ensures value { Gives (λ x. x) result (demand holds kind place) }
    ensures holds { OnOk result (IsTrue holds) }
{
    if holds {
        Ok(())
    } else {
        Err(MountErr::Image(ImageFault { kind, place }))
    }
}
