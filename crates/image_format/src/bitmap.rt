//! Reading the bitmap of written blocks.
ghost use Rattle.std.specs.Prelude.{◌≡◌, ◌≤◌, ◌<◌, ◌*◌, length, IfOk};
ghost use Rattle.image_format.specs.Faults.{Gives};
ghost use Rattle.image_format.specs.Bitmap.{is_set, is_stray, bitmap, written_in};
ghost use Rattle.image_format.specs.Tables.{blocks_in};

use crate::bits::Bits;
use crate::faults::{ImageFault, ImageKind, MountErr};
use extent_map::ExtentMap;
use page_base::NoMemory;
use std::alloc::Global;

/// The bit of a block.
pub fn is_set(bits: &[u8], b: u32) -> bool
    requires { b < 8 * length bits.now }
    ensures { result ≡ is_set bits.now b }
{
    (bits[(b / 8) as usize] >> (b % 8)) % 2 == 1
}

// Whether the bit of a block is set that no entry has.
fn is_stray(map: &ExtentMap, bits: &[u8], b: u32) -> bool
    requires { b < 8 * length bits.now }
    ensures { result ≡ is_stray bits.now (blocks_in map.now) b }
{
    if !is_set(bits, b) {
        return false;
    }
    map.owner_of(b).is_none()
}

/// No bit is set of a block that no entry has.
pub fn bitmap(map: &ExtentMap, bits: &[u8]) -> Result<(), MountErr>
    requires { length bits.now ≤ 8192 }
    ensures { Gives (λ x. x) result (bitmap (blocks_in map.now) bits.now) }
{
    for b in 0..8 * bits.len() as u32 {
        if is_stray(map, bits, b) {
            return Err(MountErr::Image(ImageFault {
                kind: ImageKind::Bitmap,
                place: u64::from(b),
            }));
        }
    }
    Ok(())
}

/// Which data blocks are written.
pub fn written_in(alloc: Global, blocks: u32, bits: &[u8]) -> Result<Bits, NoMemory>
    requires { blocks ≤ 8 * length bits.now }
    ensures { IfOk result (λ w. w ≡ written_in blocks bits.now) }
{
    let mut written = Bits::new(alloc, blocks)?;
    for b in 0..blocks {
        written.set(b, is_set(bits, b));
    }
    Ok(written)
}
