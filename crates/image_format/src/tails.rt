//! Reading the ends of the files.
ghost use Rattle.std.specs.Prelude.{◌≡◌, ◌≤◌, ◌<◌, ◌+◌, ◌*◌, length, take, drop};
ghost use Rattle.image_format.specs.Faults.{Gives};
ghost use Rattle.page_base.specs.Bytes.{Pages};
ghost use Rattle.image_format.specs.Tails.{Share, data_page, tails, shares, has_tail};
ghost use Rattle.image_format.specs.Tables.{blocks_in, stored_files, pages_of};

use crate::bitmap::is_set;
use crate::entries::page_count;
use crate::faults::{ImageFault, ImageKind, MountErr};
use crate::numbers::are_zero;
use extent_map::ExtentMap;
use name_table::Names;

// The page of a data block.
fn data_page(body: &[u8], b: u32) -> &[u8]
    requires { 4096 * (b + 1) ≤ length body.now }
    ensures value { result.now ≡ data_page body.now b }
    ensures len { length result.now ≡ 4096 }
{
    let at = 4096 * b as usize;
    &body[at..at + 4096]
}

// Whether the last block of a file of this length is written and has a byte past the length that isn't zero;
// so many pages of other files come before its own.
fn has_tail(map: &ExtentMap, bits: &[u8], body: &[u8], len: u32, start: u32) -> bool
    requires bits { map.now.blocks ≤ 8 * length bits.now }
    requires body { 4096 * map.now.blocks ≤ length body.now }
    requires covered { start + Pages len ≤ length map.now.placed }
    ensures { (s : Share) → s.file.len ≡ len → s.blocks ≡ take (Pages len) (drop start (blocks_in map.now)) → result ≡ has_tail bits.now body.now s }
{
    let over = len % 4096;
    if over == 0 {
        return false;
    }
    let _blocks = map.blocks();
    let Some(place) = map.place_at(start + len / 4096) else {
        return false;
    };
    if !is_set(bits, place.block) {
        return false;
    }
    !are_zero(&data_page(body, place.block)[over as usize..])
}

/// No file has such a tail.
pub fn tails(names: &Names, map: &ExtentMap, bits: &[u8], body: &[u8]) -> Result<(), MountErr>
    requires bits { map.now.blocks ≤ 8 * length bits.now }
    requires body { 4096 * map.now.blocks ≤ length body.now }
    requires covered { length map.now.placed ≡ pages_of (stored_files names.now) }
    ensures { Gives (λ x. x) result (tails bits.now body.now (shares (stored_files names.now) (blocks_in map.now))) }
{
    let _blocks = map.blocks();
    let mut i = 0;
    let mut start = 0;
    while let Some(file) = names.at(i) {
        if has_tail(map, bits, body, file.len, start) {
            return Err(MountErr::Image(ImageFault {
                kind: ImageKind::Tail,
                place: u64::from(file.id),
            }));
        }
        start += page_count(file.len);
        i += 1;
    }
    Ok(())
}
