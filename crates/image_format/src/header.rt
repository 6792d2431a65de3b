//! Reading page 0.
ghost use Rattle.std.specs.Prelude.{◌≡◌, ◌≤◌, ◌<◌, ◌+◌, ◌^◌, length, IfOk, bytes_eq, take, nat_le, ◌&&◌, ◌||◌, ◌==◌};
ghost use Rattle.image_format.specs.Faults.{Gives};
ghost use Rattle.image_format.specs.Header.{magic, reserved, header, image_length};
ghost use Rattle.image_format.specs.Layout.{layout, lead};
ghost use Rattle.page_base.specs.Drive.{IsDrive};

use crate::faults::{ImageFault, ImageKind, MountErr};
use crate::numbers::{demand, first_set, u32_at};

/// What page 0 says.
#[derive(Clone, Copy, Debug, PartialEq, Eq)]
pub struct Header {
    pub version: u32,
    pub blocks: u32,
    pub dies: u32,
    pub next: u32,
}

fn is_magic(bytes: &[u8]) -> bool
    requires { 4096 ≤ length bytes.now }
    ensures { result ≡ bytes_eq (take 4 bytes.now) magic }
{
    let front = &bytes[..4];
    front == b"LIO1".as_slice()
}

/// The pages before the data.
pub fn lead(version: u32, blocks: u32) -> u32
    requires { blocks ≤ 65536 }
    ensures value { result ≡ lead (layout version) blocks }
    ensures within { result ≤ 1024 }
{
    let records = if version == 1 { 16 } else { 128 };
    1 + records + blocks.div_ceil(256) + blocks.div_ceil(32_768)
}

#[tactic(auto, unfolding(crate::specs::Header::reserved))]
fn reserved(bytes: &[u8]) -> Result<(), MountErr>
    requires { 4096 ≤ length bytes.now }
    ensures { Gives (λ x. x) result (reserved bytes.now) }
{
    match first_set(&bytes[20..4096]) {
        None => Ok(()),
        Some(i) => Err(MountErr::Image(ImageFault {
            kind: ImageKind::Reserved,
            place: 20 + i as u64,
        })),
    }
}

/// What page 0 says, or its first fault.
#[tactic(auto, unfolding(crate::specs::Header::header))]
pub fn read_header(bytes: &[u8]) -> Result<Header, MountErr>
    ensures value { Gives (λ x. x) result (header bytes.now) }
    ensures shape { IfOk result (λ h. IsDrive h.blocks h.dies) }
    ensures size { IfOk result (λ h. length bytes.now ≡ image_length h.version h.blocks) }
    ensures next { IfOk result (λ h. 1 ≤ h.next) }
{
    let len = bytes.len() as u64;
    demand(len >= 4096, ImageKind::Short, len)?;
    let version = u32_at(bytes, 4);
    let blocks = u32_at(bytes, 8);
    let dies = u32_at(bytes, 12);
    let next = u32_at(bytes, 16);
    demand(is_magic(bytes), ImageKind::Magic, 0)?;
    demand(version == 1 || version == 2, ImageKind::Version, 4)?;
    demand(blocks >= 1 && blocks <= 65_536, ImageKind::Geometry, 8)?;
    demand(dies >= 1 && dies <= 16, ImageKind::Geometry, 12)?;
    let pages = u64::from(lead(version, blocks) + blocks);
    demand(len == 4096 * pages, ImageKind::Length, len)?;
    demand(next >= 1, ImageKind::NextId, 16)?;
    reserved(bytes)?;
    Ok(Header {
        version,
        blocks,
        dies,
        next,
    })
}
