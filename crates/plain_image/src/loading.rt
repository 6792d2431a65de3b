//! From an image to a plain machine.
ghost use Rattle.std.specs.Prelude.{◌≡◌, ◌≤◌, ◌<◌, ◌+◌, ◌^◌, ◌++◌, length, take, drop, IfOk};
ghost use Rattle.std.specs.List.{flat_map};
ghost use Rattle.page_base.specs.Bytes.{Pages};
ghost use Rattle.page_base.specs.Drive.{IsDrive};
ghost use Rattle.image_format.specs.Faults.{Gives};
ghost use Rattle.image_format.specs.Image.{read_image};
ghost use Rattle.image_format.specs.Tables.{Mounts, blocks_in};
ghost use Rattle.image_format.specs.Whole.{content_of, stands_for};
ghost use Rattle.plain_image.specs.Fits.{Fits};
ghost use Rattle.plain_image.specs.Drives.{machine_on, drive_of};
ghost use Rattle.plain_image.specs.Tables.{IsPlaced};

use crate::drive::{OpenedImage, PlainDrive};
use crate::pages::page_count;
use edge_io::Bytes;
use image_format::{Meta, MountErr, mount};
use image_laws::laws::mounted_is_whole;
use page_base::{NoMemory, Page};
use plain_run::Plain;
use std::alloc::Global;

// Adds what a data block stands for.
fn add_block(into: &mut Vec<u8>, meta: &Meta, body: &[Page], block: u32) -> Result<(), NoMemory>
    requires written { block < length meta.now.written }
    requires body { block < length body.now }
    ensures value { IfOk result (λ _. into.new.items ≡ into.old.items ++ content_of meta.now body.now block) }
    ensures len { IfOk result (λ _. length into.new.items ≡ length into.old.items + 4096) }
{
    let mut piece = [0; 4096];
    if meta.written.get(block) {
        body[block as usize].read(0, &mut piece);
    }
    into.extend_from_slice(&piece)?;
    Ok(())
}

// The bytes of a file of this length, before whose pages so many have their places.
fn file_bytes(
    alloc: Global,
    meta: &Meta,
    body: &[Page],
    before: u32,
    len: u32,
) -> Result<Bytes, NoMemory>
    requires placed { IsPlaced meta.now body.now }
    requires small { len ≤ 2 ^ 28 }
    requires there { before + Pages len ≤ length meta.now.extents.placed }
    ensures len { IfOk result (λ b. length b ≡ len) }
    ensures value { IfOk result (λ b. b ≡ take len (flat_map (content_of meta.now body.now) (take (Pages len) (drop before (blocks_in meta.now.extents))))) }
{
    let pages = page_count(len as usize);
    let _blocks = meta.extents.blocks();
    let mut bytes = Vec::with_capacity(alloc, 4096 * pages as usize)?;
    for k in 0..pages {
        if let Some(place) = meta.extents.place_at(before + k) {
            add_block(&mut bytes, meta, body, place.block)?;
        }
    }
    bytes.truncate(len as usize);
    Ok(Bytes::new(bytes))
}

// The machine of the files that meta data and data blocks stand for.
fn machine_of(alloc: Global, meta: &Meta, body: &[Page]) -> Result<Plain, NoMemory>
    requires { IsPlaced meta.now body.now }
    ensures value { IfOk result (λ p. p ≡ machine_on meta.now.geometry.blocks (stands_for meta.now body.now)) }
    ensures fits { IfOk result (λ p. Fits meta.now.geometry.blocks p) }
{
    let _blocks = meta.extents.blocks();
    let _files = meta.names.len();
    let mut plain = Plain::new(alloc, meta.geometry.blocks())?;
    let mut before = 0;
    let mut i = 0;
    while let Some(file) = meta.names.at(i) {
        let bytes = file_bytes(alloc, meta, body, before, file.len)?;
        plain.add_file(file.id, file.name, bytes, file.sealed)?;
        before += page_count(file.len as usize);
        i += 1;
    }
    plain.set_next(meta.names.next_id());
    Ok(plain)
}

/// The drive of an image of either version, with its files in a plain machine, beside the meta data and the pages
/// that the image mounts to; or the image's first fault.
pub fn open_image(alloc: Global, bytes: &[u8]) -> Result<OpenedImage, MountErr>
    ensures value { Gives (λ o. o.drive) result (drive_of bytes.now) }
    ensures mounts { IfOk result (λ o. Mounts bytes.now o.meta o.pages.items (read_image bytes.now)) }
    ensures fits { IfOk result (λ o. Fits o.drive.geometry.blocks o.drive.plain) }
    ensures limits { IfOk result (λ o. IsDrive o.drive.geometry.blocks o.drive.geometry.dies) }
{
    let (meta, pages) = mount(alloc, bytes)?;
    mounted_is_whole();
    let _blocks = meta.extents.blocks();
    let body = pages.split_at(meta.geometry.meta_pages() as usize).1;
    let plain = machine_of(alloc, &meta, body)?;
    let geometry = meta.geometry;
    let drive = PlainDrive { geometry, plain };
    Ok(OpenedImage { drive, meta, pages })
}
