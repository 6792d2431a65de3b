//! Mounting an image: one pass over its parts, in the order in which their faults answer.
ghost use Rattle.std.specs.Prelude.{ℕ, ◌≡◌, ◌≤◌, ◌<◌, ◌+◌, ◌*◌, ◌^◌, [], ◌++◌, length, map, IfOk, IfErr};
ghost use Rattle.std.specs.List.{range_with_len};
ghost use Rattle.page_base.specs.Drive.{IsDrive, meta_pages};
ghost use Rattle.image_format.specs.Faults.{Gives, Fails};
ghost use Rattle.image_format.specs.Header.{image_length};
ghost use Rattle.image_format.specs.Layout.{layout, record_pages, entry_pages};
ghost use Rattle.image_format.specs.Image.{parts, meant, files_in, blocks_of, read_image};
ghost use Rattle.image_format.specs.Encoding.{meta_page};
ghost use Rattle.image_format.specs.Tables.{stored_files, blocks_in, placed_of, pages_from, own_pages, IsOneSize, Mounts, pages_of};
ghost use Rattle.image_format.specs.Reading.{parts_of, image_of, HasSizes};

use crate::bitmap::{bitmap, written_in};
use crate::entries::{Covered, all_covered, entries};
use crate::faults::MountErr;
use crate::header::{Header, read_header};
use crate::layout::{layout_of, record_page_count};
use crate::meta::Meta;
use crate::pages::meta_page;
use crate::records::{Listed, records};
use crate::tails::tails;
use extent_map::ExtentMap;
use name_table::Names;
use page_base::{Geometry, NoMemory, Page};
use std::alloc::Global;

/// The parts of an image behind its header.
#[derive(Clone, Copy)]
pub struct Split<'a> {
    pub records: &'a [u8],
    pub entries: &'a [u8],
    pub bits: &'a [u8],
    pub body: &'a [u8],
}

/// The files of an image, and the blocks of their pages.
#[derive(Drop)]
pub struct Read {
    pub names: Names,
    pub extents: ExtentMap,
}

#[tactic(auto, unfolding(crate::specs::Image::parts))]
fn cut_parts(h: Header, bytes: &[u8]) -> Split<'_>
    requires shape { IsDrive h.blocks h.dies }
    requires size { length bytes.now ≡ image_length h.version h.blocks }
    ensures value { parts_of result ≡ parts h bytes.now }
    ensures sizes { HasSizes h (parts_of result) }
{
    let record_pages = if h.version == 1 { 16 } else { 128 };
    let entry_pages = h.blocks.div_ceil(256) as usize;
    let bit_pages = h.blocks.div_ceil(32_768) as usize;
    let behind_header = bytes.split_at(4096).1;
    let (records, behind_records) = behind_header.split_at(4096 * record_pages);
    let (entries, behind_entries) = behind_records.split_at(4096 * entry_pages);
    let (bits, body) = behind_entries.split_at(4096 * bit_pages);
    Split {
        records,
        entries,
        bits,
        body,
    }
}

// Reads the records into a table of names.
fn read_names(alloc: Global, h: Header, bytes: &[u8]) -> Result<Names, MountErr>
    requires size { length bytes.now ≡ 4096 * record_pages (layout h.version) }
    requires next { 1 ≤ h.next }
    ensures value { Gives stored_files result (files_in h bytes.now) }
    ensures next { IfOk result (λ t. t.next ≡ h.next) }
{
    let layout = layout_of(h.version);
    let empty = Names::new(alloc)?;
    let mut listed = Listed {
        names: empty,
        last: 0,
        ended: false,
    };
    records(layout, h.next, &mut listed, bytes)?;
    let mut names = listed.names;
    names.set_next(h.next);
    Ok(names)
}

// Reads the entries into a map of extents.
fn read_extents(
    alloc: Global,
    h: Header,
    names: &Names,
    bytes: &[u8],
) -> Result<ExtentMap, MountErr>
    requires shape { IsDrive h.blocks h.dies }
    requires size { length bytes.now ≡ 4096 * entry_pages h.blocks }
    ensures value { Gives blocks_in result (blocks_of h (stored_files names.now) bytes.now) }
    ensures size { IfOk result (λ s. s.blocks ≡ h.blocks) }
    ensures places { IfOk result (λ s. s.placed ≡ placed_of (stored_files names.now) (blocks_in s)) }
    ensures covered { IfOk result (λ s. length s.placed ≡ pages_of (stored_files names.now)) }
{
    let count = 256 * h.blocks.div_ceil(256);
    let start = 4096 * (1 + record_page_count(h.version));
    let empty = ExtentMap::new(alloc, h.blocks)?;
    let mut so_far = Covered {
        map: empty,
        index: 0,
        page: 0,
        ended: false,
    };
    entries(names, count, start, &mut so_far, bytes)?;
    all_covered(names, &mut so_far)?;
    Ok(so_far.map)
}

// What the parts say, or the first fault behind the header.
fn read_parts(alloc: Global, h: Header, p: Split<'_>) -> Result<Read, MountErr>
    requires shape { IsDrive h.blocks h.dies }
    requires next { 1 ≤ h.next }
    requires sizes { HasSizes h (parts_of p) }
    ensures value { Gives (λ t. image_of h (parts_of p.entry) t) result (meant h (parts_of p.entry)) }
    ensures next { IfOk result (λ t. t.names.next ≡ h.next) }
    ensures size { IfOk result (λ t. t.extents.blocks ≡ h.blocks) }
    ensures places { IfOk result (λ t. t.extents.placed ≡ placed_of (stored_files t.names) (blocks_in t.extents)) }
{
    let names = read_names(alloc, h, p.records)?;
    let extents = read_extents(alloc, h, &names, p.entries)?;
    bitmap(&extents, p.bits)?;
    tails(&names, &extents, p.bits, p.body)?;
    Ok(Read { names, extents })
}

// Adds so many pages, of which these are the first bytes.
fn push_pages(alloc: Global, into: &mut Vec<Page>, bytes: &[u8], count: u32) -> Result<(), NoMemory>
    requires { 4096 * count ≤ length bytes.now }
    ensures { IfOk result (λ _. into.new.items ≡ into.old.items ++ pages_from bytes.now count) }
{
    let mut rest = bytes;
    for _ in 0..count {
        let (front, behind) = rest.split_at(4096);
        let mut page = Page::zero(alloc)?;
        page.patch(0, front);
        into.push(page)?;
        rest = behind;
    }
    Ok(())
}

// Adds the pages of meta data.
fn push_meta(alloc: Global, into: &mut Vec<Page>, meta: &Meta) -> Result<(), NoMemory>
    requires { IsOneSize meta.now }
    ensures { IfOk result (λ _. into.new.items ≡ into.old.items ++ map (meta_page meta.now) (range_with_len 0 (meta_pages meta.now.geometry.blocks))) }
{
    for i in 0..meta.geometry.meta_pages() {
        let mut page = Page::zero(alloc)?;
        meta_page(meta, i, &mut page);
        into.push(page)?;
    }
    Ok(())
}

// Adds the pages of meta data: the image's own ones where it is of version 2, and else those of version 2.
fn push_own(
    alloc: Global,
    into: &mut Vec<Page>,
    version: u32,
    meta: &Meta,
    bytes: &[u8],
) -> Result<(), NoMemory>
    requires whole { version ≡ 2 → 4096 * meta_pages meta.now.geometry.blocks ≤ length bytes.now }
    requires size { IsOneSize meta.now }
    ensures { IfOk result (λ _. into.new.items ≡ into.old.items ++ own_pages version meta.now.geometry.blocks bytes.now meta.now) }
{
    if version == 2 {
        return push_pages(alloc, into, bytes, meta.geometry.meta_pages());
    }
    push_meta(alloc, into, meta)
}

// All pages of an image: those of meta data, and then the data blocks.
fn all_pages(
    alloc: Global,
    version: u32,
    meta: &Meta,
    bytes: &[u8],
    body: &[u8],
) -> Result<Vec<Page>, NoMemory>
    requires whole { version ≡ 2 → 4096 * meta_pages meta.now.geometry.blocks ≤ length bytes.now }
    requires body { 4096 * meta.now.geometry.blocks ≤ length body.now }
    requires size { IsOneSize meta.now }
    ensures { IfOk result (λ v. v.items ≡ own_pages version meta.now.geometry.blocks bytes.now meta.now ++ pages_from body.now meta.now.geometry.blocks) }
{
    let total = meta.geometry.total() as usize;
    let mut pages = Vec::with_capacity(alloc, total)?;
    push_own(alloc, &mut pages, version, meta, bytes)?;
    push_pages(alloc, &mut pages, body, meta.geometry.blocks())?;
    Ok(pages)
}

/// The meta data and all pages of an image of either version, or its first fault.
///
/// An image of version 1 gets the pages of meta data and the places that version 2 has, and its data blocks stay as they are.
pub fn mount(alloc: Global, bytes: &[u8]) -> Result<(Meta, Vec<Page>), MountErr>
    ensures fault { IfErr result (λ e. Fails e (read_image bytes.now)) }
    ensures ok { IfOk result (λ x. Mounts bytes.now x.0 x.1.items (read_image bytes.now)) }
{
    let h = read_header(bytes)?;
    let p = cut_parts(h, bytes);
    let Read { names, extents } = read_parts(alloc, h, p)?;
    let written = written_in(alloc, h.blocks, p.bits)?;
    let Some(geometry) = Geometry::new(h.blocks, h.dies) else {
        unreachable!();
    };
    let meta = Meta {
        geometry,
        names,
        extents,
        written,
    };
    let pages = all_pages(alloc, h.version, &meta, bytes, p.body)?;
    Ok((meta, pages))
}
