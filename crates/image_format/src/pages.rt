//! The pages of meta data in an image of version 2.
ghost use Rattle.std.specs.Prelude.{◌≡◌, ◌≤◌, ◌<◌, ◌+◌, ◌*◌, ◌^◌, [], length, drop, slice_get, IfSome, IfNone};
ghost use Rattle.page_base.specs.Bytes.{patched};
ghost use Rattle.page_base.specs.Drive.{meta_pages};
ghost use Rattle.extent_map.specs.Places.{runs};
ghost use Rattle.image_format.specs.Numbers.{part};
ghost use Rattle.image_format.specs.Layout.{entry_pages, bit_pages};
ghost use Rattle.image_format.specs.Encoding.{header_bytes, record_head, record_at, entry_bytes, entry_at, bit, byte_from, header_part, record_part, entry_part, bits_part, meta_page};
ghost use Rattle.image_format.specs.Tables.{IsOneSize};

use crate::bits::Bits;
use crate::meta::Meta;
use extent_map::{Extent, ExtentMap};
use name_table::{FileRec, Names};
use page_base::{Geometry, Page};

fn header_bytes(geometry: Geometry, next: u32) -> [u8; 20]
    ensures { result ≡ header_bytes geometry next }
{
    let version = 2u32.to_le_bytes();
    let blocks = geometry.blocks().to_le_bytes();
    let dies = geometry.dies().to_le_bytes();
    let next = next.to_le_bytes();
    let mut header = [0; 20];
    header[..4].copy_from_slice(b"LIO1");
    header[4..8].copy_from_slice(&version);
    header[8..12].copy_from_slice(&blocks);
    header[12..16].copy_from_slice(&dies);
    header[16..].copy_from_slice(&next);
    header
}

#[tactic(auto, unfolding(crate::specs::Encoding::header_part))]
fn header_page(geometry: Geometry, next: u32, into: &mut Page)
    ensures { into.new ≡ header_part geometry next }
{
    let header = header_bytes(geometry, next);
    into.clear_from(0);
    into.patch(0, &header);
}

fn record_head(file: &FileRec) -> [u8; 32]
    ensures { result ≡ record_head file.now }
{
    let id = file.id.to_le_bytes();
    let len = file.len.to_le_bytes();
    let mut head = [0; 32];
    head[..4].copy_from_slice(&id);
    head[4..8].copy_from_slice(&len);
    head[8] = file.name.as_slice().len() as u8;
    head[9] = if file.sealed { 1 } else { 0 };
    head
}

// Puts the record of the file of a number at a place, where zeros stand.
fn put_record(names: &Names, index: u32, at: usize, into: &mut Page)
    requires place { at + 128 ≤ 4096 }
    requires whole { length into.old ≡ 4096 }
    ensures value { into.new ≡ patched into.old at (record_at (slice_get names.now.files index)) }
    ensures whole { length into.new ≡ 4096 }
{
    let Some(file) = names.at(index) else {
        return;
    };
    into.patch(at, &record_head(file));
    into.patch(at + 32, file.name.as_slice());
}

// A page of 32 records.
fn record_page(names: &Names, i: u32, into: &mut Page)
    requires { i < 128 }
    ensures { into.new ≡ part (record_part names.now.files) (4096 * i) 4096 }
{
    let _len = names.len();
    into.clear_from(0);
    for k in 0..32u32 {
        put_record(names, 32 * i + k, 128 * k as usize, into);
    }
}

fn entry_bytes(e: Extent) -> [u8; 16]
    ensures { result ≡ entry_bytes e }
{
    let file = e.file.to_le_bytes();
    let page = e.page.to_le_bytes();
    let block = e.block.to_le_bytes();
    let count = e.count.to_le_bytes();
    let mut entry = [0; 16];
    entry[..4].copy_from_slice(&file);
    entry[4..8].copy_from_slice(&page);
    entry[8..12].copy_from_slice(&block);
    entry[12..].copy_from_slice(&count);
    entry
}

// The run that begins with the place of a number; none behind the last place.
fn run_behind(map: &ExtentMap, at: u32) -> Option<Extent>
    requires { at ≤ length map.now.placed }
    ensures value { result ≡ slice_get (runs (drop at map.now.placed)) 0 }
    ensures within { IfSome result (λ e. at + e.count ≤ length map.now.placed) }
    ensures next { IfSome result (λ e. runs (drop (at + e.count) map.now.placed) ≡ drop 1 (runs (drop at map.now.placed))) }
    ensures none { IfNone result (runs (drop at map.now.placed) ≡ []) }
    ensures small { length map.now.placed < 2 ^ 32 }
{
    let placed = map.blocks() - map.free();
    if at >= placed {
        return None;
    }
    Some(map.run_at(at))
}

// The place behind that run.
fn behind_run(map: &ExtentMap, at: u32) -> u32
    requires { at ≤ length map.now.placed }
    ensures within { result ≤ length map.now.placed }
    ensures next { runs (drop result map.now.placed) ≡ drop 1 (runs (drop at map.now.placed)) }
{
    match run_behind(map, at) {
        None => at,
        Some(run) => at + run.count,
    }
}

// The place at which the i-th run begins; the number of places where there is none.
fn run_start(map: &ExtentMap, i: u32) -> u32
    ensures within { result ≤ length map.now.placed }
    ensures value { runs (drop result map.now.placed) ≡ drop i (runs map.now.placed) }
{
    let mut at = 0;
    for k in 0..i {
        at = behind_run(map, at);
    }
    at
}

// Puts the entry of the run that begins with the place of a number, and gives the place behind it.
fn put_entry(map: &ExtentMap, at: u32, place: usize, into: &mut Page) -> u32
    requires at { at ≤ length map.now.placed }
    requires place { place + 16 ≤ 4096 }
    ensures value { into.new ≡ patched into.old place (entry_at (slice_get (runs (drop at map.now.placed)) 0)) }
    ensures within { result ≤ length map.now.placed }
    ensures next { runs (drop result map.now.placed) ≡ drop 1 (runs (drop at map.now.placed)) }
{
    match run_behind(map, at) {
        None => at,
        Some(run) => {
            into.patch(place, &entry_bytes(run));
            at + run.count
        }
    }
}

// A page of 256 entries.
fn entry_page(map: &ExtentMap, blocks: u32, i: u32, into: &mut Page)
    requires size { map.now.blocks ≡ blocks }
    requires page { i < entry_pages blocks }
    requires small { blocks ≤ 65536 }
    ensures { into.new ≡ part (entry_part blocks (runs map.now.placed)) (4096 * i) 4096 }
{
    let _blocks = map.blocks();
    into.clear_from(0);
    let mut at = run_start(map, 256 * i);
    for k in 0..256usize {
        at = put_entry(map, at, 16 * k, into);
    }
}

// The bit of a block: 0 past the end.
#[tactic(auto, using(std::proofs::lemmas::List::get_or_past))]
fn bit(written: &Bits, blocks: u32, b: u32) -> u8
    requires { blocks ≡ length written.now }
    ensures value { result ≡ bit written.now b }
    ensures small { result ≤ 1 }
{
    if b >= blocks {
        return 0;
    }
    if written.get(b) { 1 } else { 0 }
}

// The bits of eight blocks from one on.
fn byte_from(written: &Bits, blocks: u32, b: u32) -> u8
    requires len { blocks ≡ length written.now }
    requires small { b < 1000000 }
    ensures { result ≡ byte_from written.now b }
{
    bit(written, blocks, b)
        + 2 * bit(written, blocks, b + 1)
        + 4 * bit(written, blocks, b + 2)
        + 8 * bit(written, blocks, b + 3)
        + 16 * bit(written, blocks, b + 4)
        + 32 * bit(written, blocks, b + 5)
        + 64 * bit(written, blocks, b + 6)
        + 128 * bit(written, blocks, b + 7)
}

// A page of the bitmap.
fn bits_page(written: &Bits, blocks: u32, i: u32, into: &mut Page)
    requires len { blocks ≡ length written.now }
    requires page { i < bit_pages blocks }
    requires small { blocks ≤ 65536 }
    ensures { into.new ≡ part (bits_part blocks written.now) (4096 * i) 4096 }
{
    into.clear_from(0);
    for k in 0..4096u32 {
        let byte = byte_from(written, blocks, 8 * (4096 * i + k));
        into.patch(k as usize, &[byte]);
    }
}

/// A page of the meta data of a drive, of a number below how many there are. It takes no memory.
pub fn meta_page(meta: &Meta, i: u32, into: &mut Page)
    requires size { IsOneSize meta.now }
    requires page { i < meta_pages meta.now.geometry.blocks }
    ensures { into.new ≡ meta_page meta.now i }
{
    let blocks = meta.extents.blocks();
    let _files = meta.names.len();
    let _limits = meta.geometry.blocks();
    let entries = blocks.div_ceil(256);
    if i == 0 {
        header_page(meta.geometry, meta.names.next_id(), into);
        return;
    }
    if i < 129 {
        record_page(&meta.names, i - 1, into);
        return;
    }
    if i < 129 + entries {
        entry_page(&meta.extents, blocks, i - 129, into);
        return;
    }
    bits_page(&meta.written, blocks, i - 129 - entries, into);
}
