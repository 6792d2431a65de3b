//! Reading the extent entries.
ghost use Rattle.std.specs.Prelude.{ℕ, ◌≡◌, ◌≤◌, ◌<◌, ◌+◌, ◌*◌, ◌^◌, ◌∷◌, [], ◌++◌, length, map, IfOk, OnOk, IfSome, IfNone, SomeIff, IsTrue, not, ◌&&◌, nat_le, slice_index, max, take, drop};
ghost use Rattle.page_base.specs.Bytes.{Pages};
ghost use Rattle.image_format.specs.Faults.{Gives};
ghost use Rattle.image_format.specs.Entries.{entry_in, page_after, is_at, unused_entry, used_entry, one_entry, entries, covered};
ghost use Rattle.image_format.specs.Tables.{stored_files, pages_of};
ghost use Rattle.image_format.specs.Reading.{cover, IsPlaced, IsLast};

use crate::faults::{ImageFault, ImageKind, MountErr};
use crate::numbers::{are_zero, demand, u32_at};
use extent_map::{Extent, ExtentMap};
use name_table::Names;

/// What the entries so far told, and the page that comes next: of which file, counted from 0, and which of its pages.
#[derive(Drop)]
pub struct Covered {
    pub map: ExtentMap,
    pub index: u32,
    pub page: u32,
    pub ended: bool,
}

/// A page of a file, and how many pages the file has from there on.
#[derive(Clone, Copy, Debug, PartialEq, Eq)]
pub struct Awaited {
    pub file: u32,
    pub page: u32,
    pub left: u32,
}

fn entry_in(raw: &[u8]) -> Extent
    requires { length raw.now ≡ 16 }
    ensures { result ≡ entry_in raw.now }
{
    Extent {
        file: u32_at(raw, 0),
        page: u32_at(raw, 4),
        block: u32_at(raw, 8),
        count: u32_at(raw, 12),
    }
}

/// How many pages so many bytes fill.
pub fn page_count(len: u32) -> u32
    ensures { result ≡ Pages len }
{
    len.div_ceil(4096)
}

// The page that comes next.
fn next_page(names: &Names, cover: &mut Covered) -> Option<Awaited>
    requires { IsPlaced names.now cover.old }
    ensures value { result ≡ page_after (length cover.old.map.placed) (stored_files names.now) }
    ensures placed { IsPlaced names.now cover.new }
    ensures map { cover.new.map ≡ cover.old.map }
    ensures ended { cover.new.ended ≡ cover.old.ended }
    ensures page { IfSome result (λ w. (w.page ≡ cover.new.page) × IsLast w cover.new.index (stored_files names.now)) }
    ensures none { IfNone result (length cover.old.map.placed ≡ pages_of (stored_files names.now)) }
{
    while let Some(file) = names.at(cover.index) {
        let pages = page_count(file.len);
        if cover.page < pages {
            return Some(Awaited {
                file: file.id,
                page: cover.page,
                left: pages - cover.page,
            });
        }
        cover.index += 1;
        cover.page = 0;
    }
    None
}

fn is_at(e: Extent, awaited: Option<Awaited>) -> bool
    ensures { result ≡ is_at e awaited }
{
    match awaited {
        None => false,
        Some(w) => e.file == w.file && e.page == w.page && e.count <= w.left,
    }
}

fn is_within(e: Extent, blocks: u32) -> bool
    ensures { result ≡ nat_le (e.block + e.count) blocks }
{
    e.count <= blocks && e.block <= blocks - e.count
}

#[tactic(auto, unfolding(crate::specs::Entries::unused_entry))]
fn unused_entry(at: u64, so_far: &mut Covered, raw: &[u8]) -> Result<(), MountErr>
    ensures value { Gives (λ _. cover so_far.new) result (unused_entry at (cover so_far.old) raw.now) }
    ensures map { so_far.new.map ≡ so_far.old.map }
    ensures index { so_far.new.index ≡ so_far.old.index }
    ensures page { so_far.new.page ≡ so_far.old.page }
{
    demand(are_zero(raw), ImageKind::Extent, at)?;
    so_far.ended = true;
    Ok(())
}

// Whether the entry is the next one and its blocks are there.
fn is_next(e: Extent, ended: bool, awaited: Option<Awaited>, blocks: u32) -> bool
    ensures { result ≡ (not ended && (is_at e awaited && nat_le (e.block + e.count) blocks)) }
{
    if ended {
        return false;
    }
    if !is_at(e, awaited) {
        return false;
    }
    is_within(e, blocks)
}

fn used_entry(names: &Names, at: u64, so_far: &mut Covered, e: Extent) -> Result<(), MountErr>
    requires { IsPlaced names.now so_far.old }
    ensures value { Gives (λ _. cover so_far.new) result (used_entry so_far.old.map.blocks (stored_files names.now) at (cover so_far.old) e) }
    ensures placed { IsPlaced names.now so_far.new }
    ensures blocks { so_far.new.map.blocks ≡ so_far.old.map.blocks }
{
    let next = next_page(names, so_far);
    let blocks = so_far.map.blocks();
    let _files = names.len();
    if !is_next(e, so_far.ended, next, blocks) {
        return Err(MountErr::Image(ImageFault {
            kind: ImageKind::Extent,
            place: at,
        }));
    }
    match so_far.map.place(e) {
        Err(_) => Err(MountErr::Image(ImageFault {
            kind: ImageKind::Overlap,
            place: at,
        })),
        Ok(()) => {
            so_far.page += e.count;
            Ok(())
        }
    }
}

#[tactic(auto, unfolding(crate::specs::Entries::one_entry))]
fn one_entry(names: &Names, at: u64, so_far: &mut Covered, raw: &[u8]) -> Result<(), MountErr>
    requires placed { IsPlaced names.now so_far.old }
    requires size { length raw.now ≡ 16 }
    ensures value { Gives (λ _. cover so_far.new) result (one_entry so_far.old.map.blocks (stored_files names.now) at (cover so_far.old) raw.now) }
    ensures placed { IsPlaced names.now so_far.new }
    ensures blocks { so_far.new.map.blocks ≡ so_far.old.map.blocks }
{
    if u32_at(raw, 12) == 0 {
        unused_entry(at, so_far, raw)
    } else {
        used_entry(names, at, so_far, entry_in(raw))
    }
}

/// Reads the entries.
pub fn entries(
    names: &Names,
    count: u32,
    start: u64,
    so_far: &mut Covered,
    bytes: &[u8],
) -> Result<(), MountErr>
    requires placed { IsPlaced names.now so_far.old }
    requires size { length bytes.now ≡ count * 16 }
    requires start { start < 2 ^ 32 }
    ensures value { Gives (λ _. cover so_far.new) result (entries so_far.old.map.blocks (stored_files names.now) count start (cover so_far.old) bytes.now) }
    ensures placed { IsPlaced names.now so_far.new }
    ensures blocks { so_far.new.map.blocks ≡ so_far.old.map.blocks }
{
    let mut rest = bytes;
    let mut at = start;
    for _ in 0..count {
        let (raw, after) = rest.split_at(16);
        one_entry(names, at, so_far, raw)?;
        rest = after;
        at += 16;
    }
    Ok(())
}

/// Every page of every file is covered.
pub fn all_covered(names: &Names, so_far: &mut Covered) -> Result<(), MountErr>
    requires { IsPlaced names.now so_far.old }
    ensures value { Gives (λ x. x) result (covered (stored_files names.now) (cover so_far.old).blocks) }
    ensures map { so_far.new.map ≡ so_far.old.map }
    ensures all { OnOk result (length so_far.old.map.placed ≡ pages_of (stored_files names.now)) }
{
    match next_page(names, so_far) {
        None => Ok(()),
        Some(w) => Err(MountErr::Image(ImageFault {
            kind: ImageKind::Cover,
            place: u64::from(w.file),
        })),
    }
}
