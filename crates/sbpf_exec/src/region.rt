// A region of a call, flat or in pages.
ghost use Rattle.std.specs.Prelude.{◌≡◌, ◌+◌, ◌^◌, ◌<◌, ◌≤◌, nat_le, length, take, IsFalse, Some, None, if◌then◌else◌};
ghost use Rattle.sbpf_insn.specs.Machine.{number_at, put_number, size_len};
ghost use Rattle.sbpf_exec.specs.Buffers.{region_bytes, Fits, placed, part, AreWhole, IsPlaced, DiffersWithin};

use crate::number::{number, put_number, size_len};
use crate::pages::{paged_number, put_paged};
use edge_io::Bytes;
use page_base::Page;
use sbpf_insn::Size;

/// The bytes of an input or an output: flat, or `len` bytes of pages from the byte `start` on.
#[derive(Drop)]
pub enum Region {
    Flat(Bytes),
    Paged {
        pages: Vec<Page>,
        start: usize,
        len: usize,
    },
}

// Places the region in its buffer.
pub(crate) fn place(region: &mut Region, at: usize, n: usize)
    requires fits { Fits region.old at n }
    requires short { n ≤ 2 ^ 32 }
    ensures placed { region.new ≡ placed region.old at n }
    ensures ready { IsPlaced region.new n }
    ensures bytes { take n (region_bytes region.new) ≡ part region.old at n }
{
    match region {
        Region::Flat(_) => {}
        Region::Paged { pages, start, len } => {
            are_whole(pages);
            *start = at;
            *len = n;
        }
    }
}

// Every page has 4,096 bytes, as a page promises.
fn are_whole(pages: &[Page])
    ensures { AreWhole pages.now }
{
    for page in pages {
        let _first = page.byte(0);
    }
}

// The number at a place of the first len bytes of a region, where it is wholly there.
#[inline(always)]
#[tactic(auto, using(crate::proofs::Windows::flat_read, crate::proofs::Windows::paged_read))]
pub(crate) fn inside_number(region: &Region, len: usize, at: usize, size: Size) -> u64
    requires placed { IsPlaced region.now len }
    requires near { at < 2 ^ 32 }
    requires fits { at + size_len size ≤ len }
    ensures { result ≡ number_at size (take len (region_bytes region.now)) at }
{
    match region {
        Region::Flat(bytes) => number(bytes.as_slice(), at, size),
        Region::Paged { pages, start, .. } => paged_number(pages, *start, at, size),
    }
}

// The number at a place of the first len bytes of a region; None where it isn't wholly there.
#[inline]
pub(crate) fn region_number(region: &Region, len: usize, at: usize, size: Size) -> Option<u64>
    requires placed { IsPlaced region.now len }
    requires near { at < 2 ^ 32 }
    ensures { result ≡ (if nat_le (at + size_len size) len then Some (number_at size (take len (region_bytes region.now)) at) else None) }
{
    if at + size_len(size) > len {
        return None;
    }
    Some(inside_number(region, len, at, size))
}

// Writes a number at a place of the first len bytes of a region; false, and nothing changes, where it
// isn't wholly there.
#[inline]
pub(crate) fn put_in_region(
    region: &mut Region,
    len: usize,
    at: usize,
    size: Size,
    value: u64,
) -> bool
    requires placed { IsPlaced region.old len }
    requires near { at < 2 ^ 32 }
    ensures done { result ≡ nat_le (at + size_len size) len }
    ensures bytes { take len (region_bytes region.new) ≡ (if nat_le (at + size_len size) len then put_number size (take len (region_bytes region.old)) at value else take len (region_bytes region.old)) }
    ensures refused { IsFalse result → region.new ≡ region.old }
    ensures within { DiffersWithin len region.old region.new }
    ensures placed { IsPlaced region.new len }
{
    if at + size_len(size) > len {
        return false;
    }
    match region {
        Region::Flat(bytes) => put_number(bytes.as_mut_slice(), at, size, value),
        Region::Paged { pages, start, .. } => put_paged(pages, *start, at, size, value),
    }
    true
}
