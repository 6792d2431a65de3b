// Numbers in pages of 4,096 bytes, read and written where they lie.
ghost use Rattle.std.specs.Prelude.{◌≡◌, ◌+◌, ◌*◌, ◌<◌, ◌≤◌, ◌^◌, length, slice_index};
ghost use Rattle.std.specs.List.{concat};
ghost use Rattle.sbpf_insn.specs.Machine.{number_at, put, put_number, size_len};
ghost use Rattle.sbpf_exec.specs.Buffers.{AreWhole};

use crate::number::size_len;
use page_base::Page;
use sbpf_insn::Size;

/// The number at a place `at` behind `start`, in the pages as one list.
#[inline(always)]
pub(crate) fn paged_number(pages: &[Page], start: usize, at: usize, size: Size) -> u64
    requires whole { AreWhole pages.now }
    requires near { at < 2 ^ 32 }
    requires room { start + at + size_len size ≤ 4096 * length pages.now }
    ensures { result ≡ number_at size (concat pages.now) (start + at) }
{
    let inner = start % 4096 + at;
    let page = start / 4096 + inner / 4096;
    let offset = inner % 4096;
    if offset + size_len(size) <= 4096 {
        page_number(&pages[page], offset, size)
    } else {
        split_number(pages, page, offset, size)
    }
}

/// The number at a place of one page.
#[inline(always)]
pub(crate) fn page_number(page: &Page, at: usize, size: Size) -> u64
    requires { at + size_len size ≤ 4096 }
    ensures value { result ≡ number_at size page.now at }
    ensures whole { length page.now ≡ 4096 }
{
    let first = page.byte(at);
    match size {
        Size::B => first as u64,
        Size::H => u16::from_le_bytes([first, page.byte(at + 1)]) as u64,
        Size::W => u32::from_le_bytes([
            first,
            page.byte(at + 1),
            page.byte(at + 2),
            page.byte(at + 3),
        ]) as u64,
        Size::Dw => u64::from_le_bytes([
            first,
            page.byte(at + 1),
            page.byte(at + 2),
            page.byte(at + 3),
            page.byte(at + 4),
            page.byte(at + 5),
            page.byte(at + 6),
            page.byte(at + 7),
        ]),
    }
}

// A number that may lie across the end of a page.
#[cold]
#[inline(never)]
fn split_number(pages: &[Page], page: usize, offset: usize, size: Size) -> u64
    requires whole { AreWhole pages.now }
    requires offset { offset < 4096 }
    requires room { 4096 * page + offset + size_len size ≤ 4096 * length pages.now }
    ensures { result ≡ number_at size (concat pages.now) (4096 * page + offset) }
{
    let first = byte_after(pages, page, offset);
    match size {
        Size::B => first as u64,
        Size::H => u16::from_le_bytes([first, byte_after(pages, page, offset + 1)]) as u64,
        Size::W => u32::from_le_bytes([
            first,
            byte_after(pages, page, offset + 1),
            byte_after(pages, page, offset + 2),
            byte_after(pages, page, offset + 3),
        ]) as u64,
        Size::Dw => u64::from_le_bytes([
            first,
            byte_after(pages, page, offset + 1),
            byte_after(pages, page, offset + 2),
            byte_after(pages, page, offset + 3),
            byte_after(pages, page, offset + 4),
            byte_after(pages, page, offset + 5),
            byte_after(pages, page, offset + 6),
            byte_after(pages, page, offset + 7),
        ]),
    }
}

// A byte of a page or of the next one.
fn byte_after(pages: &[Page], page: usize, offset: usize) -> u8
    requires whole { AreWhole pages.now }
    requires offset { offset < 8192 }
    requires room { 4096 * page + offset < 4096 * length pages.now }
    ensures { result ≡ slice_index (concat pages.now) (4096 * page + offset) }
{
    pages[page + offset / 4096].byte(offset % 4096)
}

/// Writes the low bytes of a number at a place `at` behind `start`.
#[inline]
pub(crate) fn put_paged(pages: &mut [Page], start: usize, at: usize, size: Size, value: u64)
    requires whole { AreWhole pages.old }
    requires near { at < 2 ^ 32 }
    requires room { start + at + size_len size ≤ 4096 * length pages.old }
    ensures value { concat pages.new ≡ put_number size (concat pages.old) (start + at) value }
    ensures whole { AreWhole pages.new }
{
    let inner = start % 4096 + at;
    let page = start / 4096 + inner / 4096;
    let offset = inner % 4096;
    match size {
        Size::B => put_bytes(pages, page, offset, &[(value % 0x100) as u8]),
        Size::H => put_bytes(
            pages,
            page,
            offset,
            &((value % 0x1_0000) as u16).to_le_bytes(),
        ),
        Size::W => put_bytes(
            pages,
            page,
            offset,
            &((value % 0x1_0000_0000) as u32).to_le_bytes(),
        ),
        Size::Dw => put_bytes(pages, page, offset, &value.to_le_bytes()),
    }
}

// Writes bytes to a page, and those past its end to the next one.
#[inline]
fn put_bytes(pages: &mut [Page], page: usize, offset: usize, bytes: &[u8])
    requires whole { AreWhole pages.old }
    requires offset { offset < 4096 }
    requires some { 0 < length bytes.now }
    requires short { length bytes.now ≤ 4096 }
    requires room { 4096 * page + offset + length bytes.now ≤ 4096 * length pages.old }
    ensures value { concat pages.new ≡ put (concat pages.old) (4096 * page + offset) bytes.now }
    ensures whole { AreWhole pages.new }
{
    let room = 4096 - offset;
    if bytes.len() <= room {
        put_in_page(pages, page, offset, bytes);
    } else {
        let (front, back) = bytes.split_at(room);
        put_in_page(pages, page, offset, front);
        put_in_page(pages, page + 1, 0, back);
    }
}

// Writes bytes to one page.
#[inline]
fn put_in_page(pages: &mut [Page], page: usize, offset: usize, bytes: &[u8])
    requires whole { AreWhole pages.old }
    requires fits { offset + length bytes.now ≤ 4096 }
    requires page { page < length pages.old }
    ensures value { concat pages.new ≡ put (concat pages.old) (4096 * page + offset) bytes.now }
    ensures whole { AreWhole pages.new }
{
    let target = &mut pages[page];
    target.patch(offset, bytes);
}

/// Writes the low bytes of a number at a place of one page.
#[inline]
#[tactic(auto, using(crate::proofs::PageLaws::patched_put))]
pub(crate) fn put_in_one(page: &mut Page, at: usize, size: Size, value: u64)
    requires fits { at + size_len size ≤ 4096 }
    requires whole { length page.old ≡ 4096 }
    ensures value { page.new ≡ put_number size page.old at value }
    ensures whole { length page.new ≡ 4096 }
{
    match size {
        Size::B => page.patch(at, &[(value % 0x100) as u8]),
        Size::H => page.patch(at, &((value % 0x1_0000) as u16).to_le_bytes()),
        Size::W => page.patch(at, &((value % 0x1_0000_0000) as u32).to_le_bytes()),
        Size::Dw => page.patch(at, &value.to_le_bytes()),
    }
}
