//! Bytes out of a span, and into it.
ghost use Rattle.std.specs.Prelude.{◌≡◌, ◌+◌, ◌*◌, ◌/◌, ◌%◌, ◌^◌, ◌<◌, ◌≤◌, ◌==◌, ℕ, length, get_or, if◌then◌else◌};
ghost use Rattle.span_bytes.specs.Spans.{page_in, byte_in, over};

use page_base::Page;

/// The bytes of a page.
const PAGE: usize = 4096;

/// Copies what page `i` of a span has of the bytes from `start` on.
fn read_page(page: &Page, i: u32, start: usize, data: &mut [u8])
    requires start { start ≤ 4096 }
    requires short { length data.old ≤ 2 ^ 32 }
    ensures { (k : ℕ) → k < length data.old → get_or data.new k 0 ≡ (if (start + k) / 4096 == i then get_or page.now ((start + k) % 4096) 0 else get_or data.old k 0) }
{
    let low = i as usize * PAGE;
    let from = low.max(start);
    let to = (low + PAGE).min(start + data.len());
    if from < to {
        page.read(from - low, &mut data[from - start..to - start]);
    }
}

/// Fills `data` with the bytes of a span from `start` on.
pub fn read_span(pages: &[Page], start: usize, data: &mut [u8])
    requires start { start ≤ 4096 }
    requires short { length data.old ≤ 2 ^ 32 }
    requires fits { start + length data.old ≤ 4096 * length pages.now }
    requires few { length pages.now ≤ 65 }
    ensures { (k : ℕ) → k < length data.old → get_or data.new k 0 ≡ byte_in pages.now (start + k) }
{
    let count = pages.len() as u32;
    for i in 0..count {
        read_page(&pages[i as usize], i, start, data);
    }
}

/// Writes what falls into page `i` of a span of bytes that stand from `start` on.
fn patch_page(page: &mut Page, i: u32, start: usize, bytes: &[u8])
    requires start { start ≤ 4096 }
    requires short { length bytes.now ≤ 2 ^ 32 }
    ensures bytes { (j : ℕ) → j < 4096 → get_or page.new j 0 ≡ over start bytes.now (4096 * i + j) (get_or page.old j 0) }
    ensures whole { length page.new ≡ 4096 }
{
    let _first = page.byte(0);
    let low = i as usize * PAGE;
    let from = low.max(start);
    let to = (low + PAGE).min(start + bytes.len());
    if from < to {
        page.patch(from - low, &bytes[from - start..to - start]);
    }
}

/// Writes bytes over those of the first `count` pages of a span, from `start` on.
pub fn patch_span(pages: &mut [Page], count: u32, start: usize, bytes: &[u8])
    requires start { start ≤ 4096 }
    requires short { length bytes.now ≤ 2 ^ 32 }
    requires many { count ≤ length pages.old }
    ensures bytes { (i j : ℕ) → i < count → j < 4096 → get_or (page_in pages.new i) j 0 ≡ over start bytes.now (4096 * i + j) (get_or (page_in pages.old i) j 0) }
    ensures whole { (i : ℕ) → i < count → length (page_in pages.new i) ≡ 4096 }
{
    for i in 0..count {
        patch_page(&mut pages[i as usize], i, start, bytes);
    }
}

/// Copies the first `count` pages of a span into another one.
pub fn copy_span(into: &mut [Page], from: &[Page], count: u32)
    requires into { count ≤ length into.old }
    requires from { count ≤ length from.now }
    ensures { (i : ℕ) → i < count → page_in into.new i ≡ page_in from.now i }
{
    for i in 0..count {
        into[i as usize].copy_from(&from[i as usize]);
    }
}
