//! What the end of a call gives: its reply, the fuel that its function used, and what it stores.
ghost use Rattle.std.specs.Prelude.{◌≡◌, ◌+◌, ◌*◌, ◌/◌, ◌%◌, ◌^◌, ◌<◌, ◌≤◌, ℕ, List, length, get_or, true, false, nat_le, Some, None, is_some, if◌then◌else◌, replicate};
ghost use Rattle.page_base.specs.Bytes.{Pages};
ghost use Rattle.sbpf_insn.specs.Machine as machine;
ghost use Rattle.sbpf_exec.specs.Outcomes.{outcome_of, UsesAtMost};
ghost use Rattle.core_state.specs.PlainOf.{used_of};
ghost use Rattle.core_outcomes.specs.Known.{paged_bytes};
ghost use Rattle.span_bytes.specs.Spans.{page_in, byte_in, over};
ghost use Rattle.call_answers.specs.Ends.{put_length, has_room, read_reply};

use edge_io::Bytes;
use page_base::Page;
use plain_files::Reply;
use sbpf_exec::{Outcome, TrapKind};
use span_bytes::{patch_span, read_span};

/// How many pages so many bytes have.
fn pages_for(len: u32) -> u64
    requires { len ≤ 2 ^ 28 }
    ensures { result ≡ Pages len }
{
    (u64::from(len) + 4095) / 4096
}

/// Whether all files fit, which have so many pages, once a file of a length has another one.
pub(crate) fn has_room(pages: u64, capacity: u32, old: u32, new: u32) -> bool
    requires pages { pages ≤ 2 ^ 32 }
    requires old { old ≤ 2 ^ 28 }
    requires new { new ≤ 2 ^ 28 }
    ensures { result ≡ has_room pages capacity old new }
{
    pages + pages_for(new) <= u64::from(capacity) + pages_for(old)
}

/// How long a file is once so many bytes are put at an offset.
pub(crate) fn put_length(len: u32, off: u64, n: usize) -> u32
    requires len { len ≤ 2 ^ 28 }
    requires end { 0 < n → off + n ≤ 2 ^ 28 }
    ensures value { result ≡ put_length len off n }
    ensures low { result ≤ 2 ^ 28 }
{
    if n == 0 {
        return len;
    }
    len.max((off + n as u64) as u32)
}

/// Fills a buffer with the bytes of a span from a place on.
fn fill(pages: &[Page], start: usize, data: &mut [u8])
    requires start { start ≤ 4096 }
    requires few { length pages.now ≤ 65 }
    requires short { length data.old ≤ 2 ^ 32 }
    requires fits { 0 < length data.old → start + length data.old ≤ 4096 * length pages.now }
    ensures { (k : ℕ) → k < length data.old → get_or data.new k 0 ≡ byte_in pages.now (start + k) }
{
    if data.is_empty() {
        return;
    }
    read_span(pages, start, data);
}

/// The first bytes of a buffer are those of a span from a place on.
pub(crate) fn read_into(pages: &[Page], start: usize, data: Vec<u8>, len: u32) -> Bytes
    requires start { start ≤ 4096 }
    requires few { length pages.now ≤ 65 }
    requires fits { 0 < len → start + len ≤ 4096 * length pages.now }
    requires room { len ≤ length data.items }
    ensures { result ≡ paged_bytes (page_in pages.now) start len }
{
    let mut data = data;
    data.truncate(len as usize);
    fill(pages, start, &mut data);
    Bytes::new(data)
}

/// The reply to a `readl`: the first bytes of what its function put out, unless it trapped.
pub(crate) fn read_reply(outcome: Outcome, output: Bytes, cap: u64) -> Reply
    requires { length output ≡ cap }
    ensures { result ≡ read_reply cap (outcome_of outcome output) }
{
    match outcome {
        Outcome::Done { r0, .. } => {
            if r0 > cap {
                return Reply::TrapOutLen { r0 };
            }
            let mut bytes = output.into_vec();
            bytes.truncate(r0 as usize);
            Reply::Res(Bytes::new(bytes))
        }
        Outcome::Trap { kind, slot, .. } => match kind {
            TrapKind::Access { address, size } => Reply::TrapAccess {
                address,
                size,
                slot,
            },
            TrapKind::Depth => Reply::TrapDepth { slot },
        },
        Outcome::Spent => Reply::Spent,
    }
}

/// The fuel that a run used, of so much.
pub(crate) fn used_of(outcome: Outcome, fuel: u64) -> u64
    ensures { (output : List ℕ) → result ≡ used_of (outcome_of outcome output) fuel }
{
    match outcome {
        Outcome::Done { used, .. } => used,
        Outcome::Trap { used, .. } => used,
        Outcome::Spent => fuel,
    }
}

/// Puts bytes at an offset into the pages of their span, where all files then fit, and tells how long the file is then. None: they don't fit,
/// and nothing has changed.
pub(crate) fn put_bytes(
    pages: &mut [Page],
    count: u32,
    off: u64,
    bytes: &[u8],
    len: u32,
    filled: u64,
    capacity: u32,
) -> Option<u32>
    requires count { count ≤ length pages.old }
    requires len { len ≤ 2 ^ 28 }
    requires end { 0 < length bytes.now → off + length bytes.now ≤ 2 ^ 28 }
    requires short { length bytes.now ≤ 262144 }
    requires filled { filled ≤ 2 ^ 32 }
    ensures answer { result ≡ (if has_room filled capacity len (put_length len off (length bytes.now)) then Some (put_length len off (length bytes.now)) else None) }
    ensures none { result ≡ None → pages.new ≡ pages.old }
    ensures bytes { is_some result ≡ true → (i j : ℕ) → i < count → j < 4096 → get_or (page_in pages.new i) j 0 ≡ over (off % 4096) bytes.now (4096 * i + j) (get_or (page_in pages.old i) j 0) }
    ensures whole { is_some result ≡ true → (i : ℕ) → i < count → length (page_in pages.new i) ≡ 4096 }
{
    let new = put_length(len, off, bytes.len());
    if !has_room(filled, capacity, len, new) {
        return None;
    }
    patch_span(pages, count, (off % 4096) as usize, bytes);
    Some(new)
}
