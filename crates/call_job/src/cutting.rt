//! The end of a call that sets the length of its file.
ghost use Rattle.std.specs.Prelude.{◌≡◌, ◌%◌, ◌<◌, ◌≤◌, ◌^◌, ℕ, length, true, Some, None, is_some, if◌then◌else◌};
ghost use Rattle.page_base.specs.Bytes.{cleared_from};
ghost use Rattle.core_state.specs.State.{Flight, Core};
ghost use Rattle.core_state.specs.Reach.{is_trunc};
ghost use Rattle.core_state.specs.Hold.{len_for};
ghost use Rattle.core_state.specs.Coherent.{Coherent};
ghost use Rattle.core_state.specs.LaneEvents.{HasGathered};
ghost use Rattle.system_state.specs.Jobs.{view_of};
ghost use Rattle.span_bytes.specs.Spans.{page_in};
ghost use Rattle.call_answers.specs.Ends.{filled, has_room, EndsAs};
ghost use Rattle.call_job.specs.Suits.{IsReady, Suits};

use crate::ending::has_room;
use crate::job::Job;
use crate::storing::{Finished, stored};
use page_base::Page;
use plain_files::{Call, Reply};

/// Clears the one page of a span, if there is one, from a place on.
fn clear_tail(pages: &mut [Page], count: u32, at: usize)
    requires at { at ≤ 4096 }
    requires count { count ≤ length pages.old }
    ensures cleared { 0 < count → page_in pages.new 0 ≡ cleared_from (page_in pages.old 0) at }
    ensures was { 0 < count → length (page_in pages.old 0) ≡ 4096 }
    ensures whole { 0 < count → length (page_in pages.new 0) ≡ 4096 }
{
    if count == 0 {
        return;
    }
    let _first = pages[0].byte(0);
    pages[0].clear_from(at);
}

/// Sets the length of a file where all files then fit: the page of its span is cleared past it. None: they don't fit, and nothing has changed.
fn cut_bytes(
    pages: &mut [Page],
    count: u32,
    n: u64,
    len: u32,
    filled: u64,
    capacity: u32,
) -> Option<u32>
    requires count { count ≤ length pages.old }
    requires len { len ≤ 2 ^ 28 }
    requires low { n ≤ 2 ^ 28 }
    requires filled { filled ≤ 2 ^ 32 }
    ensures answer { result ≡ (if has_room filled capacity len n then Some n else None) }
    ensures none { result ≡ None → pages.new ≡ pages.old }
    ensures cleared { is_some result ≡ true → 0 < count → page_in pages.new 0 ≡ cleared_from (page_in pages.old 0) (n % 4096) }
    ensures was { is_some result ≡ true → 0 < count → length (page_in pages.old 0) ≡ 4096 }
    ensures whole { is_some result ≡ true → 0 < count → length (page_in pages.new 0) ≡ 4096 }
{
    if !has_room(filled, capacity, len, n as u32) {
        return None;
    }
    clear_tail(pages, count, (n % 4096) as usize);
    Some(n as u32)
}

impl Job {
    /// What a `trunc` ends with, once its page is gathered, on a file of this length, where all files have so many pages and the drive so many
    /// blocks. The page of its span is then the one that its file gets; where the files don't fit, it is as it was. Takes no memory.
    pub fn finish_cutting(&mut self, len: u32, in_use: u64, capacity: u32) -> Finished
        requires ready { IsReady self.old }
        requires cuts { is_trunc self.old.request.call ≡ true }
        requires len { len ≤ 2 ^ 28 }
        requires in_use { in_use ≤ 2 ^ 32 }
        ensures ends { (c : Core) (lane : ℕ) (call : Flight) → Coherent c → c.calls lane ≡ Some call → HasGathered call → Suits self.old (view_of c.names call) → len ≡ len_for c.names call.claim →
            in_use ≡ filled c.names.files → capacity ≡ c.shape.blocks → EndsAs c call result.ending.reply result.len self.new.pages.items }
        ensures many { length self.new.pages.items ≡ length self.old.pages.items }
        ensures request { self.new.request ≡ self.old.request }
    {
        match &self.request.call {
            Call::Trunc(_, n) => {
                let n = *n;
                let new = cut_bytes(&mut self.pages, self.reach.pages, n, len, in_use, capacity);
                stored(new, Reply::Done, len)
            }
            _ => unreachable!(),
        }
    }
}
