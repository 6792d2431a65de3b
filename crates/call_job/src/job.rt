//! The buffers of a call.
ghost use Rattle.std.specs.Prelude.{◌≡◌, ◌<◌, ◌≤◌, ◌^◌, length};
ghost use Rattle.core_state.specs.Reach.{is_exclusive, covers, gathers};
ghost use Rattle.system_state.specs.Cores.{reach_of};
ghost use Rattle.span_bytes.specs.Spans.{page_in};

use dispatcher::Side;
use edge_io::Bytes;
use page_base::Page;
use plain_files::{Call, Request};
use range_locks::Mode;
use sbpf_exec::{Outcome, Regions};
use sbpf_insn::Code;
use std::alloc::Global;
use system_state::{CallJob, Reach};

/// The buffers of a call, and its run: whoever owns the call has them.
#[derive(Drop)]
pub struct Job {
    /// The call that they are for.
    pub request: Request,
    /// Where it runs.
    pub side: Side,
    /// What it meets in its file.
    pub reach: Reach,
    /// How many bytes of its file a reading call has.
    pub readable: u32,
    /// The code of its function.
    pub code: Code,
    /// The pages of its span, and perhaps more.
    pub pages: Vec<Page>,
    /// The output of `writel`.
    pub second: Vec<Page>,
    /// The output of `readl`, or the input of `writel`.
    pub flat: Bytes,
    /// The reply's bytes of `read`.
    pub data: Vec<u8>,
    /// What its function runs over.
    pub regions: Option<Regions>,
    /// How its function ended, if it ran.
    pub ran: Option<Outcome>,
    /// For vectors of nothing.
    pub alloc: Global,
}

impl CallJob for Job {
    ghost use Rattle.call_job.specs.Suits.{Suits};

    ghost suits = { Suits };
}

/// Whether the bytes of a call cover this page of its file as a whole.
fn covers(reach: &Reach, page: u64) -> bool
    requires { page < 2 ^ 63 }
    ensures { result ≡ covers (reach_of reach.now) page }
{
    let low = u128::from(page) * 4096;
    u128::from(reach.begin) <= low && low + 4096 <= reach.end
}

impl Job {
    ghost use Rattle.std.specs.Prelude.{get_or};
    ghost use Rattle.std.specs.Borrow.{sem};
    ghost use Rattle.page_base.specs.Bytes.{zero_page};
    ghost use Rattle.call_job.specs.Lending.{LendsPage};

    /// How many pages the span of its call has.
    pub fn span(&self) -> u32
        ensures { result ≡ self.now.reach.pages }
    {
        self.reach.pages
    }

    /// Whether its call takes its pages, so that they aren't copied.
    pub fn exclusive(&self) -> bool
        ensures { result ≡ is_exclusive (reach_of self.now.reach).mode }
    {
        matches!(self.reach.mode, Mode::Exclusive)
    }

    /// Whether its call gathers the i-th page of its span: all do, but `write` and `append` only those that they cover in part.
    pub fn gathers(&self, i: u32) -> bool
        requires { self.now.reach.first < 2 ^ 62 }
        ensures { result ≡ gathers self.now.request.call (reach_of self.now.reach) i }
    {
        match &self.request.call {
            Call::Write(..) | Call::Append(..) => {
                !covers(&self.reach, self.reach.first + u64::from(i))
            }
            _ => true,
        }
    }

    /// The i-th page of its span.
    pub fn page_mut(&mut self, i: u32) -> &mut Page
        requires { i < length self.old.pages.items }
        ensures* lends { sem 𝓛 (LendsPage self.entry i result) }
        ensures value { result.now ≡ page_in self.old.pages.items i }
    {
        &mut self.pages[i as usize]
    }
}
