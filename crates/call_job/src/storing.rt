//! The end of a call that puts bytes into its file.
ghost use Rattle.std.specs.Prelude.{◌≡◌, ◌<◌, ◌≤◌, ◌^◌, ℕ, length, true, Some};
ghost use Rattle.core_state.specs.State.{Flight, Core};
ghost use Rattle.core_state.specs.Hold.{len_for};
ghost use Rattle.core_state.specs.Coherent.{Coherent};
ghost use Rattle.core_state.specs.LaneEvents.{HasGathered};
ghost use Rattle.system_state.specs.Jobs.{view_of};
ghost use Rattle.call_answers.specs.Ends.{filled, EndsAs};
ghost use Rattle.call_job.specs.Puts.{puts_bytes, stored_reply, stored_len};
ghost use Rattle.call_job.specs.Suits.{IsReady, Suits};

use crate::ending::put_bytes;
use crate::job::Job;
use plain_files::{Call, Reply};
use system_ends::Ending;
use system_state::Reach;

/// What a call ends with, and how long its file is then.
#[derive(Debug, Drop)]
pub struct Finished {
    /// Its reply, and the fuel that its function used.
    pub ending: Ending,
    /// The length of its file.
    pub len: u32,
}

/// The end of a call that stored bytes, or had no room.
pub(crate) fn stored(new: Option<u32>, reply: Reply, len: u32) -> Finished
    ensures reply { result.ending.reply ≡ stored_reply new reply }
    ensures len { result.len ≡ stored_len new len }
{
    match new {
        Some(new) => Finished {
            ending: Ending { reply, used: 0 },
            len: new,
        },
        None => Finished {
            ending: Ending {
                reply: Reply::NoSpace,
                used: 0,
            },
            len,
        },
    }
}

/// Where a call appends so many bytes to a file of this length.
fn append_at(reach: &Reach, n: usize, len: u32) -> u64
    ensures some { 0 < n → result ≡ reach.now.begin }
    ensures none { n ≡ 0 → result ≡ len }
{
    if n == 0 { u64::from(len) } else { reach.begin }
}

impl Job {
    /// What a `write` or an `append` ends with, once its pages are gathered, on a file of this length, where all files have so many pages and
    /// the drive so many blocks. The pages of its span are then those that its file gets; where they don't fit, they are as they were.
    /// Takes no memory.
    pub fn finish_putting(&mut self, len: u32, in_use: u64, capacity: u32) -> Finished
        requires ready { IsReady self.old }
        requires puts { puts_bytes self.old.request.call ≡ true }
        requires len { len ≤ 2 ^ 28 }
        requires in_use { in_use ≤ 2 ^ 32 }
        ensures ends { (c : Core) (lane : ℕ) (call : Flight) → Coherent c → c.calls lane ≡ Some call → HasGathered call → Suits self.old (view_of c.names call) → len ≡ len_for c.names call.claim →
            in_use ≡ filled c.names.files → capacity ≡ c.shape.blocks → EndsAs c call result.ending.reply result.len self.new.pages.items }
        ensures many { length self.new.pages.items ≡ length self.old.pages.items }
        ensures request { self.new.request ≡ self.old.request }
    {
        match &self.request.call {
            Call::Write(_, off, bytes) => {
                let new = put_bytes(
                    &mut self.pages,
                    self.reach.pages,
                    *off,
                    bytes.as_slice(),
                    len,
                    in_use,
                    capacity,
                );
                stored(new, Reply::Done, len)
            }
            Call::Append(_, bytes) => {
                let off = append_at(&self.reach, bytes.as_slice().len(), len);
                let new = put_bytes(
                    &mut self.pages,
                    self.reach.pages,
                    off,
                    bytes.as_slice(),
                    len,
                    in_use,
                    capacity,
                );
                stored(new, Reply::At(off), len)
            }
            _ => unreachable!(),
        }
    }
}
