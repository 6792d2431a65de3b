//! The end of a call, of whatever kind it is.
ghost use Rattle.std.specs.Prelude.{◌≡◌, ◌≤◌, ◌^◌, ℕ, length, true, Some, is_some};
ghost use Rattle.core_state.specs.State.{Flight, Core};
ghost use Rattle.core_state.specs.Reach.{is_data, is_lambda, is_read, is_trunc};
ghost use Rattle.core_state.specs.PlainOf.{plain, outcome_of, used_of, fuel_of};
ghost use Rattle.core_state.specs.Hold.{len_for};
ghost use Rattle.core_state.specs.Coherent.{Coherent};
ghost use Rattle.core_state.specs.LaneEvents.{HasGathered};
ghost use Rattle.system_state.specs.Jobs.{view_of};
ghost use Rattle.call_answers.specs.Ends.{filled, EndsAs};
ghost use Rattle.call_job.specs.Ends.{HasRun};
ghost use Rattle.call_job.specs.Puts.{puts_bytes};
ghost use Rattle.call_job.specs.Suits.{IsReady, Suits, given};

use crate::job::Job;
use crate::storing::Finished;
use plain_files::Call;

/// Whether a call reads.
fn is_read(call: &Call) -> bool
    ensures { result ≡ is_read call.now }
{
    matches!(call, Call::Read(..) | Call::Readl { .. })
}

/// Whether it puts bytes into its file that it brings.
fn puts_bytes(call: &Call) -> bool
    ensures { result ≡ puts_bytes call.now }
{
    matches!(call, Call::Write(..) | Call::Append(..))
}

/// Whether it sets the length of its file.
fn is_trunc(call: &Call) -> bool
    ensures { result ≡ is_trunc call.now }
{
    matches!(call, Call::Trunc(..))
}

impl Job {
    /// What a data call without a mark ends with, once its pages are gathered and its function has run, if it has one, on a file of this
    /// length, where all files have so many pages and the drive so many blocks: the plain machine's reply, and the file's length and
    /// the pages of its span as that machine leaves them; where nothing is stored, the pages are as they were. It may be asked for once.
    /// Takes no memory.
    pub fn finish(&mut self, len: u32, in_use: u64, capacity: u32) -> Finished
        requires ready { IsReady self.old }
        requires data { is_data self.old.request.call ≡ true }
        requires ran { is_lambda self.old.request.call ≡ true → is_some self.old.ran ≡ true }
        requires len { len ≤ 2 ^ 28 }
        requires in_use { in_use ≤ 2 ^ 32 }
        ensures ends { (c : Core) (lane : ℕ) (call : Flight) → Coherent c → c.calls lane ≡ Some call → HasGathered call → Suits self.old (view_of c.names call) → HasRun c call self.old → len ≡ len_for c.names call.claim →
            in_use ≡ filled c.names.files → capacity ≡ c.shape.blocks → EndsAs c call result.ending.reply result.len self.new.pages.items }
        ensures used { (c : Core) (call : Flight) → self.old.request ≡ call.claim.request → is_lambda call.claim.request.call ≡ true → given self.old ≡ Some (outcome_of (plain c) call.claim.request.call) →
            result.ending.used ≡ used_of (outcome_of (plain c) call.claim.request.call) (fuel_of call.claim.request.call) }
        ensures many { self.old.reach.pages ≤ length self.new.pages.items }
        ensures request { self.new.request ≡ self.old.request }
    {
        if is_read(&self.request.call) {
            let ending = self.finish_reading();
            return Finished { ending, len };
        }
        if puts_bytes(&self.request.call) {
            return self.finish_putting(len, in_use, capacity);
        }
        if is_trunc(&self.request.call) {
            return self.finish_cutting(len, in_use, capacity);
        }
        self.finish_writing(len, in_use, capacity)
    }
}
