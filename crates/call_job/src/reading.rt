//! The end of a call that reads.
ghost use Rattle.std.specs.Prelude.{◌≡◌, ◌+◌, ◌*◌, ◌%◌, ◌<◌, ◌≤◌, ℕ, length, true, Some, is_some};
ghost use Rattle.sbpf_exec.specs.Outcomes.{outcome_of as ended_as};
ghost use Rattle.sbpf_exec.specs.declared.interpreter.Outcome.{Outcome};
ghost use Rattle.plain_files.specs.Plain.{answer};
ghost use Rattle.plain_files.specs.declared.calls.Reply.TheVariants.{DataBytes};
ghost use Rattle.core_state.specs.State.{Flight, Core};
ghost use Rattle.core_state.specs.Reach.{is_lambda, is_read};
ghost use Rattle.core_state.specs.PlainOf.{plain, outcome_of, used_of, fuel_of};
ghost use Rattle.core_state.specs.Coherent.{Coherent};
ghost use Rattle.core_state.specs.LaneEvents.{HasGathered};
ghost use Rattle.core_outcomes.specs.Known.{paged_bytes};
ghost use Rattle.system_state.specs.Jobs.{view_of};
ghost use Rattle.span_bytes.specs.Spans.{page_in};
ghost use Rattle.call_answers.specs.Ends.{read_reply};
ghost use Rattle.call_job.specs.Suits.{IsReady, Suits, given};

use crate::ending::{read_into, read_reply, used_of};
use crate::job::Job;
use edge_io::Bytes;
use plain_files::{Call, Reply};
use std::mem;
use system_ends::Ending;

impl Job {
    /// The reply to a `read`.
    fn reply_data(&mut self, off: u64) -> Reply
        requires few { length self.old.pages.items ≤ 65 }
        requires fits { 0 < self.old.readable → off % 4096 + self.old.readable ≤ 4096 * length self.old.pages.items }
        requires room { self.old.readable ≤ length self.old.data.items }
        ensures reply { result ≡ DataBytes (paged_bytes (page_in self.old.pages.items) (off % 4096) self.old.readable) }
        ensures pages { self.new.pages.items ≡ self.old.pages.items }
        ensures request { self.new.request ≡ self.old.request }
    {
        let data = mem::replace(&mut self.data, Vec::new(self.alloc));
        let start = (off % 4096) as usize;
        Reply::DataBytes(read_into(&self.pages, start, data, self.readable))
    }

    /// The reply to a `readl` whose function has run, and the fuel that it used.
    fn reply_output(&mut self, cap: u64, fuel: u64) -> Ending
        requires ran { is_some self.old.ran ≡ true }
        requires long { length self.old.flat ≡ cap }
        ensures reply { (r : Outcome) → self.old.ran ≡ Some r → result.reply ≡ read_reply cap (ended_as r self.old.flat) }
        ensures used { (r : Outcome) → self.old.ran ≡ Some r → result.used ≡ used_of (ended_as r self.old.flat) fuel }
        ensures pages { self.new.pages.items ≡ self.old.pages.items }
        ensures request { self.new.request ≡ self.old.request }
    {
        let output = mem::replace(&mut self.flat, Bytes::new(Vec::new(self.alloc)));
        let Some(outcome) = self.ran else {
            unreachable!()
        };
        Ending {
            reply: read_reply(outcome, output, cap),
            used: used_of(outcome, fuel),
        }
    }

    /// What a call that reads ends with, once its pages are gathered and its function has run. It may be asked for once. Takes no memory.
    pub fn finish_reading(&mut self) -> Ending
        requires ready { IsReady self.old }
        requires reads { is_read self.old.request.call ≡ true }
        requires ran { is_lambda self.old.request.call ≡ true → is_some self.old.ran ≡ true }
        ensures reply { (c : Core) (lane : ℕ) (call : Flight) → Coherent c → c.calls lane ≡ Some call → HasGathered call → Suits self.old (view_of c.names call) →
            (is_lambda call.claim.request.call ≡ true → given self.old ≡ Some (outcome_of (plain c) call.claim.request.call)) → result.reply ≡ (answer (plain c) call.claim.request.call).reply }
        ensures used { (c : Core) (call : Flight) → self.old.request ≡ call.claim.request → is_lambda call.claim.request.call ≡ true → given self.old ≡ Some (outcome_of (plain c) call.claim.request.call) →
            result.used ≡ used_of (outcome_of (plain c) call.claim.request.call) (fuel_of call.claim.request.call) }
        ensures pages { self.new.pages.items ≡ self.old.pages.items }
        ensures request { self.new.request ≡ self.old.request }
    {
        match &self.request.call {
            Call::Read(_, off, _) => {
                let off = *off;
                let reply = self.reply_data(off);
                Ending { reply, used: 0 }
            }
            Call::Readl { fuel, cap, .. } => {
                let (fuel, cap) = (*fuel, *cap);
                self.reply_output(cap, fuel)
            }
            _ => unreachable!(),
        }
    }
}
