//! The end of a call whose function writes: what it put out lies in a second set of pages, which are then those of the call.
ghost use Rattle.std.specs.Prelude.{◌≡◌, ◌<◌, ◌≤◌, ◌^◌, ℕ, List, length, true, false, Some, is_some};
ghost use Rattle.sbpf_exec.specs.Outcomes.{outcome_of as ended_as};
ghost use Rattle.sbpf_exec.specs.declared.interpreter.Outcome.{Outcome};
ghost use Rattle.core_state.specs.State.{Flight, Core};
ghost use Rattle.core_state.specs.PlainOf.{plain, outcome_of, used_of, fuel_of};
ghost use Rattle.core_state.specs.Hold.{len_for};
ghost use Rattle.core_state.specs.Coherent.{Coherent};
ghost use Rattle.core_state.specs.LaneEvents.{HasGathered};
ghost use Rattle.system_state.specs.Jobs.{view_of};
ghost use Rattle.span_bytes.specs.Spans.{page_in};
ghost use Rattle.call_answers.specs.Ends.{filled, EndsAs};
ghost use Rattle.call_job.specs.Suits.{IsReady, Suits, given};
ghost use Rattle.call_job.specs.Writes.{is_writel, write_reply, is_put};

use crate::ending::{has_room, put_length, used_of};
use crate::job::Job;
use crate::storing::Finished;
use page_base::Page;
use plain_files::{Call, Reply};
use sbpf_exec::{Outcome, TrapKind};
use std::mem;
use system_ends::Ending;

/// Each page of a span has 4,096 bytes, as a page promises.
fn are_whole(pages: &[Page], count: u32)
    requires { count ≤ length pages.now }
    ensures { (i : ℕ) → i < count → length (page_in pages.now i) ≡ 4096 }
{
    for i in 0..count {
        let _first = pages[i as usize].byte(0);
    }
}

/// The reply to a `writel`, by how its function ended, and by whether there is room for what it put out.
fn write_reply(outcome: Outcome, room: bool) -> Reply
    ensures { (output : List ℕ) → result ≡ write_reply room (ended_as outcome output) }
{
    match outcome {
        Outcome::Done { r0, .. } => { if room { Reply::Val(r0) } else { Reply::NoSpace } }
        Outcome::Trap { kind, slot, .. } => match kind {
            TrapKind::Access { address, size } => Reply::TrapAccess {
                address,
                size,
                slot,
            },
            TrapKind::Depth => Reply::TrapDepth { slot },
        },
        Outcome::Spent => Reply::Spent,
    }
}

/// Whether what the function put out goes into the file.
fn is_put(outcome: Outcome, room: bool) -> bool
    ensures { (output : List ℕ) → result ≡ is_put room (ended_as outcome output) }
{
    match outcome {
        Outcome::Done { .. } => room,
        _ => false,
    }
}

impl Job {
    /// What its function put out lies in the pages of the call from now on. Takes no memory.
    fn take_output(&mut self)
        requires { self.old.reach.pages ≤ length self.old.second.items }
        ensures pages { self.new.pages.items ≡ self.old.second.items }
        ensures request { self.new.request ≡ self.old.request }
        ensures whole { (i : ℕ) → i < self.old.reach.pages → length (page_in self.new.pages.items i) ≡ 4096 }
    {
        are_whole(&self.second, self.reach.pages);
        mem::swap(&mut self.pages, &mut self.second);
    }

    /// The end of a `writel` whose function has run: its file is then so long, if there is room.
    fn end_writing(&mut self, fuel: u64, len: u32, new: u32, room: bool) -> Finished
        requires ran { is_some self.old.ran ≡ true }
        requires pages { self.old.reach.pages ≤ length self.old.pages.items }
        requires second { self.old.reach.pages ≤ length self.old.second.items }
        ensures reply { (r : Outcome) (output : List ℕ) → self.old.ran ≡ Some r → result.ending.reply ≡ write_reply room (ended_as r output) }
        ensures used { (r : Outcome) (output : List ℕ) → self.old.ran ≡ Some r → result.ending.used ≡ used_of (ended_as r output) fuel }
        ensures put { (r : Outcome) (output : List ℕ) → self.old.ran ≡ Some r → is_put room (ended_as r output) ≡ true → (result.len ≡ new) × (self.new.pages.items ≡ self.old.second.items) × ((i : ℕ) → i < self.old.reach.pages → length (page_in self.new.pages.items i) ≡ 4096) }
        ensures kept { (r : Outcome) (output : List ℕ) → self.old.ran ≡ Some r → is_put room (ended_as r output) ≡ false → (result.len ≡ len) × (self.new.pages.items ≡ self.old.pages.items) }
        ensures many { self.old.reach.pages ≤ length self.new.pages.items }
        ensures request { self.new.request ≡ self.old.request }
    {
        let Some(outcome) = self.ran else {
            unreachable!()
        };
        let ending = Ending {
            reply: write_reply(outcome, room),
            used: used_of(outcome, fuel),
        };
        if !is_put(outcome, room) {
            return Finished { ending, len };
        }
        self.take_output();
        Finished { ending, len: new }
    }

    /// What a `writel` ends with, once its pages are gathered and its function has run, on a file of this length, where all files have so many
    /// pages and the drive so many blocks. The pages of its span are then those that its file gets; where nothing is stored, they are as
    /// they were. Takes no memory.
    pub fn finish_writing(&mut self, len: u32, in_use: u64, capacity: u32) -> Finished
        requires ready { IsReady self.old }
        requires writes { is_writel self.old.request.call ≡ true }
        requires ran { is_some self.old.ran ≡ true }
        requires len { len ≤ 2 ^ 28 }
        requires in_use { in_use ≤ 2 ^ 32 }
        ensures ends { (c : Core) (lane : ℕ) (call : Flight) → Coherent c → c.calls lane ≡ Some call → HasGathered call → Suits self.old (view_of c.names call) → given self.old ≡ Some (outcome_of (plain c) call.claim.request.call) →
            len ≡ len_for c.names call.claim → in_use ≡ filled c.names.files → capacity ≡ c.shape.blocks → EndsAs c call result.ending.reply result.len self.new.pages.items }
        ensures used { (c : Core) (call : Flight) → self.old.request ≡ call.claim.request → given self.old ≡ Some (outcome_of (plain c) call.claim.request.call) →
            result.ending.used ≡ used_of (outcome_of (plain c) call.claim.request.call) (fuel_of call.claim.request.call) }
        ensures many { self.old.reach.pages ≤ length self.new.pages.items }
        ensures request { self.new.request ≡ self.old.request }
    {
        match &self.request.call {
            Call::Writel {
                off,
                len: n,
                fuel,
                ..
            } => {
                let fuel = *fuel;
                let new = put_length(len, *off, *n as usize);
                let room = has_room(in_use, capacity, len, new);
                self.end_writing(fuel, len, new, room)
            }
            _ => unreachable!(),
        }
    }
}
