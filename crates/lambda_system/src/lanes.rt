//! Lanes and workers: lanes come and go, calls are skipped, and jobs go into the queue, to a worker and back.
ghost use Rattle.std.specs.Prelude.{◌≡◌, ◌≤◌, ◌+◌, ◌-◌, ◌^◌, [], ℕ, IfOk, IfErr, Some, None, true};
ghost use Rattle.index_lists.specs.Words.{first};
ghost use Rattle.core_state.specs.declared.actor.Actor.TheVariants.{Lane, Worker};
ghost use Rattle.core_state.specs.declared.event.Event.TheVariants.{Enter, Leave, Skip, Submit, Fetch, Report};
ghost use Rattle.core_state.specs.State.{Flight, Queued, Running};
ghost use Rattle.core_state.specs.PageEvents.{flight_at};
ghost use Rattle.core_state.specs.LaneEvents.{IsIdle, MayEnter, MayLeave, MaySubmit, MayReport, result_of};
ghost use Rattle.core_state.specs.Happens.{HoldsNone};
ghost use Rattle.core_state.specs.History.{entry_of};
ghost use Rattle.system_state.specs.Cores.{core_of};
ghost use Rattle.system_state.specs.Jobs.{view_of};
ghost use Rattle.system_state.specs.Made.{Made};
ghost use Rattle.system_state.specs.Stands.{IsStanding};
ghost use Rattle.system_state.specs.declared.not_yet.NotYet.TheVariants.{QueueEmpty};
ghost use Rattle.system_lanes.specs.Leaving.{have_left};
ghost use Rattle.system_lanes.specs.Phases.{flight_in};
ghost use Rattle.system_lanes.specs.Waiting.{awaited_still};
ghost use Rattle.lambda_system.specs.Events.{Extends};

use crate::system::System;
use flash_die::Die;
use plain_files::{Numbered, Request};
use system_state::{CallJob, NotYet};

impl<D: Die, J: CallJob> System<D, J> {
    /// A lane begins.
    pub fn enter(&mut self, lane: u32)
        requires standing { IsStanding D.seen J.suits self.old.state }
        requires hands { HoldsNone (core_of D.seen self.old.state) (Lane lane) }
        requires may { MayEnter (core_of D.seen self.old.state) lane }
        ensures made { Made D.seen J.suits self.old.state (Enter lane) self.new.state }
        ensures stands { Extends D.seen J.suits self.old.state (Enter lane) self.new.state }
    {
        system_lanes::enter(&mut self.state, lane);
    }

    /// A lane ends, which has no call in flight and no mark.
    pub fn leave(&mut self, lane: u32)
        requires standing { IsStanding D.seen J.suits self.old.state }
        requires hands { HoldsNone (core_of D.seen self.old.state) (Lane lane) }
        requires may { MayLeave (core_of D.seen self.old.state) lane }
        ensures made { Made D.seen J.suits self.old.state (Leave lane) self.new.state }
        ensures stands { Extends D.seen J.suits self.old.state (Leave lane) self.new.state }
    {
        system_lanes::leave(&mut self.state, lane);
    }

    /// A call that hasn't begun is answered by `fault`, which asks for a mark, or by `nomemory`. `NotYet::Awaited`: the call that it
    /// awaits hasn't ended.
    pub fn skip(&mut self, lane: u32, request: &Request, fault: bool) -> Result<Numbered, NotYet>
        requires standing { IsStanding D.seen J.suits self.old.state }
        requires hands { HoldsNone (core_of D.seen self.old.state) (Lane lane) }
        requires idle { IsIdle (core_of D.seen self.old.state) lane }
        requires marked { fault ≡ true → ((core_of D.seen self.old.state).lanes lane).mark ≡ true }
        requires number { self.old.state.last ≤ 2 ^ 64 - 3 }
        ensures number { IfOk result (λ x. x.number ≡ self.old.state.last + 1) }
        ensures reply { IfOk result (λ x. entry_of (Skip lane request.now fault) ≡ Some (record { lane = lane; call = request.now.call; reply = x.reply })) }
        ensures awaited { IfOk result (λ x. awaited_still (core_of D.seen self.old.state).lanes request.now.awaits ≡ None) }
        ensures made { IfOk result (λ x. Made D.seen J.suits self.old.state (Skip lane request.now fault) self.new.state) }
        ensures stands { IfOk result (λ x. Extends D.seen J.suits self.old.state (Skip lane request.now fault) self.new.state) }
        ensures not_yet { IfErr result (λ y. awaited_still (core_of D.seen self.old.state).lanes request.now.awaits ≡ Some y) }
        ensures same { IfErr result (λ y. self.new.state ≡ self.old.state) }
    {
        system_lanes::skip(&mut self.state, lane, request, fault)
    }

    /// A call whose side is the drive goes to the end of the queue, with its job.
    pub fn submit(&mut self, lane: u32, job: J)
        requires standing { IsStanding D.seen J.suits self.old.state }
        requires hands { HoldsNone (core_of D.seen self.old.state) (Lane lane) }
        requires may { MaySubmit (core_of D.seen self.old.state) lane }
        requires job { J.suits job (view_of (core_of D.seen self.old.state).names (flight_in (core_of D.seen self.old.state) lane Queued)) }
        ensures made { Made D.seen J.suits self.old.state (Submit lane) self.new.state }
        ensures stands { Extends D.seen J.suits self.old.state (Submit lane) self.new.state }
    {
        system_lanes::submit(&mut self.state, lane, job);
    }

    /// The first call of the queue goes to a worker without a call, with its job. `NotYet::QueueEmpty`: there is none, and whether every
    /// lane has left.
    pub fn try_fetch(&mut self, worker: u32) -> Result<(u32, J), NotYet>
        requires standing { IsStanding D.seen J.suits self.old.state }
        requires hands { HoldsNone (core_of D.seen self.old.state) (Worker worker) }
        requires free { (l : ℕ) (call : Flight) → (core_of D.seen self.old.state).calls l ≡ Some call → call.phase ≡ Running worker → ⊥ }
        ensures first { IfOk result (λ x. first (core_of D.seen self.old.state).queue ≡ Some x.0) }
        ensures job { IfOk result (λ x. J.suits x.1 (view_of (core_of D.seen self.old.state).names (flight_at (core_of D.seen self.old.state).calls x.0))) }
        ensures made { IfOk result (λ x. Made D.seen J.suits self.old.state (Fetch worker x.0) self.new.state) }
        ensures stands { IfOk result (λ x. Extends D.seen J.suits self.old.state (Fetch worker x.0) self.new.state) }
        ensures not_yet { IfErr result (λ y. ((core_of D.seen self.old.state).queue ≡ []) × (y ≡ QueueEmpty (have_left (core_of D.seen self.old.state)))) }
        ensures same { IfErr result (λ y. self.new.state ≡ self.old.state) }
    {
        system_lanes::try_fetch(&mut self.state, worker)
    }

    /// A worker hands its call back, with the job. Its pages are gathered and its result is there, unless the call has a mark.
    pub fn report(&mut self, worker: u32, lane: u32, job: J)
        requires standing { IsStanding D.seen J.suits self.old.state }
        requires hands { HoldsNone (core_of D.seen self.old.state) (Worker worker) }
        requires may { MayReport (core_of D.seen self.old.state) worker lane }
        requires job { J.suits job (view_of (core_of D.seen self.old.state).names (flight_in (core_of D.seen self.old.state) lane (result_of (core_of D.seen self.old.state) lane))) }
        ensures made { Made D.seen J.suits self.old.state (Report worker lane) self.new.state }
        ensures stands { Extends D.seen J.suits self.old.state (Report worker lane) self.new.state }
    {
        system_lanes::report(&mut self.state, worker, lane, job);
    }
}
