//! A call ends, with what its job gives.
ghost use Rattle.std.specs.Prelude.{◌≡◌, ◌≤◌, ◌<◌, ◌+◌, ◌-◌, ◌^◌, ℕ, List, [], ◌∷◌, length, get_or, set, IfOk, IfErr, None, true, false};
ghost use Rattle.coherence.specs.Paired.{flags_at};
ghost use Rattle.core_state.specs.declared.actor.Actor.TheVariants.{Lane};
ghost use Rattle.core_state.specs.declared.event.Event.TheVariants.{End};
ghost use Rattle.core_state.specs.State.{Held};
ghost use Rattle.core_state.specs.Coherent.{Coherent};
ghost use Rattle.core_state.specs.PageEvents.{flight_at};
ghost use Rattle.core_state.specs.EndEvent.{is_reported};
ghost use Rattle.core_state.specs.Happens.{HoldsNone};
ghost use Rattle.system_state.specs.Cores.{core_of};
ghost use Rattle.system_state.specs.Made.{Made};
ghost use Rattle.system_state.specs.Stands.{IsStanding, Stands};
ghost use Rattle.system_state.specs.declared.not_yet.NotYet.TheVariants.{Unfinished};
ghost use Rattle.system_ends.specs.Landed.{IsAway, reply_at};
ghost use Rattle.desk_turns.specs.Making.{Makes};
ghost use Rattle.call_job.specs.Suits.{Suits};
ghost use Rattle.job_events.specs.Ended.{CanEnd, EndsWith, HasTables};

use crate::tables::{has_mark, in_use, is_sync, len_for};
use call_job::{Finished, Job};
use flash_die::Die;
use plain_files::{Numbered, Reply};
use std::snapshot::Snapshot;
use system_ends::{Ending, end_call, jobs_held, take_reported};
use system_state::{NotYet, State};

/// A call that stored nothing ends with this reply.
fn replied(reply: Reply) -> Finished
    ensures { result.ending.reply ≡ reply }
{
    Finished {
        ending: Ending { reply, used: 0 },
        len: 0,
    }
}

/// What a lane's call ends with: with a mark a fault, a `sync` with `done`, and any other call with what its job gives.
fn finish_call<D: Die>(state: &State<D, Job>, lane: u32, job: &mut Job) -> Finished
    requires tables { HasTables state.now lane }
    requires coherent { Coherent (core_of D.seen state.now) }
    requires ends { CanEnd (core_of D.seen state.now) lane job.old }
    ensures ends { EndsWith (core_of D.seen state.now) lane job.old.request result job.new.pages.items }
    ensures request { job.new.request ≡ job.old.request }
{
    if has_mark(&state.lanes, lane) {
        return replied(Reply::Fault);
    }
    if is_sync(&job.request.call) {
        return replied(Reply::Done);
    }
    let len = len_for(&state.meta.names, &job.request.call);
    let pages = in_use(&state.meta.extents);
    job.finish(len, pages, state.sizes.blocks)
}

/// A call that may end does so; its job was taken out of these jobs, if it was in the state.
fn end_with<D: Die>(
    state: &mut State<D, Job>,
    jobs: Snapshot<Vec<Option<Job>>>,
    lane: u32,
    job: &mut Job,
) -> Numbered
    requires standing { IsStanding D.seen Suits (record state.old { jobs = jobs.value }) }
    requires out { state.old.jobs.items ≡ set jobs.value.items lane None }
    requires hands { HoldsNone (core_of D.seen state.old) (Lane lane) }
    requires ends { CanEnd (core_of D.seen state.old) lane job.old }
    requires last { state.old.last ≤ 2 ^ 64 - 3 }
    requires versions { (b : ℕ) → b < state.old.sizes.blocks → (flags_at state.old.pair b).version ≤ 2 ^ 64 - 3 }
    ensures number { result.number ≡ state.old.last + 1 }
    ensures reply { result.reply ≡ reply_at (core_of D.seen state.old) lane job.old.request }
    ensures made { Made D.seen Suits (record state.old { jobs = jobs.value }) (End lane job.old.request result.reply) state.new }
    ensures stands { Makes (Stands D.seen Suits) (record state.old { jobs = jobs.value }) (End lane job.old.request result.reply ∷ []) state.new }
    ensures request { job.new.request ≡ job.old.request }
{
    let Finished { ending, len } = finish_call(state, lane, job);
    end_call(state, jobs, lane, &job.request, ending, len, &mut job.pages)
}

/// A held call ends, with the next number and its reply: with a mark a fault, and else that of the plain machine. Its pages go into its file
/// where it stored, and back where it didn't; the job gets other pages. Takes no memory.
pub fn end_job<D: Die>(state: &mut State<D, Job>, lane: u32, job: &mut Job) -> Numbered
    requires standing { IsStanding D.seen Suits state.old }
    requires hands { HoldsNone (core_of D.seen state.old) (Lane lane) }
    requires held { (flight_at (core_of D.seen state.old).calls lane).phase ≡ Held }
    requires ends { CanEnd (core_of D.seen state.old) lane job.old }
    requires last { state.old.last ≤ 2 ^ 64 - 3 }
    requires versions { (b : ℕ) → b < state.old.sizes.blocks → (flags_at state.old.pair b).version ≤ 2 ^ 64 - 3 }
    ensures number { result.number ≡ state.old.last + 1 }
    ensures reply { result.reply ≡ reply_at (core_of D.seen state.old) lane job.old.request }
    ensures made { Made D.seen Suits state.old (End lane job.old.request result.reply) state.new }
    ensures stands { Makes (Stands D.seen Suits) state.old (End lane job.old.request result.reply ∷ []) state.new }
    ensures request { job.new.request ≡ job.old.request }
{
    let jobs = jobs_held(state, lane);
    end_with(state, jobs, lane, job)
}

/// A call that a worker has reported ends so, with the job that it left, which is the caller's then. `NotYet`: the call is queued or
/// running, and nothing has changed. Takes no memory.
pub fn try_collect_job<D: Die>(
    state: &mut State<D, Job>,
    lane: u32,
) -> Result<(Numbered, Job), NotYet>
    requires standing { IsStanding D.seen Suits state.old }
    requires hands { HoldsNone (core_of D.seen state.old) (Lane lane) }
    requires away { IsAway (core_of D.seen state.old) lane }
    requires last { state.old.last ≤ 2 ^ 64 - 3 }
    requires versions { (b : ℕ) → b < state.old.sizes.blocks → (flags_at state.old.pair b).version ≤ 2 ^ 64 - 3 }
    ensures reported { IfOk result (λ x. is_reported (flight_at (core_of D.seen state.old).calls lane).phase ≡ true) }
    ensures number { IfOk result (λ x. x.0.number ≡ state.old.last + 1) }
    ensures reply { IfOk result (λ x. x.0.reply ≡ reply_at (core_of D.seen state.old) lane x.1.request) }
    ensures request { IfOk result (λ x. x.1.request ≡ (flight_at (core_of D.seen state.old).calls lane).claim.request) }
    ensures made { IfOk result (λ x. Made D.seen Suits state.old (End lane x.1.request x.0.reply) state.new) }
    ensures stands { IfOk result (λ x. Makes (Stands D.seen Suits) state.old (End lane x.1.request x.0.reply ∷ []) state.new) }
    ensures unfinished { IfErr result (λ y. (is_reported (flight_at (core_of D.seen state.old).calls lane).phase ≡ false) × (y ≡ Unfinished lane)) }
    ensures same { IfErr result (λ y. state.new ≡ state.old) }
{
    let jobs = Snapshot::of(&state.jobs);
    match take_reported(state, lane) {
        Ok(mut job) => {
            let numbered = end_with(state, jobs, lane, &mut job);
            Ok((numbered, job))
        }
        Err(y) => Err(y),
    }
}
