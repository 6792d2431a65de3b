//! The job of a call that ends: a reported call has left one, a held call has none.
ghost use Rattle.std.specs.Prelude.{◌≡◌, ◌<◌, length, get_or, set, None, Some, is_some, IfOk, IfErr, true, false};
ghost use Rattle.core_state.specs.State.{Held};
ghost use Rattle.core_state.specs.EndEvent.{is_reported};
ghost use Rattle.core_state.specs.PageEvents.{flight_at};
ghost use Rattle.system_state.specs.Cores.{core_of};
ghost use Rattle.system_state.specs.Jobs.{view_of};
ghost use Rattle.system_state.specs.Stands.{IsStanding};
ghost use Rattle.system_state.specs.declared.not_yet.NotYet.TheVariants.{Unfinished};
ghost use Rattle.system_ends.specs.Landed.{IsAway, came_back};

use flash_die::Die;
use std::snapshot::Snapshot;
use system_state::{Call, CallJob, NotYet, Phase, State};

/// Whether a lane's call is reported.
fn came_back(calls: &[Option<Call>], lane: u32) -> bool
    requires { lane < length calls.now }
    ensures { result ≡ came_back (get_or calls.now lane None) }
{
    match &calls[lane as usize] {
        None => false,
        Some(call) => matches!(&call.phase, Phase::Reported(_)),
    }
}

/// Takes a job out.
fn take_job<J: CallJob>(jobs: &mut Vec<Option<J>>, lane: u32) -> J
    requires within { lane < length jobs.old.items }
    requires there { is_some (get_or jobs.old.items lane None) ≡ true }
    ensures job { get_or jobs.old.items lane None ≡ Some result }
    ensures jobs { jobs.new.items ≡ set jobs.old.items lane None }
{
    let slot = &mut jobs[lane as usize];
    let Some(job) = slot.take() else {
        unreachable!()
    };
    job
}

/// The job of a lane's call that a worker has reported, taken out before the call ends. `NotYet`: the call is queued or running.
pub fn take_reported<D: Die, J: CallJob>(state: &mut State<D, J>, lane: u32) -> Result<J, NotYet>
    requires standing { IsStanding D.seen J.suits state.old }
    requires away { IsAway (core_of D.seen state.old) lane }
    ensures reported { IfOk result (λ job. is_reported (flight_at (core_of D.seen state.old).calls lane).phase ≡ true) }
    ensures suits { IfOk result (λ job. J.suits job (view_of (core_of D.seen state.old).names (flight_at (core_of D.seen state.old).calls lane))) }
    ensures out { IfOk result (λ job. (state.new ≡ record state.old { jobs = state.new.jobs }) × (state.new.jobs.items ≡ set state.old.jobs.items lane None)) }
    ensures unfinished { IfErr result (λ y. (is_reported (flight_at (core_of D.seen state.old).calls lane).phase ≡ false) × (y ≡ Unfinished lane)) }
    ensures same { IfErr result (λ y. state.new ≡ state.old) }
{
    if came_back(&state.calls, lane) {
        Ok(take_job(&mut state.jobs, lane))
    } else {
        Err(NotYet::Unfinished { lane })
    }
}

/// The jobs where a call is held, which has left none.
pub fn jobs_held<D: Die, J: CallJob>(state: &State<D, J>, lane: u32) -> Snapshot<Vec<Option<J>>>
    requires standing { IsStanding D.seen J.suits state.now }
    requires held { (flight_at (core_of D.seen state.now).calls lane).phase ≡ Held }
    ensures jobs { result.value ≡ state.now.jobs }
    ensures none { state.now.jobs.items ≡ set state.now.jobs.items lane None }
{
    Snapshot::of(&state.jobs)
}
