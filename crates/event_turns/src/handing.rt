//! Turns in which a call with a function goes into the queue, to a worker, and back to its lane.
ghost use Rattle.std.specs.Prelude.{◌≡◌, ◌∷◌, [], IfOk, IfErr};
ghost use Rattle.turn_cell.specs.Steps.{IsWorn};
ghost use Rattle.core_state.specs.declared.actor.Actor.TheVariants.{Lane, Worker};
ghost use Rattle.core_state.specs.declared.event.Event.TheVariants.{Submit, Report};
ghost use Rattle.core_state.specs.State.{Queued};
ghost use Rattle.core_state.specs.LaneEvents.{MaySubmit, MayReport, result_of};
ghost use Rattle.core_state.specs.Coherent.{Coherent};
ghost use Rattle.core_state.specs.Happens.{HoldsNone};
ghost use Rattle.system_state.specs.Jobs.{view_of};
ghost use Rattle.system_state.specs.Cores.{core_of};
ghost use Rattle.system_lanes.specs.Phases.{flight_in};
ghost use Rattle.desk_turns.specs.Passing.{ActsFor, core_seen, Turn, Went};
ghost use Rattle.event_turns.specs.Words.{StillHolds};
ghost use Rattle.event_turns.specs.JobTurns.{SuitsInSpan, FetchSays, IsUnbusy};

use flash_die::Die;
use flushes::System;
use system_lanes::{report, submit, try_fetch};
use system_state::{CallJob, NotYet};
use turn_cell::{Desk, Worn};

/// A call whose side is the drive goes to the end of the queue, with its job. At `Worn` nothing was done but that the job is gone, and the
/// lane holds what it held.
pub fn turn_submit<D: Die, J: CallJob, K: Desk<System<D, J>>>(
    desk: &mut K,
    lane: u32,
    job: J,
) -> Result<(), Worn>
    requires free { K.is_free desk.old }
    requires acts { ActsFor (core_of D.seen) (K.opening desk.old) (K.view desk.old) (Lane lane) }
    requires hands { HoldsNone (core_seen (core_of D.seen) (K.opening desk.old) (K.view desk.old)) (Lane lane) }
    requires may { MaySubmit (core_seen (core_of D.seen) (K.opening desk.old) (K.view desk.old)) lane }
    requires job { SuitsInSpan J.suits job (view_of (core_seen (core_of D.seen) (K.opening desk.old) (K.view desk.old)).names (flight_in (core_seen (core_of D.seen) (K.opening desk.old) (K.view desk.old)) lane Queued)) }
    ensures free { K.is_free desk.new }
    ensures worn { IfErr result (λ x. IsWorn x.count (K.view desk.new)) }
    ensures turn { (K.table desk.new ≡ K.table desk.old) × (K.opening desk.new ≡ K.opening desk.old) }
    ensures went { IfErr result (λ _. Went (K.view desk.old) (K.view desk.new) []) }
    ensures kept { IfErr result (λ _. StillHolds (core_of D.seen) (K.opening desk.old) (K.view desk.old) (K.view desk.new) (Lane lane)) }
    ensures did { IfOk result (λ _. Turn (core_of D.seen) (K.opening desk.old) (K.view desk.old) (K.view desk.new) (λ c es. es ≡ Submit lane ∷ [])) }
{
    let mut system = desk.take()?;
    submit(&mut system.state, lane, job);
    desk.give(system);
    Ok(())
}

/// The first call of the queue goes to a worker without a call and without a die, with its job. `NotYet`: the queue is empty; whether every
/// lane has left. At `Worn` nothing was done, and the worker holds what it held.
pub fn turn_fetch<D: Die, J: CallJob, K: Desk<System<D, J>>>(
    desk: &mut K,
    worker: u32,
) -> Result<Result<(u32, J), NotYet>, Worn>
    requires free { K.is_free desk.old }
    requires acts { ActsFor (core_of D.seen) (K.opening desk.old) (K.view desk.old) (Worker worker) }
    requires hands { HoldsNone (core_seen (core_of D.seen) (K.opening desk.old) (K.view desk.old)) (Worker worker) }
    requires unbusy { IsUnbusy (core_seen (core_of D.seen) (K.opening desk.old) (K.view desk.old)) worker }
    ensures free { K.is_free desk.new }
    ensures worn { IfErr result (λ x. IsWorn x.count (K.view desk.new)) }
    ensures turn { (K.table desk.new ≡ K.table desk.old) × (K.opening desk.new ≡ K.opening desk.old) }
    ensures went { IfErr result (λ _. Went (K.view desk.old) (K.view desk.new) []) }
    ensures kept { IfErr result (λ _. StillHolds (core_of D.seen) (K.opening desk.old) (K.view desk.old) (K.view desk.new) (Worker worker)) }
    ensures did { IfOk result (λ x. Turn (core_of D.seen) (K.opening desk.old) (K.view desk.old) (K.view desk.new) (FetchSays J.suits worker x)) }
{
    let mut system = desk.take()?;
    let answer = try_fetch(&mut system.state, worker);
    desk.give(system);
    Ok(answer)
}

/// A worker hands its call back, with the job: its pages are gathered and its result is there, unless the call has a mark. What the result has to
/// be follows from the gathered pages, since the core that was seen last is coherent. At `Worn` nothing was done but that the job is gone, and
/// the worker holds what it held.
pub fn turn_report<D: Die, J: CallJob, K: Desk<System<D, J>>>(
    desk: &mut K,
    worker: u32,
    lane: u32,
    job: J,
) -> Result<(), Worn>
    requires free { K.is_free desk.old }
    requires acts { ActsFor (core_of D.seen) (K.opening desk.old) (K.view desk.old) (Worker worker) }
    requires hands { HoldsNone (core_seen (core_of D.seen) (K.opening desk.old) (K.view desk.old)) (Worker worker) }
    requires may { MayReport (core_seen (core_of D.seen) (K.opening desk.old) (K.view desk.old)) worker lane }
    requires job { Coherent (core_seen (core_of D.seen) (K.opening desk.old) (K.view desk.old)) → SuitsInSpan J.suits job (view_of (core_seen (core_of D.seen) (K.opening desk.old) (K.view desk.old)).names (flight_in (core_seen (core_of D.seen) (K.opening desk.old) (K.view desk.old)) lane (result_of (core_seen (core_of D.seen) (K.opening desk.old) (K.view desk.old)) lane))) }
    ensures free { K.is_free desk.new }
    ensures worn { IfErr result (λ x. IsWorn x.count (K.view desk.new)) }
    ensures turn { (K.table desk.new ≡ K.table desk.old) × (K.opening desk.new ≡ K.opening desk.old) }
    ensures went { IfErr result (λ _. Went (K.view desk.old) (K.view desk.new) []) }
    ensures kept { IfErr result (λ _. StillHolds (core_of D.seen) (K.opening desk.old) (K.view desk.old) (K.view desk.new) (Worker worker)) }
    ensures did { IfOk result (λ _. Turn (core_of D.seen) (K.opening desk.old) (K.view desk.old) (K.view desk.new) (λ c es. es ≡ Report worker lane ∷ [])) }
{
    let mut system = desk.take()?;
    report(&mut system.state, worker, lane, job);
    desk.give(system);
    Ok(())
}
