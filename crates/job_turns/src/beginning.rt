//! The turn in which a prepared call begins, or is refused.
ghost use Rattle.std.specs.Prelude.{◌≡◌, ◌⊎◌, [], true, false, Ok, IfOk, IfErr};
ghost use Rattle.turn_cell.specs.Events.{events_of};
ghost use Rattle.turn_cell.specs.Steps.{IsWorn};
ghost use Rattle.plain_files.specs.declared.calls.Numbered.{Numbered};
ghost use Rattle.core_state.specs.declared.actor.Actor.TheVariants.{Lane};
ghost use Rattle.core_state.specs.Reach.{is_data, is_sync};
ghost use Rattle.core_state.specs.LaneEvents.{IsIdle};
ghost use Rattle.core_state.specs.Happens.{HoldsNone};
ghost use Rattle.core_state.specs.History.{calls_of};
ghost use Rattle.system_state.specs.Cores.{core_of};
ghost use Rattle.job_events.specs.BegunAnswer.TheVariants.{Ended};
ghost use Rattle.desk_turns.specs.Passing.{ActsFor, core_seen, Turn, Went};
ghost use Rattle.job_events.specs.Words.{StillHolds, IsNumbered, IsSmall};
ghost use Rattle.job_events.specs.Beginning.{BeginSays};
ghost use Rattle.call_job.specs.Prepares.{IsPrepared};
ghost use Rattle.job_turns.specs.Starting.{StartSays};

use call_job::{Job, Prepared};
use flash_die::Die;
use job_events::{Begun, System, begin_job};
use system_state::NotYet;
use turn_cell::{Desk, Worn};

/// A prepared data call or `sync` of a lane that is free begins, with its job, or is refused and has ended. `NotYet`: the call that it awaits
/// hasn't ended, or a call is in its way, or its side has no room for it; `picked` is that side then. Where it doesn't begin, its job is as it
/// was. At `Worn` nothing was done, and the lane holds what it held.
pub fn turn_begin_job<D: Die, K: Desk<System<D, Job>>>(
    desk: &mut K,
    lane: u32,
    prepared: &mut Prepared,
) -> Result<Result<Begun, NotYet>, Worn>
    requires free { K.is_free desk.old }
    requires acts { ActsFor (core_of D.seen) (K.opening desk.old) (K.view desk.old) (Lane lane) }
    requires hands { HoldsNone (core_seen (core_of D.seen) (K.opening desk.old) (K.view desk.old)) (Lane lane) }
    requires idle { IsIdle (core_seen (core_of D.seen) (K.opening desk.old) (K.view desk.old)) lane }
    requires unmarked { ((core_seen (core_of D.seen) (K.opening desk.old) (K.view desk.old)).lanes lane).mark ≡ false }
    requires prepared { IsPrepared prepared.old.job.request prepared.old.job }
    requires kind { (is_data prepared.old.job.request.call ≡ true) ⊎ (is_sync prepared.old.job.request.call ≡ true) }
    requires small { IsSmall (K.opening desk.old).value }
    ensures free { K.is_free desk.new }
    ensures worn { IfErr result (λ x. IsWorn x.count (K.view desk.new)) }
    ensures turn { (K.table desk.new ≡ K.table desk.old) × (K.opening desk.new ≡ K.opening desk.old) }
    ensures went { IfErr result (λ _. Went (K.view desk.old) (K.view desk.new) []) }
    ensures kept { IfErr result (λ _. StillHolds (core_of D.seen) (K.opening desk.old) (K.view desk.old) (K.view desk.new) (Lane lane)) }
    ensures same { IfErr result (λ _. prepared.new ≡ prepared.old) }
    ensures request { prepared.new.job.request ≡ prepared.old.job.request }
    ensures did { IfOk result (λ x. Turn (core_of D.seen) (K.opening desk.old) (K.view desk.old) (K.view desk.new) (BeginSays lane prepared.old.job.request prepared.new.picked x)) }
    ensures job { IfOk result (λ x. StartSays (core_seen (core_of D.seen) (K.opening desk.old) (K.view desk.new)) lane prepared.old.job prepared.new.job x) }
    ensures numbered { (n : Numbered) → result ≡ Ok (Ok (Ended n)) → IsNumbered (K.opening desk.old).value.last (calls_of (events_of (K.view desk.new).seen)) n.number (record { lane = lane; call = prepared.old.job.request.call; reply = n.reply }) }
{
    let mut system = desk.take()?;
    let answer = begin_job(&mut system.state, lane, prepared);
    desk.give(system);
    Ok(answer)
}
