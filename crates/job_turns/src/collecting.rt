//! The turn in which a call ends that a worker has reported.
ghost use Rattle.std.specs.Prelude.{◌≡◌, [], Ok, IfOk, IfErr};
ghost use Rattle.turn_cell.specs.Events.{events_of};
ghost use Rattle.turn_cell.specs.Steps.{IsWorn};
ghost use Rattle.plain_files.specs.declared.calls.Numbered.{Numbered};
ghost use Rattle.core_state.specs.declared.actor.Actor.TheVariants.{Lane};
ghost use Rattle.core_state.specs.Happens.{HoldsNone};
ghost use Rattle.core_state.specs.History.{calls_of};
ghost use Rattle.system_state.specs.Cores.{core_of};
ghost use Rattle.system_ends.specs.Landed.{IsAway};
ghost use Rattle.desk_turns.specs.Passing.{ActsFor, core_seen, Turn, Went};
ghost use Rattle.job_events.specs.Words.{IsNumbered, IsSmall};
ghost use Rattle.call_job.specs.declared.job.Job.{Job};
ghost use Rattle.job_turns.specs.Collecting.{StillWaits, CollectSays};

use call_job::Job;
use flash_die::Die;
use job_events::{System, try_collect_job};
use plain_files::Numbered;
use system_state::NotYet;
use turn_cell::{Desk, Worn};

/// A call of the lane that is in other hands ends, if a worker has reported it, with the next number and its reply, and its job is the
/// caller's then. `NotYet`: it is queued or running, and nothing was done. At `Worn` nothing was done, and the lane waits for it as before.
pub fn turn_collect_job<D: Die, K: Desk<System<D, Job>>>(
    desk: &mut K,
    lane: u32,
) -> Result<Result<(Numbered, Job), NotYet>, Worn>
    requires free { K.is_free desk.old }
    requires acts { ActsFor (core_of D.seen) (K.opening desk.old) (K.view desk.old) (Lane lane) }
    requires hands { HoldsNone (core_seen (core_of D.seen) (K.opening desk.old) (K.view desk.old)) (Lane lane) }
    requires away { IsAway (core_seen (core_of D.seen) (K.opening desk.old) (K.view desk.old)) lane }
    requires small { IsSmall (K.opening desk.old).value }
    ensures free { K.is_free desk.new }
    ensures worn { IfErr result (λ x. IsWorn x.count (K.view desk.new)) }
    ensures turn { (K.table desk.new ≡ K.table desk.old) × (K.opening desk.new ≡ K.opening desk.old) }
    ensures went { IfErr result (λ _. Went (K.view desk.old) (K.view desk.new) []) }
    ensures kept { IfErr result (λ _. StillWaits (core_seen (core_of D.seen) (K.opening desk.old) (K.view desk.old)) (core_seen (core_of D.seen) (K.opening desk.old) (K.view desk.new)) lane) }
    ensures did { IfOk result (λ x. Turn (core_of D.seen) (K.opening desk.old) (K.view desk.old) (K.view desk.new) (CollectSays (core_seen (core_of D.seen) (K.opening desk.old) (K.view desk.old)) lane x)) }
    ensures numbered { (n : Numbered) (job : Job) → result ≡ Ok (Ok (n, job)) → IsNumbered (K.opening desk.old).value.last (calls_of (events_of (K.view desk.new).seen)) n.number (record { lane = lane; call = job.request.call; reply = n.reply }) }
{
    let mut system = desk.take()?;
    let answer = try_collect_job(&mut system.state, lane);
    desk.give(system);
    Ok(answer)
}
