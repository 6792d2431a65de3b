//! The turn in which a held call ends, with what its job gives.
ghost use Rattle.std.specs.Prelude.{◌≡◌, [], Ok, IfOk, IfErr};
ghost use Rattle.turn_cell.specs.Events.{events_of};
ghost use Rattle.turn_cell.specs.Steps.{IsWorn};
ghost use Rattle.plain_files.specs.declared.calls.Numbered.{Numbered};
ghost use Rattle.core_state.specs.declared.actor.Actor.TheVariants.{Lane};
ghost use Rattle.core_state.specs.State.{Held};
ghost use Rattle.core_state.specs.PageEvents.{flight_at};
ghost use Rattle.core_state.specs.Happens.{HoldsNone};
ghost use Rattle.core_state.specs.History.{calls_of};
ghost use Rattle.system_state.specs.Cores.{core_of};
ghost use Rattle.desk_turns.specs.Passing.{ActsFor, core_seen, Turn, Went};
ghost use Rattle.job_events.specs.Words.{StillHolds, IsNumbered, IsSmall};
ghost use Rattle.job_events.specs.Ended.{CanEnd};
ghost use Rattle.job_turns.specs.Finishing.{EndSays};

use call_job::Job;
use flash_die::Die;
use job_events::{System, end_job};
use plain_files::Numbered;
use turn_cell::{Desk, Worn};

/// A held call that may end does so, with the next number and its reply: with a mark a fault, and else that of the plain machine. Its pages
/// go into its file where it stored, and back where it didn't; the job gets other pages. At `Worn` nothing was done, and the lane holds
/// what it held.
pub fn turn_end_job<D: Die, K: Desk<System<D, Job>>>(
    desk: &mut K,
    lane: u32,
    job: &mut Job,
) -> Result<Numbered, Worn>
    requires free { K.is_free desk.old }
    requires acts { ActsFor (core_of D.seen) (K.opening desk.old) (K.view desk.old) (Lane lane) }
    requires hands { HoldsNone (core_seen (core_of D.seen) (K.opening desk.old) (K.view desk.old)) (Lane lane) }
    requires held { (flight_at (core_seen (core_of D.seen) (K.opening desk.old) (K.view desk.old)).calls lane).phase ≡ Held }
    requires ends { CanEnd (core_seen (core_of D.seen) (K.opening desk.old) (K.view desk.old)) lane job.old }
    requires small { IsSmall (K.opening desk.old).value }
    ensures free { K.is_free desk.new }
    ensures worn { IfErr result (λ x. IsWorn x.count (K.view desk.new)) }
    ensures turn { (K.table desk.new ≡ K.table desk.old) × (K.opening desk.new ≡ K.opening desk.old) }
    ensures went { IfErr result (λ _. Went (K.view desk.old) (K.view desk.new) []) }
    ensures kept { IfErr result (λ _. StillHolds (core_of D.seen) (K.opening desk.old) (K.view desk.old) (K.view desk.new) (Lane lane)) }
    ensures same { IfErr result (λ _. job.new ≡ job.old) }
    ensures request { job.new.request ≡ job.old.request }
    ensures did { IfOk result (λ n. Turn (core_of D.seen) (K.opening desk.old) (K.view desk.old) (K.view desk.new) (EndSays lane job.old.request n)) }
    ensures numbered { (n : Numbered) → result ≡ Ok n → IsNumbered (K.opening desk.old).value.last (calls_of (events_of (K.view desk.new).seen)) n.number (record { lane = lane; call = job.old.request.call; reply = n.reply }) }
{
    let mut system = desk.take()?;
    let answer = end_job(&mut system.state, lane, job);
    desk.give(system);
    Ok(answer)
}
