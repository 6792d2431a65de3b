//! A call that is in the drive's hands is waited for.
ghost use Rattle.std.specs.Prelude.{◌≡◌, Some, Ok, IfErr};
ghost use Rattle.turn_cell.specs.Events.{events_of};
ghost use Rattle.turn_cell.specs.Steps.{IsWorn};
ghost use Rattle.plain_files.specs.declared.calls.Numbered.{Numbered};
ghost use Rattle.core_state.specs.declared.actor.Actor.TheVariants.{Lane};
ghost use Rattle.core_state.specs.History.{calls_of};
ghost use Rattle.system_state.specs.Cores.{core_of};
ghost use Rattle.desk_turns.specs.Passing.{ActsFor, core_seen, Does};
ghost use Rattle.call_finishes.specs.Gathering.{call_at};
ghost use Rattle.call_finishes.specs.Words.{IsNumbered, IsSmall};
ghost use Rattle.lambda_finishes.specs.Waiting.{IsOut, AskedSays, CollectedSays};

use call_finishes::{System, turn_collect_job};
use call_job::Job;
use flash_die::Die;
use plain_files::Numbered;
use std::sync::Wait;
use turn_cell::{Desk, Seated, Worn};

/// Asks once for a call that is in the drive's hands. It ends if a worker has reported it. None: it is queued or running, and nothing was
/// done.
pub(crate) fn ask<D: Die, K: Desk<System<D, Job>>>(
    desk: &mut K,
    lane: u32,
) -> Result<Option<Numbered>, Worn>
    requires free { K.is_free desk.old }
    requires acts { ActsFor (core_of D.seen) (K.opening desk.old) (K.view desk.old) (Lane lane) }
    requires out { IsOut (core_seen (core_of D.seen) (K.opening desk.old) (K.view desk.old)) lane (call_at (core_seen (core_of D.seen) (K.opening desk.old) (K.view desk.old)) lane).claim.request }
    requires small { IsSmall (K.opening desk.old).value }
    ensures free { K.is_free desk.new }
    ensures worn { IfErr result (λ x. IsWorn x.count (K.view desk.new)) }
    ensures turn { (K.table desk.new ≡ K.table desk.old) × (K.opening desk.new ≡ K.opening desk.old) }
    ensures did { Does (K.view desk.old) (K.view desk.new) (AskedSays D.seen (K.opening desk.old) (K.view desk.old) (K.view desk.new) lane (call_at (core_seen (core_of D.seen) (K.opening desk.old) (K.view desk.old)) lane).claim.request result) }
    ensures numbered { (n : Numbered) → result ≡ Ok (Some n) → IsNumbered (K.opening desk.old).value.last (calls_of (events_of (K.view desk.new).seen)) n.number (record { lane = lane; call = (call_at (core_seen (core_of D.seen) (K.opening desk.old) (K.view desk.old)) lane).claim.request.call; reply = n.reply }) }
{
    let answer = turn_collect_job(desk, lane)?;
    match answer {
        Ok((numbered, _job)) => Ok(Some(numbered)),
        Err(_) => Ok(None),
    }
}

/// Waits until a worker has reported a call that is in the drive's hands, and ends it. At `Worn` the call has not ended.
pub(crate) fn collect<'a, D: Die, R: Wait>(
    desk: &mut Seated<'a, System<D, Job>, R>,
    lane: u32,
) -> Result<Numbered, Worn>
    requires free { ⟦<Seated<'a, System<D, Job>, R> as Desk<System<D, Job>>>⟧.is_free desk.old }
    requires acts { ActsFor (core_of D.seen) (⟦<Seated<'a, System<D, Job>, R> as Desk<System<D, Job>>>⟧.opening desk.old) (⟦<Seated<'a, System<D, Job>, R> as Desk<System<D, Job>>>⟧.view desk.old) (Lane lane) }
    requires out { IsOut (core_seen (core_of D.seen) (⟦<Seated<'a, System<D, Job>, R> as Desk<System<D, Job>>>⟧.opening desk.old) (⟦<Seated<'a, System<D, Job>, R> as Desk<System<D, Job>>>⟧.view desk.old)) lane (call_at (core_seen (core_of D.seen) (⟦<Seated<'a, System<D, Job>, R> as Desk<System<D, Job>>>⟧.opening desk.old) (⟦<Seated<'a, System<D, Job>, R> as Desk<System<D, Job>>>⟧.view desk.old)) lane).claim.request }
    requires small { IsSmall (⟦<Seated<'a, System<D, Job>, R> as Desk<System<D, Job>>>⟧.opening desk.old).value }
    ensures free { ⟦<Seated<'a, System<D, Job>, R> as Desk<System<D, Job>>>⟧.is_free desk.new }
    ensures worn { IfErr result (λ x. IsWorn x.count (⟦<Seated<'a, System<D, Job>, R> as Desk<System<D, Job>>>⟧.view desk.new)) }
    ensures turn { (⟦<Seated<'a, System<D, Job>, R> as Desk<System<D, Job>>>⟧.table desk.new ≡ ⟦<Seated<'a, System<D, Job>, R> as Desk<System<D, Job>>>⟧.table desk.old) × (⟦<Seated<'a, System<D, Job>, R> as Desk<System<D, Job>>>⟧.opening desk.new ≡ ⟦<Seated<'a, System<D, Job>, R> as Desk<System<D, Job>>>⟧.opening desk.old) }
    ensures did { Does (⟦<Seated<'a, System<D, Job>, R> as Desk<System<D, Job>>>⟧.view desk.old) (⟦<Seated<'a, System<D, Job>, R> as Desk<System<D, Job>>>⟧.view desk.new) (CollectedSays D.seen (⟦<Seated<'a, System<D, Job>, R> as Desk<System<D, Job>>>⟧.opening desk.old) (⟦<Seated<'a, System<D, Job>, R> as Desk<System<D, Job>>>⟧.view desk.old) (⟦<Seated<'a, System<D, Job>, R> as Desk<System<D, Job>>>⟧.view desk.new) lane (call_at (core_seen (core_of D.seen) (⟦<Seated<'a, System<D, Job>, R> as Desk<System<D, Job>>>⟧.opening desk.old) (⟦<Seated<'a, System<D, Job>, R> as Desk<System<D, Job>>>⟧.view desk.old)) lane).claim.request result) }
    ensures numbered { (n : Numbered) → result ≡ Ok n → IsNumbered (⟦<Seated<'a, System<D, Job>, R> as Desk<System<D, Job>>>⟧.opening desk.old).value.last (calls_of (events_of (⟦<Seated<'a, System<D, Job>, R> as Desk<System<D, Job>>>⟧.view desk.new).seen)) n.number (record { lane = lane; call = (call_at (core_seen (core_of D.seen) (⟦<Seated<'a, System<D, Job>, R> as Desk<System<D, Job>>>⟧.opening desk.old) (⟦<Seated<'a, System<D, Job>, R> as Desk<System<D, Job>>>⟧.view desk.old)) lane).claim.request.call; reply = n.reply }) }
{
    let rt = desk.runtime();
    for _ in rt.forever() {
        let asked = ask(desk, lane)?;
        match asked {
            Some(numbered) => return Ok(numbered),
            None => desk.pause(),
        }
    }
    unreachable!()
}
