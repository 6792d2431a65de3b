//! A data call without a function, from its beginning on.
ghost use Rattle.std.specs.Prelude.{◌≡◌, ℕ, None, Ok, IfOk, IfErr};
ghost use Rattle.turn_cell.specs.Desks.{IsFreeAlone, view_alone, opening_alone, table_alone};
ghost use Rattle.turn_cell.specs.Events.{events_of};
ghost use Rattle.turn_cell.specs.Steps.{IsWorn};
ghost use Rattle.plain_files.specs.declared.calls.Numbered.{Numbered};
ghost use Rattle.core_state.specs.declared.actor.Actor.TheVariants.{Lane};
ghost use Rattle.core_state.specs.History.{calls_of};
ghost use Rattle.system_state.specs.Cores.{core_of};
ghost use Rattle.desk_turns.specs.Passing.{ActsFor, core_seen, Does};
ghost use Rattle.job_turns.specs.Books.{opening_in};
ghost use Rattle.job_turns.specs.Words.{IsNumbered, IsSmall};
ghost use Rattle.call_finishes.specs.Finishing.{IsBegun, FinishSays};

use call_job::Job;
use core_state::Actor;
use fill_steps::{fill_span, fill_span_alone};
use flash_die::Die;
use job_turns::{System, turn_end_job};
use plain_files::Numbered;
use std::sync::Wait;
use turn_cell::{Alone, Desk, Seated, Worn};

/// Gathers the pages of a data call without a function that has begun at the host, and ends it: with a fault where a die failed to read, and
/// else with the reply of the plain machine. It waits where the die of a page is out. At `Worn` the call has not ended.
pub fn finish_call<'a, D: Die, R: Wait>(
    desk: &mut Seated<'a, System<D, Job>, R>,
    lane: u32,
    job: &mut Job,
) -> Result<Numbered, Worn>
    requires free { ⟦<Seated<'a, System<D, Job>, R> as Desk<System<D, Job>>>⟧.is_free desk.old }
    requires acts { ActsFor (core_of D.seen) (⟦<Seated<'a, System<D, Job>, R> as Desk<System<D, Job>>>⟧.opening desk.old) (⟦<Seated<'a, System<D, Job>, R> as Desk<System<D, Job>>>⟧.view desk.old) (Lane lane) }
    requires begun { IsBegun (core_seen (core_of D.seen) (⟦<Seated<'a, System<D, Job>, R> as Desk<System<D, Job>>>⟧.opening desk.old) (⟦<Seated<'a, System<D, Job>, R> as Desk<System<D, Job>>>⟧.view desk.old)) lane job.old }
    requires small { IsSmall (⟦<Seated<'a, System<D, Job>, R> as Desk<System<D, Job>>>⟧.opening desk.old).value }
    ensures free { ⟦<Seated<'a, System<D, Job>, R> as Desk<System<D, Job>>>⟧.is_free desk.new }
    ensures worn { IfErr result (λ x. IsWorn x.count (⟦<Seated<'a, System<D, Job>, R> as Desk<System<D, Job>>>⟧.view desk.new)) }
    ensures turn { (⟦<Seated<'a, System<D, Job>, R> as Desk<System<D, Job>>>⟧.table desk.new ≡ ⟦<Seated<'a, System<D, Job>, R> as Desk<System<D, Job>>>⟧.table desk.old) × (⟦<Seated<'a, System<D, Job>, R> as Desk<System<D, Job>>>⟧.opening desk.new ≡ ⟦<Seated<'a, System<D, Job>, R> as Desk<System<D, Job>>>⟧.opening desk.old) }
    ensures did { Does (⟦<Seated<'a, System<D, Job>, R> as Desk<System<D, Job>>>⟧.view desk.old) (⟦<Seated<'a, System<D, Job>, R> as Desk<System<D, Job>>>⟧.view desk.new) (FinishSays D.seen (⟦<Seated<'a, System<D, Job>, R> as Desk<System<D, Job>>>⟧.opening desk.old) (⟦<Seated<'a, System<D, Job>, R> as Desk<System<D, Job>>>⟧.view desk.old) (⟦<Seated<'a, System<D, Job>, R> as Desk<System<D, Job>>>⟧.view desk.new) lane job.old.request result) }
    ensures numbered { (n : Numbered) → result ≡ Ok n → IsNumbered (⟦<Seated<'a, System<D, Job>, R> as Desk<System<D, Job>>>⟧.opening desk.old).value.last (calls_of (events_of (⟦<Seated<'a, System<D, Job>, R> as Desk<System<D, Job>>>⟧.view desk.new).seen)) n.number (record { lane = lane; call = job.old.request.call; reply = n.reply }) }
    ensures request { job.new.request ≡ job.old.request }
{
    fill_span(desk, Actor::Lane(lane), lane, job)?;
    turn_end_job(desk, lane, job)
}

/// The same by the only pass, with all dies at home. It never waits, and it ends.
pub fn finish_call_alone<D: Die>(
    alone: &mut Alone<System<D, Job>>,
    lane: u32,
    job: &mut Job,
) -> Result<Numbered, Worn>
    requires free { IsFreeAlone opening_in alone.old }
    requires begun { IsBegun (core_seen (core_of D.seen) (opening_alone opening_in alone.old) (view_alone alone.old)) lane job.old }
    requires home { (die : ℕ) → ((core_seen (core_of D.seen) (opening_alone opening_in alone.old) (view_alone alone.old)).dies die).out ≡ None }
    requires small { IsSmall (opening_alone opening_in alone.old).value }
    ensures free { IsFreeAlone opening_in alone.new }
    ensures worn { IfErr result (λ x. IsWorn x.count (view_alone alone.new)) }
    ensures turn { (table_alone alone.new ≡ table_alone alone.old) × (opening_alone opening_in alone.new ≡ opening_alone opening_in alone.old) }
    ensures did { Does (view_alone alone.old) (view_alone alone.new) (FinishSays D.seen (opening_alone opening_in alone.old) (view_alone alone.old) (view_alone alone.new) lane job.old.request result) }
    ensures numbered { (n : Numbered) → result ≡ Ok n → IsNumbered (opening_alone opening_in alone.old).value.last (calls_of (events_of (view_alone alone.new).seen)) n.number (record { lane = lane; call = job.old.request.call; reply = n.reply }) }
    ensures request { job.new.request ≡ job.old.request }
    ensures home { IfOk result (λ _. (die : ℕ) → ((core_seen (core_of D.seen) (opening_alone opening_in alone.old) (view_alone alone.new)).dies die).out ≡ None) }
{
    fill_span_alone(alone, Actor::Lane(lane), lane, job)?;
    turn_end_job(alone, lane, job)
}
