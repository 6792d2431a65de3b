//! A call that is with a worker: its pages, its run, and its report.
ghost use Rattle.std.specs.Prelude.{◌≡◌, ℕ, ◌≤◌, ◌^◌, None, IfOk, IfErr};
ghost use Rattle.turn_cell.specs.Desks.{IsFreeAlone, view_alone, opening_alone, table_alone};
ghost use Rattle.turn_cell.specs.Steps.{IsWorn};
ghost use Rattle.core_state.specs.declared.actor.Actor.TheVariants.{Worker};
ghost use Rattle.system_state.specs.Cores.{core_of};
ghost use Rattle.desk_turns.specs.Passing.{ActsFor, core_seen, Does};
ghost use Rattle.fill_steps.specs.Books.{opening_in};
ghost use Rattle.drive_worker.specs.Serving.{IsWith, BackSays};

use crate::running::run_gathered;
use call_job::Job;
use core_state::Actor;
use fill_steps::{System, fill_span, fill_span_alone, turn_report};
use flash_die::Die;
use gates::Gate;
use std::sync::Wait;
use turn_cell::{Alone, Desk, Seated, Worn};

/// Gathers the pages of the lane's call, which is with the worker, runs its function where all were read, and reports it.
pub(crate) fn serve_call<'a, D: Die, R: Wait, G: Gate>(
    desk: &mut Seated<'a, System<D, Job>, R>,
    gate: &G,
    worker: u32,
    lane: u32,
    job: Job,
) -> Result<(), Worn>
    requires free { ⟦<Seated<'a, System<D, Job>, R> as Desk<System<D, Job>>>⟧.is_free desk.old }
    requires acts { ActsFor (core_of D.seen) (⟦<Seated<'a, System<D, Job>, R> as Desk<System<D, Job>>>⟧.opening desk.old) (⟦<Seated<'a, System<D, Job>, R> as Desk<System<D, Job>>>⟧.view desk.old) (Worker worker) }
    requires fetched { IsWith (core_seen (core_of D.seen) (⟦<Seated<'a, System<D, Job>, R> as Desk<System<D, Job>>>⟧.opening desk.old) (⟦<Seated<'a, System<D, Job>, R> as Desk<System<D, Job>>>⟧.view desk.old)) worker lane job }
    requires small { (⟦<Seated<'a, System<D, Job>, R> as Desk<System<D, Job>>>⟧.opening desk.old).value.places.reads ≤ 2 ^ 62 }
    ensures free { ⟦<Seated<'a, System<D, Job>, R> as Desk<System<D, Job>>>⟧.is_free desk.new }
    ensures worn { IfErr result (λ x. IsWorn x.count (⟦<Seated<'a, System<D, Job>, R> as Desk<System<D, Job>>>⟧.view desk.new)) }
    ensures turn { (⟦<Seated<'a, System<D, Job>, R> as Desk<System<D, Job>>>⟧.table desk.new ≡ ⟦<Seated<'a, System<D, Job>, R> as Desk<System<D, Job>>>⟧.table desk.old) × (⟦<Seated<'a, System<D, Job>, R> as Desk<System<D, Job>>>⟧.opening desk.new ≡ ⟦<Seated<'a, System<D, Job>, R> as Desk<System<D, Job>>>⟧.opening desk.old) }
    ensures did { Does (⟦<Seated<'a, System<D, Job>, R> as Desk<System<D, Job>>>⟧.view desk.old) (⟦<Seated<'a, System<D, Job>, R> as Desk<System<D, Job>>>⟧.view desk.new) (BackSays D.seen (⟦<Seated<'a, System<D, Job>, R> as Desk<System<D, Job>>>⟧.opening desk.old) (⟦<Seated<'a, System<D, Job>, R> as Desk<System<D, Job>>>⟧.view desk.old) (⟦<Seated<'a, System<D, Job>, R> as Desk<System<D, Job>>>⟧.view desk.new) worker lane result) }
{
    let mut job = job;
    let read = fill_span(desk, Actor::Worker(worker), lane, &mut job)?;
    run_gathered(gate, lane, read, &mut job);
    turn_report(desk, worker, lane, job)
}

/// The same by the only pass, with all dies at home.
pub(crate) fn serve_call_alone<D: Die, G: Gate>(
    alone: &mut Alone<System<D, Job>>,
    gate: &G,
    worker: u32,
    lane: u32,
    job: Job,
) -> Result<(), Worn>
    requires free { IsFreeAlone opening_in alone.old }
    requires fetched { IsWith (core_seen (core_of D.seen) (opening_alone opening_in alone.old) (view_alone alone.old)) worker lane job }
    requires home { (die : ℕ) → ((core_seen (core_of D.seen) (opening_alone opening_in alone.old) (view_alone alone.old)).dies die).out ≡ None }
    requires small { (opening_alone opening_in alone.old).value.places.reads ≤ 2 ^ 62 }
    ensures free { IsFreeAlone opening_in alone.new }
    ensures worn { IfErr result (λ x. IsWorn x.count (view_alone alone.new)) }
    ensures turn { (table_alone alone.new ≡ table_alone alone.old) × (opening_alone opening_in alone.new ≡ opening_alone opening_in alone.old) }
    ensures did { Does (view_alone alone.old) (view_alone alone.new) (BackSays D.seen (opening_alone opening_in alone.old) (view_alone alone.old) (view_alone alone.new) worker lane result) }
    ensures home { IfOk result (λ _. (die : ℕ) → ((core_seen (core_of D.seen) (opening_alone opening_in alone.old) (view_alone alone.new)).dies die).out ≡ None) }
{
    let mut job = job;
    let read = fill_span_alone(alone, Actor::Worker(worker), lane, &mut job)?;
    run_gathered(gate, lane, read, &mut job);
    turn_report(alone, worker, lane, job)
}
