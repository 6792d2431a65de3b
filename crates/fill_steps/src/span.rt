//! All pages of a call.
ghost use Rattle.std.specs.Prelude.{◌≡◌, ◌≤◌, ◌^◌, ℕ, false, None, IfOk, IfErr};
ghost use Rattle.turn_cell.specs.Desks.{IsFreeAlone, view_alone, opening_alone, table_alone};
ghost use Rattle.turn_cell.specs.Steps.{IsWorn};
ghost use Rattle.system_state.specs.Cores.{core_of};
ghost use Rattle.desk_turns.specs.Passing.{ActsFor, core_seen, Does};
ghost use Rattle.event_turns.specs.Books.{opening_in};
ghost use Rattle.call_job.specs.Suits.{Suits};
ghost use Rattle.fill_steps.specs.Gathering.{told_at, IsGathering};
ghost use Rattle.fill_steps.specs.Spans.{SpanSays, IsSameButPages};

use crate::page::FillStep;
use crate::step::fill_step;
use call_job::Job;
use core_state::Actor;
use event_turns::System;
use flash_die::Die;
use std::sync::Wait;
use turn_cell::{Alone, Desk, Seated, Worn};

/// Gathers all pages that a lane's call gathers into its job, the lowest first: the actor owns the call, and holds no die. False: a die failed
/// to read, and the lane is marked. It waits where the die of the next page is out.
pub fn fill_span<'a, D: Die, R: Wait>(
    desk: &mut Seated<'a, System<D, Job>, R>,
    actor: Actor,
    lane: u32,
    job: &mut Job,
) -> Result<bool, Worn>
    requires free { ⟦<Seated<'a, System<D, Job>, R> as Desk<System<D, Job>>>⟧.is_free desk.old }
    requires acts { ActsFor (core_of D.seen) (⟦<Seated<'a, System<D, Job>, R> as Desk<System<D, Job>>>⟧.opening desk.old) (⟦<Seated<'a, System<D, Job>, R> as Desk<System<D, Job>>>⟧.view desk.old) actor }
    requires gathering { IsGathering (core_seen (core_of D.seen) (⟦<Seated<'a, System<D, Job>, R> as Desk<System<D, Job>>>⟧.opening desk.old) (⟦<Seated<'a, System<D, Job>, R> as Desk<System<D, Job>>>⟧.view desk.old)) actor lane 0 job.old }
    requires small { (⟦<Seated<'a, System<D, Job>, R> as Desk<System<D, Job>>>⟧.opening desk.old).value.places.reads ≤ 2 ^ 62 }
    ensures free { ⟦<Seated<'a, System<D, Job>, R> as Desk<System<D, Job>>>⟧.is_free desk.new }
    ensures worn { IfErr result (λ x. IsWorn x.count (⟦<Seated<'a, System<D, Job>, R> as Desk<System<D, Job>>>⟧.view desk.new)) }
    ensures turn { (⟦<Seated<'a, System<D, Job>, R> as Desk<System<D, Job>>>⟧.table desk.new ≡ ⟦<Seated<'a, System<D, Job>, R> as Desk<System<D, Job>>>⟧.table desk.old) × (⟦<Seated<'a, System<D, Job>, R> as Desk<System<D, Job>>>⟧.opening desk.new ≡ ⟦<Seated<'a, System<D, Job>, R> as Desk<System<D, Job>>>⟧.opening desk.old) }
    ensures did { Does (⟦<Seated<'a, System<D, Job>, R> as Desk<System<D, Job>>>⟧.view desk.old) (⟦<Seated<'a, System<D, Job>, R> as Desk<System<D, Job>>>⟧.view desk.new) (SpanSays D.seen (⟦<Seated<'a, System<D, Job>, R> as Desk<System<D, Job>>>⟧.opening desk.old) (⟦<Seated<'a, System<D, Job>, R> as Desk<System<D, Job>>>⟧.view desk.old) (⟦<Seated<'a, System<D, Job>, R> as Desk<System<D, Job>>>⟧.view desk.new) actor lane job.new result) }
    ensures same { IsSameButPages job.old job.new }
    ensures left { IfOk result (λ good. good ≡ false → Suits job.new (told_at (core_seen (core_of D.seen) (⟦<Seated<'a, System<D, Job>, R> as Desk<System<D, Job>>>⟧.opening desk.old) (⟦<Seated<'a, System<D, Job>, R> as Desk<System<D, Job>>>⟧.view desk.new)) lane)) }
{
    let rt = desk.runtime();
    let mut i = 0;
    for _ in rt.forever() {
        if i >= job.span() {
            return Ok(true);
        }
        let step = fill_step(desk, actor, lane, job, i)?;
        match step {
            FillStep::Next => i += 1,
            FillStep::Again => {}
            FillStep::Failed => return Ok(false),
            FillStep::Waits => desk.pause(),
        }
    }
    unreachable!()
}

/// The same by the only pass, with all dies at home. It never waits, since nobody else has a die out, and it ends.
pub fn fill_span_alone<D: Die>(
    alone: &mut Alone<System<D, Job>>,
    actor: Actor,
    lane: u32,
    job: &mut Job,
) -> Result<bool, Worn>
    requires free { IsFreeAlone opening_in alone.old }
    requires gathering { IsGathering (core_seen (core_of D.seen) (opening_alone opening_in alone.old) (view_alone alone.old)) actor lane 0 job.old }
    requires home { (die : ℕ) → ((core_seen (core_of D.seen) (opening_alone opening_in alone.old) (view_alone alone.old)).dies die).out ≡ None }
    requires small { (opening_alone opening_in alone.old).value.places.reads ≤ 2 ^ 62 }
    ensures free { IsFreeAlone opening_in alone.new }
    ensures worn { IfErr result (λ x. IsWorn x.count (view_alone alone.new)) }
    ensures turn { (table_alone alone.new ≡ table_alone alone.old) × (opening_alone opening_in alone.new ≡ opening_alone opening_in alone.old) }
    ensures did { Does (view_alone alone.old) (view_alone alone.new) (SpanSays D.seen (opening_alone opening_in alone.old) (view_alone alone.old) (view_alone alone.new) actor lane job.new result) }
    ensures same { IsSameButPages job.old job.new }
    ensures left { IfOk result (λ good. good ≡ false → Suits job.new (told_at (core_seen (core_of D.seen) (opening_alone opening_in alone.old) (view_alone alone.new)) lane)) }
    ensures home { IfOk result (λ _. (die : ℕ) → ((core_seen (core_of D.seen) (opening_alone opening_in alone.old) (view_alone alone.new)).dies die).out ≡ None) }
{
    let mut i = 0;
    loop {
        if i >= job.span() {
            return Ok(true);
        }
        let step = fill_step(alone, actor, lane, job, i)?;
        match step {
            FillStep::Next => i += 1,
            FillStep::Again => {}
            FillStep::Failed => return Ok(false),
            FillStep::Waits => unreachable!(),
        }
    }
}
