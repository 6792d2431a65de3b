//! One step of a call that gathers its pages.
ghost use Rattle.std.specs.Prelude.{◌≡◌, ◌<◌, ◌≤◌, ◌^◌, true, false, IfOk, IfErr};
ghost use Rattle.turn_cell.specs.Steps.{IsWorn};
ghost use Rattle.core_state.specs.Reach.{is_exclusive};
ghost use Rattle.system_state.specs.Cores.{core_of, reach_of};
ghost use Rattle.desk_turns.specs.Passing.{ActsFor, core_seen, Does};
ghost use Rattle.call_job.specs.Suits.{Suits};
ghost use Rattle.fill_steps.specs.Gathering.{told_at, IsGathering};
ghost use Rattle.fill_steps.specs.Spans.{StepSays, IsSameButPages};
ghost use Rattle.fill_steps.specs.declared.page.FillStep.TheVariants.{Failed};

use crate::page::{FillStep, copy_step, take_step};
use call_job::Job;
use core_state::Actor;
use event_turns::System;
use flash_die::Die;
use turn_cell::{Desk, Worn};

/// A page of a call that shares its pages: it gathers all.
fn copy_into<D: Die, K: Desk<System<D, Job>>>(
    desk: &mut K,
    actor: Actor,
    lane: u32,
    job: &mut Job,
    i: u32,
) -> Result<FillStep, Worn>
    requires free { K.is_free desk.old }
    requires acts { ActsFor (core_of D.seen) (K.opening desk.old) (K.view desk.old) actor }
    requires gathering { IsGathering (core_seen (core_of D.seen) (K.opening desk.old) (K.view desk.old)) actor lane i job.old }
    requires within { i < job.old.reach.pages }
    requires mode { is_exclusive (reach_of job.old.reach).mode ≡ false }
    requires small { (K.opening desk.old).value.places.reads ≤ 2 ^ 62 }
    ensures free { K.is_free desk.new }
    ensures worn { IfErr result (λ x. IsWorn x.count (K.view desk.new)) }
    ensures turn { (K.table desk.new ≡ K.table desk.old) × (K.opening desk.new ≡ K.opening desk.old) }
    ensures did { Does (K.view desk.old) (K.view desk.new) (StepSays D.seen (K.opening desk.old) (K.view desk.old) (K.view desk.new) actor lane i job.new result) }
    ensures same { IsSameButPages job.old job.new }
    ensures left { IfOk result (λ step. step ≡ Failed → Suits job.new (told_at (core_seen (core_of D.seen) (K.opening desk.old) (K.view desk.new)) lane)) }
{
    let page = job.page_mut(i);
    copy_step(desk, actor, lane, i, page)
}

/// A page of a call that has its pages alone, unless the call covers it as a whole.
fn take_into<D: Die, K: Desk<System<D, Job>>>(
    desk: &mut K,
    actor: Actor,
    lane: u32,
    job: &mut Job,
    i: u32,
) -> Result<FillStep, Worn>
    requires free { K.is_free desk.old }
    requires acts { ActsFor (core_of D.seen) (K.opening desk.old) (K.view desk.old) actor }
    requires gathering { IsGathering (core_seen (core_of D.seen) (K.opening desk.old) (K.view desk.old)) actor lane i job.old }
    requires within { i < job.old.reach.pages }
    requires mode { is_exclusive (reach_of job.old.reach).mode ≡ true }
    requires small { (K.opening desk.old).value.places.reads ≤ 2 ^ 62 }
    ensures free { K.is_free desk.new }
    ensures worn { IfErr result (λ x. IsWorn x.count (K.view desk.new)) }
    ensures turn { (K.table desk.new ≡ K.table desk.old) × (K.opening desk.new ≡ K.opening desk.old) }
    ensures did { Does (K.view desk.old) (K.view desk.new) (StepSays D.seen (K.opening desk.old) (K.view desk.old) (K.view desk.new) actor lane i job.new result) }
    ensures same { IsSameButPages job.old job.new }
    ensures left { IfOk result (λ step. step ≡ Failed → Suits job.new (told_at (core_seen (core_of D.seen) (K.opening desk.old) (K.view desk.new)) lane)) }
{
    if !job.gathers(i) {
        return Ok(FillStep::Next);
    }
    let page = job.page_mut(i);
    take_step(desk, actor, lane, i, page)
}

/// Tries to gather the page at place `i` of the span of a lane's call into its job, where all before it are gathered. One that the call doesn't
/// gather is passed over.
pub fn fill_step<D: Die, K: Desk<System<D, Job>>>(
    desk: &mut K,
    actor: Actor,
    lane: u32,
    job: &mut Job,
    i: u32,
) -> Result<FillStep, Worn>
    requires free { K.is_free desk.old }
    requires acts { ActsFor (core_of D.seen) (K.opening desk.old) (K.view desk.old) actor }
    requires gathering { IsGathering (core_seen (core_of D.seen) (K.opening desk.old) (K.view desk.old)) actor lane i job.old }
    requires within { i < job.old.reach.pages }
    requires small { (K.opening desk.old).value.places.reads ≤ 2 ^ 62 }
    ensures free { K.is_free desk.new }
    ensures worn { IfErr result (λ x. IsWorn x.count (K.view desk.new)) }
    ensures turn { (K.table desk.new ≡ K.table desk.old) × (K.opening desk.new ≡ K.opening desk.old) }
    ensures did { Does (K.view desk.old) (K.view desk.new) (StepSays D.seen (K.opening desk.old) (K.view desk.old) (K.view desk.new) actor lane i job.new result) }
    ensures same { IsSameButPages job.old job.new }
    ensures left { IfOk result (λ step. step ≡ Failed → Suits job.new (told_at (core_seen (core_of D.seen) (K.opening desk.old) (K.view desk.new)) lane)) }
{
    if job.exclusive() {
        take_into(desk, actor, lane, job, i)
    } else {
        copy_into(desk, actor, lane, job, i)
    }
}
