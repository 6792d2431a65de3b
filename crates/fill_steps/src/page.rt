//! One page of a call.
ghost use Rattle.std.specs.Prelude.{◌≡◌, ◌≤◌, ◌^◌, IfErr};
ghost use Rattle.turn_cell.specs.Steps.{IsWorn};
ghost use Rattle.core_state.specs.State.{Shared, Exclusive};
ghost use Rattle.system_state.specs.Cores.{core_of};
ghost use Rattle.desk_turns.specs.Passing.{ActsFor, core_seen, Does};
ghost use Rattle.fill_steps.specs.Pages.{IsAtPage, PageSays, put_in, lent};

use crate::home::fill_home;
use core_state::Actor;
use event_turns::{System, turn_copy, turn_take};
use flash_die::Die;
use page_base::Page;
use system_state::CallJob;
use turn_cell::{Desk, Worn};

/// What a step at a page of a call answers.
#[derive(Clone, Copy, Debug, PartialEq, Eq)]
pub enum FillStep {
    /// The call has the page, if it gathers it.
    Next,
    /// The page was read and put in at the call's side, and is still to be copied.
    Again,
    /// A die failed to read: its count of faults has risen, and the lane is marked.
    Failed,
    /// The page's die is out: others are to go on first.
    Waits,
}

fn put_in(good: bool) -> FillStep
    ensures { result ≡ put_in good }
{
    if good {
        FillStep::Again
    } else {
        FillStep::Failed
    }
}

fn lent(good: bool) -> FillStep
    ensures { result ≡ lent good }
{
    if good {
        FillStep::Next
    } else {
        FillStep::Failed
    }
}

/// Tries to copy the page at place `i` of the span of a call that shares its pages into `page`, or has it read and put in at the call's side.
pub(crate) fn copy_step<D: Die, J: CallJob, K: Desk<System<D, J>>>(
    desk: &mut K,
    actor: Actor,
    lane: u32,
    i: u32,
    page: &mut Page,
) -> Result<FillStep, Worn>
    requires free { K.is_free desk.old }
    requires acts { ActsFor (core_of D.seen) (K.opening desk.old) (K.view desk.old) actor }
    requires at { IsAtPage (core_seen (core_of D.seen) (K.opening desk.old) (K.view desk.old)) actor lane i Shared }
    requires small { (K.opening desk.old).value.places.reads ≤ 2 ^ 62 }
    ensures free { K.is_free desk.new }
    ensures worn { IfErr result (λ x. IsWorn x.count (K.view desk.new)) }
    ensures turn { (K.table desk.new ≡ K.table desk.old) × (K.opening desk.new ≡ K.opening desk.old) }
    ensures did { Does (K.view desk.old) (K.view desk.new) (PageSays D.seen (K.opening desk.old) (K.view desk.old) (K.view desk.new) actor lane i page.new result) }
{
    let answer = turn_copy(desk, actor, lane, i, page)?;
    match answer {
        Ok(None) => Ok(FillStep::Next),
        Ok(Some(errand)) => {
            let good = fill_home(desk, actor, lane, i, errand, page)?;
            Ok(put_in(good))
        }
        Err(_) => Ok(FillStep::Waits),
    }
}

/// Tries to take the page at place `i` of the span of a call that has its pages alone into `page`, or has it read and lent.
pub(crate) fn take_step<D: Die, J: CallJob, K: Desk<System<D, J>>>(
    desk: &mut K,
    actor: Actor,
    lane: u32,
    i: u32,
    page: &mut Page,
) -> Result<FillStep, Worn>
    requires free { K.is_free desk.old }
    requires acts { ActsFor (core_of D.seen) (K.opening desk.old) (K.view desk.old) actor }
    requires at { IsAtPage (core_seen (core_of D.seen) (K.opening desk.old) (K.view desk.old)) actor lane i Exclusive }
    requires small { (K.opening desk.old).value.places.reads ≤ 2 ^ 62 }
    ensures free { K.is_free desk.new }
    ensures worn { IfErr result (λ x. IsWorn x.count (K.view desk.new)) }
    ensures turn { (K.table desk.new ≡ K.table desk.old) × (K.opening desk.new ≡ K.opening desk.old) }
    ensures did { Does (K.view desk.old) (K.view desk.new) (PageSays D.seen (K.opening desk.old) (K.view desk.old) (K.view desk.new) actor lane i page.new result) }
{
    let answer = turn_take(desk, actor, lane, i, page)?;
    match answer {
        Ok(None) => Ok(FillStep::Next),
        Ok(Some(errand)) => {
            let good = fill_home(desk, actor, lane, i, errand, page)?;
            Ok(lent(good))
        }
        Err(_) => Ok(FillStep::Waits),
    }
}
