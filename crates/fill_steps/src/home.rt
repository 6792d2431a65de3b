//! A die reads a page for a call, and comes home.
ghost use Rattle.std.specs.Prelude.{◌≡◌, ℕ, ◌≤◌, ◌^◌, Bool, false, [], IfOk, IfErr};
ghost use Rattle.turn_cell.specs.Steps.{IsWorn};
ghost use Rattle.system_state.specs.Cores.{core_of};
ghost use Rattle.system_state.specs.Errands.{IsFresh};
ghost use Rattle.desk_turns.specs.Passing.{ActsFor, core_seen, Turn, Went};
ghost use Rattle.event_turns.specs.Flushing.{HasFailed};
ghost use Rattle.event_turns.specs.PageTurns.{IsFillInHand, IsFillRead};
ghost use Rattle.fill_steps.specs.Pages.{ComesHome, IsRead};

use core_state::Actor;
use event_turns::System;
use flash_die::Die;
use page_base::Page;
use system_pages::fill_in;
use system_state::{CallJob, Errand};
use turn_cell::{Desk, Worn};

/// A die that was used to read the page at place `i` of the span of a lane's call into `page` comes home: the page is put in at the side of a
/// call that shares its pages, and `page` is then any page; it is lent to a call that has them alone. At `Worn` nothing was done, and the die
/// is still out.
fn turn_home<D: Die, J: CallJob, K: Desk<System<D, J>>>(
    desk: &mut K,
    actor: Actor,
    lane: u32,
    i: u32,
    errand: Errand<D>,
    page: &mut Page,
) -> Result<(), Worn>
    requires free { K.is_free desk.old }
    requires acts { ActsFor (core_of D.seen) (K.opening desk.old) (K.view desk.old) actor }
    requires small { (K.opening desk.old).value.places.reads ≤ 2 ^ 62 }
    requires errand { (good : Bool) × IsFillRead D.seen (K.opening desk.old) (K.view desk.old).seen actor lane i good page.old errand }
    ensures free { K.is_free desk.new }
    ensures worn { IfErr result (λ x. IsWorn x.count (K.view desk.new)) }
    ensures turn { (K.table desk.new ≡ K.table desk.old) × (K.opening desk.new ≡ K.opening desk.old) }
    ensures went { IfErr result (λ _. Went (K.view desk.old) (K.view desk.new) []) }
    ensures did { IfOk result (λ _. Turn (core_of D.seen) (K.opening desk.old) (K.view desk.old) (K.view desk.new) (ComesHome actor lane i errand page.old page.new)) }
{
    let mut system = desk.take()?;
    fill_in(&mut system.state, actor, lane, i, errand, page);
    desk.give(system);
    Ok(())
}

/// The actor's die reads the page at place `i` of the span of a lane's call into `page`, without the turn, and comes home. False: it failed,
/// and its count of faults has risen. At `Worn` it is still out.
pub(crate) fn fill_home<D: Die, J: CallJob, K: Desk<System<D, J>>>(
    desk: &mut K,
    actor: Actor,
    lane: u32,
    i: u32,
    errand: Errand<D>,
    page: &mut Page,
) -> Result<bool, Worn>
    requires free { K.is_free desk.old }
    requires acts { ActsFor (core_of D.seen) (K.opening desk.old) (K.view desk.old) actor }
    requires small { (K.opening desk.old).value.places.reads ≤ 2 ^ 62 }
    requires errand { IsFresh D.seen errand × IsFillInHand D.seen (K.opening desk.old) (K.view desk.old).seen actor lane i errand }
    ensures free { K.is_free desk.new }
    ensures worn { IfErr result (λ x. IsWorn x.count (K.view desk.new)) }
    ensures turn { (K.table desk.new ≡ K.table desk.old) × (K.opening desk.new ≡ K.opening desk.old) }
    ensures went { IfErr result (λ _. Went (K.view desk.old) (K.view desk.new) []) }
    ensures did { IfOk result (λ good. Turn (core_of D.seen) (K.opening desk.old) (K.view desk.old) (K.view desk.new) (IsRead actor lane i errand.number page.new good)) }
    ensures failed { IfOk result (λ good. good ≡ false → HasFailed D.seen (K.opening desk.old) (K.view desk.old) (K.view desk.new) errand.number) }
{
    let mut errand = errand;
    let good = errand.read(page);
    turn_home(desk, actor, lane, i, errand, page)?;
    Ok(good)
}
