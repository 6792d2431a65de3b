//! Turns that gather a page of a call, and that bring a die home from a read.
ghost use Rattle.std.specs.Prelude.{◌≡◌, ℕ, ◌≤◌, ◌^◌, [], Bool, Some, Ok, IfOk, IfErr};
ghost use Rattle.turn_cell.specs.Steps.{IsWorn};
ghost use Rattle.core_state.specs.State.{Shared, Exclusive};
ghost use Rattle.system_state.specs.Cores.{core_of};
ghost use Rattle.system_state.specs.Errands.{IsFresh};
ghost use Rattle.system_state.specs.declared.errand.Errand.{Errand};
ghost use Rattle.system_pages.specs.Events.{copy_event, take_event};
ghost use Rattle.desk_turns.specs.Passing.{ActsFor, core_seen, Turn, Went};
ghost use Rattle.event_turns.specs.Words.{StillHolds};
ghost use Rattle.event_turns.specs.PageTurns.{MayGather, GatherSays, FillSays, IsFillInHand, IsFillRead};

use core_state::Actor;
use flash_die::Die;
use flushes::System;
use page_base::Page;
use system_pages::{fill_in, try_copy, try_take};
use system_state::{CallJob, Errand, NotYet};
use turn_cell::{Desk, Worn};

/// A call that shares its pages gathers the page at place `i` of its span, from 0. `None`: `into` is a copy of it. `Some`: its die goes out to
/// read it. `NotYet`: its die is out. At `Worn` nothing was done, and the actor holds what it held.
pub fn turn_copy<D: Die, J: CallJob, K: Desk<System<D, J>>>(
    desk: &mut K,
    actor: Actor,
    lane: u32,
    i: u32,
    into: &mut Page,
) -> Result<Result<Option<Errand<D>>, NotYet>, Worn>
    requires free { K.is_free desk.old }
    requires acts { ActsFor (core_of D.seen) (K.opening desk.old) (K.view desk.old) actor }
    requires may { MayGather (core_seen (core_of D.seen) (K.opening desk.old) (K.view desk.old)) actor lane i Shared }
    ensures free { K.is_free desk.new }
    ensures worn { IfErr result (λ x. IsWorn x.count (K.view desk.new)) }
    ensures turn { (K.table desk.new ≡ K.table desk.old) × (K.opening desk.new ≡ K.opening desk.old) }
    ensures went { IfErr result (λ _. Went (K.view desk.old) (K.view desk.new) []) }
    ensures kept { IfErr result (λ _. StillHolds (core_of D.seen) (K.opening desk.old) (K.view desk.old) (K.view desk.new) actor) }
    ensures did { IfOk result (λ x. Turn (core_of D.seen) (K.opening desk.old) (K.view desk.old) (K.view desk.new) (GatherSays (copy_event actor lane i) lane i into.old into.new x)) }
    ensures out { (e : Errand D) → result ≡ Ok (Ok (Some e)) → IsFresh D.seen e × IsFillInHand D.seen (K.opening desk.old) (K.view desk.new).seen actor lane i e }
{
    let mut system = desk.take()?;
    let answer = try_copy(&mut system.state, actor, lane, i, into);
    desk.give(system);
    Ok(answer)
}

/// A call that has its pages alone gathers the page at place `i` of its span, from 0. `None`: `page` is it. `Some`: its die goes out to read it.
/// `NotYet`: its die is out. At `Worn` nothing was done, and the actor holds what it held.
pub fn turn_take<D: Die, J: CallJob, K: Desk<System<D, J>>>(
    desk: &mut K,
    actor: Actor,
    lane: u32,
    i: u32,
    page: &mut Page,
) -> Result<Result<Option<Errand<D>>, NotYet>, Worn>
    requires free { K.is_free desk.old }
    requires acts { ActsFor (core_of D.seen) (K.opening desk.old) (K.view desk.old) actor }
    requires may { MayGather (core_seen (core_of D.seen) (K.opening desk.old) (K.view desk.old)) actor lane i Exclusive }
    ensures free { K.is_free desk.new }
    ensures worn { IfErr result (λ x. IsWorn x.count (K.view desk.new)) }
    ensures turn { (K.table desk.new ≡ K.table desk.old) × (K.opening desk.new ≡ K.opening desk.old) }
    ensures went { IfErr result (λ _. Went (K.view desk.old) (K.view desk.new) []) }
    ensures kept { IfErr result (λ _. StillHolds (core_of D.seen) (K.opening desk.old) (K.view desk.old) (K.view desk.new) actor) }
    ensures did { IfOk result (λ x. Turn (core_of D.seen) (K.opening desk.old) (K.view desk.old) (K.view desk.new) (GatherSays (take_event actor lane i) lane i page.old page.new x)) }
    ensures out { (e : Errand D) → result ≡ Ok (Ok (Some e)) → IsFresh D.seen e × IsFillInHand D.seen (K.opening desk.old) (K.view desk.new).seen actor lane i e }
{
    let mut system = desk.take()?;
    let answer = try_take(&mut system.state, actor, lane, i, page);
    desk.give(system);
    Ok(answer)
}

/// A die that was used to read the page at place `i` of the span of a lane's call into `page` comes home: the page is put in at the side of a
/// call that shares its pages, and `page` is then any page; it is lent to a call that has them alone. At `Worn` nothing was done, and the die
/// is still out.
pub fn turn_fill_in<D: Die, J: CallJob, K: Desk<System<D, J>>>(
    desk: &mut K,
    actor: Actor,
    lane: u32,
    i: u32,
    errand: Errand<D>,
    page: &mut Page,
) -> Result<(), Worn>
    requires free { K.is_free desk.old }
    requires acts { ActsFor (core_of D.seen) (K.opening desk.old) (K.view desk.old) actor }
    requires small { (K.opening desk.old).value.places.reads ≤ 2 ^ 62 }
    requires errand { (good : Bool) × IsFillRead D.seen (K.opening desk.old) (K.view desk.old).seen actor lane i good page.old errand }
    ensures free { K.is_free desk.new }
    ensures worn { IfErr result (λ x. IsWorn x.count (K.view desk.new)) }
    ensures turn { (K.table desk.new ≡ K.table desk.old) × (K.opening desk.new ≡ K.opening desk.old) }
    ensures went { IfErr result (λ _. Went (K.view desk.old) (K.view desk.new) []) }
    ensures kept { IfErr result (λ _. StillHolds (core_of D.seen) (K.opening desk.old) (K.view desk.old) (K.view desk.new) actor) }
    ensures did { IfOk result (λ _. Turn (core_of D.seen) (K.opening desk.old) (K.view desk.old) (K.view desk.new) (FillSays actor lane errand page.old page.new)) }
{
    let mut system = desk.take()?;
    fill_in(&mut system.state, actor, lane, i, errand, page);
    desk.give(system);
    Ok(())
}
