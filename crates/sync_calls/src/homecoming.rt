//! A die writes for a `sync`, and comes home.
ghost use Rattle.std.specs.Prelude.{◌≡◌, ℕ, ◌+◌, ◌≤◌, ◌^◌, false, [], IfOk, IfErr};
ghost use Rattle.turn_cell.specs.Steps.{IsWorn};
ghost use Rattle.core_state.specs.declared.actor.Actor.TheVariants.{Lane};
ghost use Rattle.core_state.specs.State.{ToFlush, ToMeta};
ghost use Rattle.system_state.specs.Cores.{core_of};
ghost use Rattle.system_state.specs.Errands.{IsFresh};
ghost use Rattle.desk_turns.specs.Passing.{ActsFor, IsItsOwn, core_seen, Turn, Went};
ghost use Rattle.quick_calls.specs.Flushing.{IsInHand, HasFailed};
ghost use Rattle.sync_calls.specs.Writes.{BlockBack, PageBack};

use core_state::Actor;
use flash_die::Die;
use page_base::Page;
use quick_calls::{System, turn_flush_in, turn_meta_in};
use system_state::{CallJob, Errand};
use turn_cell::{Desk, Worn};

/// The lane's die writes the page of a block, without the turn, and comes home. False: it failed. At `Worn` it is still out.
pub(crate) fn block_home<D: Die, J: CallJob, K: Desk<System<D, J>>>(
    desk: &mut K,
    lane: u32,
    errand: Errand<D>,
    page: &Page,
) -> Result<bool, Worn>
    requires free { K.is_free desk.old }
    requires acts { ActsFor (core_of D.seen) (K.opening desk.old) (K.view desk.old) (Lane lane) }
    requires own { IsItsOwn (core_seen (core_of D.seen) (K.opening desk.old) (K.view desk.old)) (Lane lane) }
    requires small { (K.opening desk.old).value.places.writes ≤ 2 ^ 62 }
    requires errand { IsFresh D.seen errand × ((version : ℕ) × IsInHand D.seen (K.opening desk.old) (K.view desk.old).seen (Lane lane) (ToFlush errand.subject version page.now) ((K.opening desk.old).value.sizes.meta + errand.subject) errand) }
    ensures free { K.is_free desk.new }
    ensures worn { IfErr result (λ x. IsWorn x.count (K.view desk.new)) }
    ensures turn { (K.table desk.new ≡ K.table desk.old) × (K.opening desk.new ≡ K.opening desk.old) }
    ensures went { IfErr result (λ _. Went (K.view desk.old) (K.view desk.new) []) }
    ensures did { IfOk result (λ good. Turn (core_of D.seen) (K.opening desk.old) (K.view desk.old) (K.view desk.new) (BlockBack lane errand good)) }
    ensures failed { IfOk result (λ good. good ≡ false → HasFailed D.seen (K.opening desk.old) (K.view desk.old) (K.view desk.new) errand.number) }
{
    let mut errand = errand;
    let good = errand.write(page);
    turn_flush_in(desk, Actor::Lane(lane), errand)?;
    Ok(good)
}

/// The same with a page of the meta data.
pub(crate) fn page_home<D: Die, J: CallJob, K: Desk<System<D, J>>>(
    desk: &mut K,
    lane: u32,
    errand: Errand<D>,
    page: &Page,
) -> Result<bool, Worn>
    requires free { K.is_free desk.old }
    requires acts { ActsFor (core_of D.seen) (K.opening desk.old) (K.view desk.old) (Lane lane) }
    requires own { IsItsOwn (core_seen (core_of D.seen) (K.opening desk.old) (K.view desk.old)) (Lane lane) }
    requires small { (K.opening desk.old).value.places.writes ≤ 2 ^ 62 }
    requires errand { IsFresh D.seen errand × IsInHand D.seen (K.opening desk.old) (K.view desk.old).seen (Lane lane) (ToMeta errand.subject page.now) errand.subject errand }
    ensures free { K.is_free desk.new }
    ensures worn { IfErr result (λ x. IsWorn x.count (K.view desk.new)) }
    ensures turn { (K.table desk.new ≡ K.table desk.old) × (K.opening desk.new ≡ K.opening desk.old) }
    ensures went { IfErr result (λ _. Went (K.view desk.old) (K.view desk.new) []) }
    ensures did { IfOk result (λ good. Turn (core_of D.seen) (K.opening desk.old) (K.view desk.old) (K.view desk.new) (PageBack lane errand good)) }
    ensures failed { IfOk result (λ good. good ≡ false → HasFailed D.seen (K.opening desk.old) (K.view desk.old) (K.view desk.new) errand.number) }
{
    let mut errand = errand;
    let good = errand.write(page);
    turn_meta_in(desk, Actor::Lane(lane), errand)?;
    Ok(good)
}
