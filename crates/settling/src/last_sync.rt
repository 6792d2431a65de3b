//! The last sync, to its end or to the first failure.
ghost use Rattle.std.specs.Prelude.{◌≡◌, ◌≤◌, ◌^◌, ℕ, None, IfOk, IfErr};
ghost use Rattle.turn_cell.specs.Desks.{IsFreeAlone, view_alone, opening_alone, table_alone};
ghost use Rattle.turn_cell.specs.Steps.{IsWorn};
ghost use Rattle.core_state.specs.declared.actor.Actor.TheVariants.{Closer};
ghost use Rattle.system_state.specs.Cores.{core_of};
ghost use Rattle.desk_turns.specs.Passing.{ActsFor, core_seen, Does};
ghost use Rattle.page_steps.specs.Books.{opening_in};
ghost use Rattle.core_closing.specs.Kept.{MaySettle};
ghost use Rattle.settling.specs.Settle.{SettleSays};

use crate::step::{SettleStep, settle_step};
use flash_die::Die;
use page_base::Page;
use page_steps::System;
use std::sync::Wait;
use system_state::CallJob;
use turn_cell::{Alone, Desk, Seated, Worn};

/// How the last sync of a run ended.
#[derive(Clone, Copy, Debug, PartialEq, Eq)]
pub enum Settled {
    /// None was asked for.
    NotAsked,
    /// All is stored.
    Done,
    /// A write failed: a die's count of faults has risen.
    Failed,
}

/// Makes the last sync, by way of `page`: flushes blocks until none is unclean, and then writes the pages of the meta data, to the first
/// failure. Every lane has left, no call is in flight, and the closer holds no die. It waits where the die of the next write is out.
pub fn settle<'a, D: Die, J: CallJob, R: Wait>(
    desk: &mut Seated<'a, System<D, J>, R>,
    page: &mut Page,
) -> Result<Settled, Worn>
    requires free { ⟦<Seated<'a, System<D, J>, R> as Desk<System<D, J>>>⟧.is_free desk.old }
    requires acts { ActsFor (core_of D.seen) (⟦<Seated<'a, System<D, J>, R> as Desk<System<D, J>>>⟧.opening desk.old) (⟦<Seated<'a, System<D, J>, R> as Desk<System<D, J>>>⟧.view desk.old) Closer }
    requires may { MaySettle (core_seen (core_of D.seen) (⟦<Seated<'a, System<D, J>, R> as Desk<System<D, J>>>⟧.opening desk.old) (⟦<Seated<'a, System<D, J>, R> as Desk<System<D, J>>>⟧.view desk.old)) }
    requires small { (⟦<Seated<'a, System<D, J>, R> as Desk<System<D, J>>>⟧.opening desk.old).value.places.writes ≤ 2 ^ 62 }
    ensures free { ⟦<Seated<'a, System<D, J>, R> as Desk<System<D, J>>>⟧.is_free desk.new }
    ensures worn { IfErr result (λ x. IsWorn x.count (⟦<Seated<'a, System<D, J>, R> as Desk<System<D, J>>>⟧.view desk.new)) }
    ensures turn { (⟦<Seated<'a, System<D, J>, R> as Desk<System<D, J>>>⟧.table desk.new ≡ ⟦<Seated<'a, System<D, J>, R> as Desk<System<D, J>>>⟧.table desk.old) × (⟦<Seated<'a, System<D, J>, R> as Desk<System<D, J>>>⟧.opening desk.new ≡ ⟦<Seated<'a, System<D, J>, R> as Desk<System<D, J>>>⟧.opening desk.old) }
    ensures did { Does (⟦<Seated<'a, System<D, J>, R> as Desk<System<D, J>>>⟧.view desk.old) (⟦<Seated<'a, System<D, J>, R> as Desk<System<D, J>>>⟧.view desk.new) (SettleSays D.seen (⟦<Seated<'a, System<D, J>, R> as Desk<System<D, J>>>⟧.opening desk.old) (⟦<Seated<'a, System<D, J>, R> as Desk<System<D, J>>>⟧.view desk.old) (⟦<Seated<'a, System<D, J>, R> as Desk<System<D, J>>>⟧.view desk.new) result) }
{
    let rt = desk.runtime();
    for _ in rt.forever() {
        let step = settle_step(desk, page)?;
        match step {
            SettleStep::On => {}
            SettleStep::Done => return Ok(Settled::Done),
            SettleStep::Failed => return Ok(Settled::Failed),
            SettleStep::Waits => desk.pause(),
        }
    }
    unreachable!()
}

/// The same by the only pass, with all dies at home. It never waits, since nobody else has a die out, and it ends.
pub fn settle_alone<D: Die, J: CallJob>(
    alone: &mut Alone<System<D, J>>,
    page: &mut Page,
) -> Result<Settled, Worn>
    requires free { IsFreeAlone opening_in alone.old }
    requires may { MaySettle (core_seen (core_of D.seen) (opening_alone opening_in alone.old) (view_alone alone.old)) }
    requires home { (die : ℕ) → ((core_seen (core_of D.seen) (opening_alone opening_in alone.old) (view_alone alone.old)).dies die).out ≡ None }
    requires small { (opening_alone opening_in alone.old).value.places.writes ≤ 2 ^ 62 }
    ensures free { IsFreeAlone opening_in alone.new }
    ensures worn { IfErr result (λ x. IsWorn x.count (view_alone alone.new)) }
    ensures turn { (table_alone alone.new ≡ table_alone alone.old) × (opening_alone opening_in alone.new ≡ opening_alone opening_in alone.old) }
    ensures did { Does (view_alone alone.old) (view_alone alone.new) (SettleSays D.seen (opening_alone opening_in alone.old) (view_alone alone.old) (view_alone alone.new) result) }
    ensures home { IfOk result (λ _. (die : ℕ) → ((core_seen (core_of D.seen) (opening_alone opening_in alone.old) (view_alone alone.new)).dies die).out ≡ None) }
{
    loop {
        let step = settle_step(alone, page)?;
        match step {
            SettleStep::On => {}
            SettleStep::Done => return Ok(Settled::Done),
            SettleStep::Failed => return Ok(Settled::Failed),
            SettleStep::Waits => unreachable!(),
        }
    }
}
