//! A `sync`.
ghost use Rattle.std.specs.Prelude.{◌≡◌, true, Ok, IfErr};
ghost use Rattle.turn_cell.specs.Desks.{IsFreeAlone, view_alone, opening_alone, table_alone};
ghost use Rattle.turn_cell.specs.Events.{events_of};
ghost use Rattle.turn_cell.specs.Steps.{IsWorn};
ghost use Rattle.plain_files.specs.declared.calls.Numbered.{Numbered};
ghost use Rattle.core_state.specs.declared.actor.Actor.TheVariants.{Lane};
ghost use Rattle.core_state.specs.History.{calls_of};
ghost use Rattle.core_state.specs.Reach.{is_sync};
ghost use Rattle.core_solo.specs.Alone.{IsAlone};
ghost use Rattle.system_state.specs.Cores.{core_of};
ghost use Rattle.desk_turns.specs.Passing.{ActsFor, core_seen, Does};
ghost use Rattle.quick_calls.specs.Books.{opening_in};
ghost use Rattle.quick_calls.specs.Words.{IsNumbered, IsSmall};
ghost use Rattle.quick_calls.specs.Making.{IsFree};
ghost use Rattle.sync_calls.specs.Sync.{SyncCallSays};

use crate::pages::turn_pages;
use crate::stages::{Stage, SyncStep};
use crate::step::sync_step;
use flash_die::Die;
use page_base::Page;
use plain_files::{Numbered, Request};
use quick_calls::System;
use std::sync::Wait;
use system_state::CallJob;
use turn_cell::{Alone, Desk, Seated, Worn};

/// Makes a `sync` of a lane that is free, by way of `page`: flushes blocks until none is unclean, then writes the pages of the meta data, to
/// the first failure, and replies. `pages` are any, and none of them is used. It waits for the call that it awaits, and where the die of the
/// next write is out. At `Worn` none of its events has ended a call, and its own may be in flight.
pub fn sync_call<'a, D: Die, J: CallJob, R: Wait>(
    desk: &mut Seated<'a, System<D, J>, R>,
    lane: u32,
    request: &Request,
    page: &mut Page,
    pages: &mut Vec<Page>,
) -> Result<Numbered, Worn>
    requires free { ⟦<Seated<'a, System<D, J>, R> as Desk<System<D, J>>>⟧.is_free desk.old }
    requires acts { ActsFor (core_of D.seen) (⟦<Seated<'a, System<D, J>, R> as Desk<System<D, J>>>⟧.opening desk.old) (⟦<Seated<'a, System<D, J>, R> as Desk<System<D, J>>>⟧.view desk.old) (Lane lane) }
    requires lane { IsFree (core_seen (core_of D.seen) (⟦<Seated<'a, System<D, J>, R> as Desk<System<D, J>>>⟧.opening desk.old) (⟦<Seated<'a, System<D, J>, R> as Desk<System<D, J>>>⟧.view desk.old)) lane }
    requires kind { is_sync request.now.call ≡ true }
    requires small { IsSmall (⟦<Seated<'a, System<D, J>, R> as Desk<System<D, J>>>⟧.opening desk.old).value }
    ensures free { ⟦<Seated<'a, System<D, J>, R> as Desk<System<D, J>>>⟧.is_free desk.new }
    ensures worn { IfErr result (λ x. IsWorn x.count (⟦<Seated<'a, System<D, J>, R> as Desk<System<D, J>>>⟧.view desk.new)) }
    ensures turn { (⟦<Seated<'a, System<D, J>, R> as Desk<System<D, J>>>⟧.table desk.new ≡ ⟦<Seated<'a, System<D, J>, R> as Desk<System<D, J>>>⟧.table desk.old) × (⟦<Seated<'a, System<D, J>, R> as Desk<System<D, J>>>⟧.opening desk.new ≡ ⟦<Seated<'a, System<D, J>, R> as Desk<System<D, J>>>⟧.opening desk.old) }
    ensures did { Does (⟦<Seated<'a, System<D, J>, R> as Desk<System<D, J>>>⟧.view desk.old) (⟦<Seated<'a, System<D, J>, R> as Desk<System<D, J>>>⟧.view desk.new) (SyncCallSays D.seen (⟦<Seated<'a, System<D, J>, R> as Desk<System<D, J>>>⟧.opening desk.old) (⟦<Seated<'a, System<D, J>, R> as Desk<System<D, J>>>⟧.view desk.old) (⟦<Seated<'a, System<D, J>, R> as Desk<System<D, J>>>⟧.view desk.new) lane request.now result) }
    ensures numbered { (n : Numbered) → result ≡ Ok n → IsNumbered (⟦<Seated<'a, System<D, J>, R> as Desk<System<D, J>>>⟧.opening desk.old).value.last (calls_of (events_of (⟦<Seated<'a, System<D, J>, R> as Desk<System<D, J>>>⟧.view desk.new).seen)) n.number (record { lane = lane; call = request.now.call; reply = n.reply }) }
{
    let rt = desk.runtime();
    let count = turn_pages(desk)?;
    let mut stage = Stage::Idle;
    for _ in rt.forever() {
        let step = sync_step(desk, lane, request, count, stage, page, pages)?;
        match step {
            SyncStep::On { stage: next } => stage = next,
            SyncStep::Replied { numbered } => return Ok(numbered),
            SyncStep::Waits => desk.pause(),
        }
    }
    unreachable!()
}

/// The same by the only pass, where the lane's call is alone. It never waits, since nobody else has a die out, and it ends.
pub fn sync_call_alone<D: Die, J: CallJob>(
    alone: &mut Alone<System<D, J>>,
    lane: u32,
    request: &Request,
    page: &mut Page,
    pages: &mut Vec<Page>,
) -> Result<Numbered, Worn>
    requires free { IsFreeAlone opening_in alone.old }
    requires lane { IsFree (core_seen (core_of D.seen) (opening_alone opening_in alone.old) (view_alone alone.old)) lane }
    requires alone { IsAlone (core_seen (core_of D.seen) (opening_alone opening_in alone.old) (view_alone alone.old)) lane request.now }
    requires kind { is_sync request.now.call ≡ true }
    requires small { IsSmall (opening_alone opening_in alone.old).value }
    ensures free { IsFreeAlone opening_in alone.new }
    ensures worn { IfErr result (λ x. IsWorn x.count (view_alone alone.new)) }
    ensures turn { (table_alone alone.new ≡ table_alone alone.old) × (opening_alone opening_in alone.new ≡ opening_alone opening_in alone.old) }
    ensures did { Does (view_alone alone.old) (view_alone alone.new) (SyncCallSays D.seen (opening_alone opening_in alone.old) (view_alone alone.old) (view_alone alone.new) lane request.now result) }
    ensures numbered { (n : Numbered) → result ≡ Ok n → IsNumbered (opening_alone opening_in alone.old).value.last (calls_of (events_of (view_alone alone.new).seen)) n.number (record { lane = lane; call = request.now.call; reply = n.reply }) }
{
    let count = turn_pages(alone)?;
    let mut stage = Stage::Idle;
    loop {
        let step = sync_step(alone, lane, request, count, stage, page, pages)?;
        match step {
            SyncStep::On { stage: next } => stage = next,
            SyncStep::Replied { numbered } => return Ok(numbered),
            SyncStep::Waits => unreachable!(),
        }
    }
}
