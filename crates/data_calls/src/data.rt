//! Data calls without a function: memory for a call, its beginning and its end.
ghost use Rattle.std.specs.Prelude.{◌≡◌, ℕ, None, true, false, Ok, IfErr};
ghost use Rattle.turn_cell.specs.Desks.{IsFreeAlone, view_alone, opening_alone, table_alone};
ghost use Rattle.turn_cell.specs.Events.{events_of};
ghost use Rattle.turn_cell.specs.Steps.{IsWorn};
ghost use Rattle.plain_files.specs.declared.calls.Numbered.{Numbered};
ghost use Rattle.core_state.specs.declared.actor.Actor.TheVariants.{Lane};
ghost use Rattle.core_state.specs.Reach.{is_data, is_lambda};
ghost use Rattle.core_state.specs.History.{calls_of};
ghost use Rattle.core_solo.specs.Alone.{HasFrames, IsAlone};
ghost use Rattle.system_state.specs.Cores.{core_of};
ghost use Rattle.call_job.specs.Prepares.{IsPrepared};
ghost use Rattle.desk_turns.specs.Passing.{ActsFor, core_seen, Does};
ghost use Rattle.call_starts.specs.Books.{opening_in};
ghost use Rattle.call_starts.specs.Words.{IsNumbered, IsSmall};
ghost use Rattle.call_starts.specs.Making.{IsFree};
ghost use Rattle.data_calls.specs.Answers.{PreparedSays, DataSays};

use call_job::{Job, Prepared};
use call_starts::{Beginning, System, begin_call, begin_call_alone, skip_call, skip_call_alone};
use flash_die::Die;
use lambda_finishes::{finish_call, finish_call_alone};
use page_base::Page;
use plain_files::{Numbered, Request};
use std::alloc::Global;
use std::sync::Wait;
use turn_cell::{Alone, Desk, Seated, Worn};

/// A call for which memory was found: it begins, or is refused, and goes on to its end.
fn prepared_call<'a, D: Die, R: Wait>(
    desk: &mut Seated<'a, System<D, Job>, R>,
    lane: u32,
    prepared: &mut Prepared,
    page: &mut Page,
) -> Result<Numbered, Worn>
    requires free { ⟦<Seated<'a, System<D, Job>, R> as Desk<System<D, Job>>>⟧.is_free desk.old }
    requires acts { ActsFor (core_of D.seen) (⟦<Seated<'a, System<D, Job>, R> as Desk<System<D, Job>>>⟧.opening desk.old) (⟦<Seated<'a, System<D, Job>, R> as Desk<System<D, Job>>>⟧.view desk.old) (Lane lane) }
    requires lane { IsFree (core_seen (core_of D.seen) (⟦<Seated<'a, System<D, Job>, R> as Desk<System<D, Job>>>⟧.opening desk.old) (⟦<Seated<'a, System<D, Job>, R> as Desk<System<D, Job>>>⟧.view desk.old)) lane }
    requires prepared { IsPrepared prepared.old.job.request prepared.old.job }
    requires data { is_data prepared.old.job.request.call ≡ true }
    requires plain { is_lambda prepared.old.job.request.call ≡ false }
    requires small { IsSmall (⟦<Seated<'a, System<D, Job>, R> as Desk<System<D, Job>>>⟧.opening desk.old).value }
    ensures free { ⟦<Seated<'a, System<D, Job>, R> as Desk<System<D, Job>>>⟧.is_free desk.new }
    ensures worn { IfErr result (λ x. IsWorn x.count (⟦<Seated<'a, System<D, Job>, R> as Desk<System<D, Job>>>⟧.view desk.new)) }
    ensures turn { (⟦<Seated<'a, System<D, Job>, R> as Desk<System<D, Job>>>⟧.table desk.new ≡ ⟦<Seated<'a, System<D, Job>, R> as Desk<System<D, Job>>>⟧.table desk.old) × (⟦<Seated<'a, System<D, Job>, R> as Desk<System<D, Job>>>⟧.opening desk.new ≡ ⟦<Seated<'a, System<D, Job>, R> as Desk<System<D, Job>>>⟧.opening desk.old) }
    ensures did { Does (⟦<Seated<'a, System<D, Job>, R> as Desk<System<D, Job>>>⟧.view desk.old) (⟦<Seated<'a, System<D, Job>, R> as Desk<System<D, Job>>>⟧.view desk.new) (PreparedSays D.seen (⟦<Seated<'a, System<D, Job>, R> as Desk<System<D, Job>>>⟧.opening desk.old) (⟦<Seated<'a, System<D, Job>, R> as Desk<System<D, Job>>>⟧.view desk.old) (⟦<Seated<'a, System<D, Job>, R> as Desk<System<D, Job>>>⟧.view desk.new) lane prepared.old.job.request result) }
    ensures numbered { (n : Numbered) → result ≡ Ok n → IsNumbered (⟦<Seated<'a, System<D, Job>, R> as Desk<System<D, Job>>>⟧.opening desk.old).value.last (calls_of (events_of (⟦<Seated<'a, System<D, Job>, R> as Desk<System<D, Job>>>⟧.view desk.new).seen)) n.number (record { lane = lane; call = prepared.old.job.request.call; reply = n.reply }) }
{
    let beginning = begin_call(desk, lane, prepared, page)?;
    match beginning {
        Beginning::Ended(numbered) => Ok(numbered),
        Beginning::Started(_) => finish_call(desk, lane, &mut prepared.job),
    }
}

/// Answers a data call without a function, by way of `page`. Where memory for it runs out before it begins, it is skipped with `nomemory`.
pub(crate) fn data_call<'a, D: Die, R: Wait>(
    alloc: Global,
    desk: &mut Seated<'a, System<D, Job>, R>,
    lane: u32,
    request: &Request,
    page: &mut Page,
) -> Result<Numbered, Worn>
    requires free { ⟦<Seated<'a, System<D, Job>, R> as Desk<System<D, Job>>>⟧.is_free desk.old }
    requires acts { ActsFor (core_of D.seen) (⟦<Seated<'a, System<D, Job>, R> as Desk<System<D, Job>>>⟧.opening desk.old) (⟦<Seated<'a, System<D, Job>, R> as Desk<System<D, Job>>>⟧.view desk.old) (Lane lane) }
    requires lane { IsFree (core_seen (core_of D.seen) (⟦<Seated<'a, System<D, Job>, R> as Desk<System<D, Job>>>⟧.opening desk.old) (⟦<Seated<'a, System<D, Job>, R> as Desk<System<D, Job>>>⟧.view desk.old)) lane }
    requires data { is_data request.now.call ≡ true }
    requires plain { is_lambda request.now.call ≡ false }
    requires small { IsSmall (⟦<Seated<'a, System<D, Job>, R> as Desk<System<D, Job>>>⟧.opening desk.old).value }
    ensures free { ⟦<Seated<'a, System<D, Job>, R> as Desk<System<D, Job>>>⟧.is_free desk.new }
    ensures worn { IfErr result (λ x. IsWorn x.count (⟦<Seated<'a, System<D, Job>, R> as Desk<System<D, Job>>>⟧.view desk.new)) }
    ensures turn { (⟦<Seated<'a, System<D, Job>, R> as Desk<System<D, Job>>>⟧.table desk.new ≡ ⟦<Seated<'a, System<D, Job>, R> as Desk<System<D, Job>>>⟧.table desk.old) × (⟦<Seated<'a, System<D, Job>, R> as Desk<System<D, Job>>>⟧.opening desk.new ≡ ⟦<Seated<'a, System<D, Job>, R> as Desk<System<D, Job>>>⟧.opening desk.old) }
    ensures did { Does (⟦<Seated<'a, System<D, Job>, R> as Desk<System<D, Job>>>⟧.view desk.old) (⟦<Seated<'a, System<D, Job>, R> as Desk<System<D, Job>>>⟧.view desk.new) (DataSays D.seen (⟦<Seated<'a, System<D, Job>, R> as Desk<System<D, Job>>>⟧.opening desk.old) (⟦<Seated<'a, System<D, Job>, R> as Desk<System<D, Job>>>⟧.view desk.old) (⟦<Seated<'a, System<D, Job>, R> as Desk<System<D, Job>>>⟧.view desk.new) lane request.now result) }
    ensures numbered { (n : Numbered) → result ≡ Ok n → IsNumbered (⟦<Seated<'a, System<D, Job>, R> as Desk<System<D, Job>>>⟧.opening desk.old).value.last (calls_of (events_of (⟦<Seated<'a, System<D, Job>, R> as Desk<System<D, Job>>>⟧.view desk.new).seen)) n.number (record { lane = lane; call = request.now.call; reply = n.reply }) }
{
    match Prepared::new(alloc, request) {
        Ok(prepared) => {
            let mut prepared = prepared;
            prepared_call(desk, lane, &mut prepared, page)
        }
        Err(_) => skip_call(desk, lane, request),
    }
}

/// The same by the only pass.
fn prepared_call_alone<D: Die>(
    alone: &mut Alone<System<D, Job>>,
    lane: u32,
    prepared: &mut Prepared,
    page: &mut Page,
) -> Result<Numbered, Worn>
    requires free { IsFreeAlone opening_in alone.old }
    requires lane { IsFree (core_seen (core_of D.seen) (opening_alone opening_in alone.old) (view_alone alone.old)) lane }
    requires alone { IsAlone (core_seen (core_of D.seen) (opening_alone opening_in alone.old) (view_alone alone.old)) lane prepared.old.job.request }
    requires frames { HasFrames (core_of D.seen (opening_alone opening_in alone.old).value).shape }
    requires prepared { IsPrepared prepared.old.job.request prepared.old.job }
    requires data { is_data prepared.old.job.request.call ≡ true }
    requires plain { is_lambda prepared.old.job.request.call ≡ false }
    requires small { IsSmall (opening_alone opening_in alone.old).value }
    ensures free { IsFreeAlone opening_in alone.new }
    ensures worn { IfErr result (λ x. IsWorn x.count (view_alone alone.new)) }
    ensures turn { (table_alone alone.new ≡ table_alone alone.old) × (opening_alone opening_in alone.new ≡ opening_alone opening_in alone.old) }
    ensures did { Does (view_alone alone.old) (view_alone alone.new) (PreparedSays D.seen (opening_alone opening_in alone.old) (view_alone alone.old) (view_alone alone.new) lane prepared.old.job.request result) }
    ensures numbered { (n : Numbered) → result ≡ Ok n → IsNumbered (opening_alone opening_in alone.old).value.last (calls_of (events_of (view_alone alone.new).seen)) n.number (record { lane = lane; call = prepared.old.job.request.call; reply = n.reply }) }
{
    let beginning = begin_call_alone(alone, lane, prepared, page)?;
    match beginning {
        Beginning::Ended(numbered) => Ok(numbered),
        Beginning::Started(_) => finish_call_alone(alone, lane, &mut prepared.job),
    }
}

/// The same by the only pass. It never waits, and it ends.
pub(crate) fn data_call_alone<D: Die>(
    alloc: Global,
    alone: &mut Alone<System<D, Job>>,
    lane: u32,
    request: &Request,
    page: &mut Page,
) -> Result<Numbered, Worn>
    requires free { IsFreeAlone opening_in alone.old }
    requires lane { IsFree (core_seen (core_of D.seen) (opening_alone opening_in alone.old) (view_alone alone.old)) lane }
    requires alone { IsAlone (core_seen (core_of D.seen) (opening_alone opening_in alone.old) (view_alone alone.old)) lane request.now }
    requires frames { HasFrames (core_of D.seen (opening_alone opening_in alone.old).value).shape }
    requires data { is_data request.now.call ≡ true }
    requires plain { is_lambda request.now.call ≡ false }
    requires small { IsSmall (opening_alone opening_in alone.old).value }
    ensures free { IsFreeAlone opening_in alone.new }
    ensures worn { IfErr result (λ x. IsWorn x.count (view_alone alone.new)) }
    ensures turn { (table_alone alone.new ≡ table_alone alone.old) × (opening_alone opening_in alone.new ≡ opening_alone opening_in alone.old) }
    ensures did { Does (view_alone alone.old) (view_alone alone.new) (DataSays D.seen (opening_alone opening_in alone.old) (view_alone alone.old) (view_alone alone.new) lane request.now result) }
    ensures numbered { (n : Numbered) → result ≡ Ok n → IsNumbered (opening_alone opening_in alone.old).value.last (calls_of (events_of (view_alone alone.new).seen)) n.number (record { lane = lane; call = request.now.call; reply = n.reply }) }
{
    match Prepared::new(alloc, request) {
        Ok(prepared) => {
            let mut prepared = prepared;
            prepared_call_alone(alone, lane, &mut prepared, page)
        }
        Err(_) => skip_call_alone(alone, lane, request),
    }
}
