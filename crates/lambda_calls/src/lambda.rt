//! Calls with a function: memory for a call, its beginning, and its end at its side.
ghost use Rattle.std.specs.Prelude.{◌≡◌, ℕ, None, true, Ok, IfErr};
ghost use Rattle.turn_cell.specs.Desks.{IsFreeAlone, view_alone, opening_alone, table_alone};
ghost use Rattle.turn_cell.specs.Events.{events_of};
ghost use Rattle.turn_cell.specs.Steps.{IsWorn};
ghost use Rattle.plain_files.specs.declared.calls.Numbered.{Numbered};
ghost use Rattle.core_state.specs.declared.actor.Actor.TheVariants.{Lane};
ghost use Rattle.core_state.specs.Reach.{is_lambda};
ghost use Rattle.core_state.specs.History.{calls_of};
ghost use Rattle.core_solo.specs.Alone.{HasFrames, IsAlone};
ghost use Rattle.system_state.specs.Cores.{core_of};
ghost use Rattle.call_job.specs.Prepares.{IsPrepared};
ghost use Rattle.desk_turns.specs.Making.{AreOf};
ghost use Rattle.desk_turns.specs.Passing.{ActsFor, core_seen, Does};
ghost use Rattle.data_calls.specs.Books.{opening_in};
ghost use Rattle.data_calls.specs.Words.{IsNumbered, IsSmall};
ghost use Rattle.data_calls.specs.Making.{IsFree};
ghost use Rattle.data_calls.specs.Finishing.{IsBegunAt, AreOfCall, LambdaSays};
ghost use Rattle.lambda_calls.specs.Answers.{PreparedSays, CallSays};

use call_job::{Job, Prepared};
use data_calls::{
    Beginning, System, begin_call, begin_call_alone, finish_at_drive, finish_at_drive_alone,
    finish_at_host, finish_at_host_alone, skip_call, skip_call_alone,
};
use dispatcher::Side;
use flash_die::Die;
use gates::Gate;
use page_base::Page;
use plain_files::{Numbered, Request};
use std::alloc::Global;
use std::sync::Wait;
use turn_cell::{Alone, Desk, Seated, Worn};

/// A call that has begun at this side gathers its pages, runs and ends.
fn finish_at<'a, D: Die, R: Wait, G: Gate>(
    desk: &mut Seated<'a, System<D, Job>, R>,
    gate: &G,
    lane: u32,
    side: Side,
    job: Job,
) -> Result<Numbered, Worn>
    requires free { ⟦<Seated<'a, System<D, Job>, R> as Desk<System<D, Job>>>⟧.is_free desk.old }
    requires acts { ActsFor (core_of D.seen) (⟦<Seated<'a, System<D, Job>, R> as Desk<System<D, Job>>>⟧.opening desk.old) (⟦<Seated<'a, System<D, Job>, R> as Desk<System<D, Job>>>⟧.view desk.old) (Lane lane) }
    requires begun { IsBegunAt side (core_seen (core_of D.seen) (⟦<Seated<'a, System<D, Job>, R> as Desk<System<D, Job>>>⟧.opening desk.old) (⟦<Seated<'a, System<D, Job>, R> as Desk<System<D, Job>>>⟧.view desk.old)) lane job }
    requires small { IsSmall (⟦<Seated<'a, System<D, Job>, R> as Desk<System<D, Job>>>⟧.opening desk.old).value }
    ensures free { ⟦<Seated<'a, System<D, Job>, R> as Desk<System<D, Job>>>⟧.is_free desk.new }
    ensures worn { IfErr result (λ x. IsWorn x.count (⟦<Seated<'a, System<D, Job>, R> as Desk<System<D, Job>>>⟧.view desk.new)) }
    ensures turn { (⟦<Seated<'a, System<D, Job>, R> as Desk<System<D, Job>>>⟧.table desk.new ≡ ⟦<Seated<'a, System<D, Job>, R> as Desk<System<D, Job>>>⟧.table desk.old) × (⟦<Seated<'a, System<D, Job>, R> as Desk<System<D, Job>>>⟧.opening desk.new ≡ ⟦<Seated<'a, System<D, Job>, R> as Desk<System<D, Job>>>⟧.opening desk.old) }
    ensures did { Does (⟦<Seated<'a, System<D, Job>, R> as Desk<System<D, Job>>>⟧.view desk.old) (⟦<Seated<'a, System<D, Job>, R> as Desk<System<D, Job>>>⟧.view desk.new) (LambdaSays D.seen (AreOf (Lane lane)) (⟦<Seated<'a, System<D, Job>, R> as Desk<System<D, Job>>>⟧.opening desk.old) (⟦<Seated<'a, System<D, Job>, R> as Desk<System<D, Job>>>⟧.view desk.old) (⟦<Seated<'a, System<D, Job>, R> as Desk<System<D, Job>>>⟧.view desk.new) lane job.request result) }
    ensures numbered { (n : Numbered) → result ≡ Ok n → IsNumbered (⟦<Seated<'a, System<D, Job>, R> as Desk<System<D, Job>>>⟧.opening desk.old).value.last (calls_of (events_of (⟦<Seated<'a, System<D, Job>, R> as Desk<System<D, Job>>>⟧.view desk.new).seen)) n.number (record { lane = lane; call = job.request.call; reply = n.reply }) }
{
    match side {
        Side::Host => {
            let mut job = job;
            finish_at_host(desk, gate, lane, &mut job)
        }
        Side::Drive => finish_at_drive(desk, lane, job),
    }
}

/// The same by the only pass, with all dies at home.
fn finish_at_alone<D: Die, G: Gate>(
    alone: &mut Alone<System<D, Job>>,
    gate: &G,
    lane: u32,
    side: Side,
    job: Job,
) -> Result<Numbered, Worn>
    requires free { IsFreeAlone opening_in alone.old }
    requires begun { IsBegunAt side (core_seen (core_of D.seen) (opening_alone opening_in alone.old) (view_alone alone.old)) lane job }
    requires alone { IsAlone (core_seen (core_of D.seen) (opening_alone opening_in alone.old) (view_alone alone.old)) lane job.request }
    requires home { (die : ℕ) → ((core_seen (core_of D.seen) (opening_alone opening_in alone.old) (view_alone alone.old)).dies die).out ≡ None }
    requires small { IsSmall (opening_alone opening_in alone.old).value }
    ensures free { IsFreeAlone opening_in alone.new }
    ensures worn { IfErr result (λ x. IsWorn x.count (view_alone alone.new)) }
    ensures turn { (table_alone alone.new ≡ table_alone alone.old) × (opening_alone opening_in alone.new ≡ opening_alone opening_in alone.old) }
    ensures did { Does (view_alone alone.old) (view_alone alone.new) (LambdaSays D.seen (AreOfCall lane) (opening_alone opening_in alone.old) (view_alone alone.old) (view_alone alone.new) lane job.request result) }
    ensures numbered { (n : Numbered) → result ≡ Ok n → IsNumbered (opening_alone opening_in alone.old).value.last (calls_of (events_of (view_alone alone.new).seen)) n.number (record { lane = lane; call = job.request.call; reply = n.reply }) }
{
    match side {
        Side::Host => {
            let mut job = job;
            finish_at_host_alone(alone, gate, lane, &mut job)
        }
        Side::Drive => finish_at_drive_alone(alone, gate, lane, job),
    }
}

/// A call for which memory was found: it begins, or is refused, and goes on to its end.
fn prepared_lambda<'a, D: Die, R: Wait, G: Gate>(
    desk: &mut Seated<'a, System<D, Job>, R>,
    gate: &G,
    lane: u32,
    prepared: Prepared,
    page: &mut Page,
) -> Result<Numbered, Worn>
    requires free { ⟦<Seated<'a, System<D, Job>, R> as Desk<System<D, Job>>>⟧.is_free desk.old }
    requires acts { ActsFor (core_of D.seen) (⟦<Seated<'a, System<D, Job>, R> as Desk<System<D, Job>>>⟧.opening desk.old) (⟦<Seated<'a, System<D, Job>, R> as Desk<System<D, Job>>>⟧.view desk.old) (Lane lane) }
    requires lane { IsFree (core_seen (core_of D.seen) (⟦<Seated<'a, System<D, Job>, R> as Desk<System<D, Job>>>⟧.opening desk.old) (⟦<Seated<'a, System<D, Job>, R> as Desk<System<D, Job>>>⟧.view desk.old)) lane }
    requires prepared { IsPrepared prepared.job.request prepared.job }
    requires lambda { is_lambda prepared.job.request.call ≡ true }
    requires small { IsSmall (⟦<Seated<'a, System<D, Job>, R> as Desk<System<D, Job>>>⟧.opening desk.old).value }
    ensures free { ⟦<Seated<'a, System<D, Job>, R> as Desk<System<D, Job>>>⟧.is_free desk.new }
    ensures worn { IfErr result (λ x. IsWorn x.count (⟦<Seated<'a, System<D, Job>, R> as Desk<System<D, Job>>>⟧.view desk.new)) }
    ensures turn { (⟦<Seated<'a, System<D, Job>, R> as Desk<System<D, Job>>>⟧.table desk.new ≡ ⟦<Seated<'a, System<D, Job>, R> as Desk<System<D, Job>>>⟧.table desk.old) × (⟦<Seated<'a, System<D, Job>, R> as Desk<System<D, Job>>>⟧.opening desk.new ≡ ⟦<Seated<'a, System<D, Job>, R> as Desk<System<D, Job>>>⟧.opening desk.old) }
    ensures did { Does (⟦<Seated<'a, System<D, Job>, R> as Desk<System<D, Job>>>⟧.view desk.old) (⟦<Seated<'a, System<D, Job>, R> as Desk<System<D, Job>>>⟧.view desk.new) (PreparedSays D.seen (AreOf (Lane lane)) (⟦<Seated<'a, System<D, Job>, R> as Desk<System<D, Job>>>⟧.opening desk.old) (⟦<Seated<'a, System<D, Job>, R> as Desk<System<D, Job>>>⟧.view desk.old) (⟦<Seated<'a, System<D, Job>, R> as Desk<System<D, Job>>>⟧.view desk.new) lane prepared.job.request result) }
    ensures numbered { (n : Numbered) → result ≡ Ok n → IsNumbered (⟦<Seated<'a, System<D, Job>, R> as Desk<System<D, Job>>>⟧.opening desk.old).value.last (calls_of (events_of (⟦<Seated<'a, System<D, Job>, R> as Desk<System<D, Job>>>⟧.view desk.new).seen)) n.number (record { lane = lane; call = prepared.job.request.call; reply = n.reply }) }
{
    let mut prepared = prepared;
    let beginning = begin_call(desk, lane, &mut prepared, page)?;
    match beginning {
        Beginning::Ended(numbered) => Ok(numbered),
        Beginning::Started(side) => finish_at(desk, gate, lane, side, prepared.into_job()),
    }
}

/// Answers a call with a function, by way of `page`. Where memory for it runs out before it begins, it is skipped with `nomemory`.
pub(crate) fn lambda_call<'a, D: Die, R: Wait, G: Gate>(
    alloc: Global,
    desk: &mut Seated<'a, System<D, Job>, R>,
    gate: &G,
    lane: u32,
    request: &Request,
    page: &mut Page,
) -> Result<Numbered, Worn>
    requires free { ⟦<Seated<'a, System<D, Job>, R> as Desk<System<D, Job>>>⟧.is_free desk.old }
    requires acts { ActsFor (core_of D.seen) (⟦<Seated<'a, System<D, Job>, R> as Desk<System<D, Job>>>⟧.opening desk.old) (⟦<Seated<'a, System<D, Job>, R> as Desk<System<D, Job>>>⟧.view desk.old) (Lane lane) }
    requires lane { IsFree (core_seen (core_of D.seen) (⟦<Seated<'a, System<D, Job>, R> as Desk<System<D, Job>>>⟧.opening desk.old) (⟦<Seated<'a, System<D, Job>, R> as Desk<System<D, Job>>>⟧.view desk.old)) lane }
    requires lambda { is_lambda request.now.call ≡ true }
    requires small { IsSmall (⟦<Seated<'a, System<D, Job>, R> as Desk<System<D, Job>>>⟧.opening desk.old).value }
    ensures free { ⟦<Seated<'a, System<D, Job>, R> as Desk<System<D, Job>>>⟧.is_free desk.new }
    ensures worn { IfErr result (λ x. IsWorn x.count (⟦<Seated<'a, System<D, Job>, R> as Desk<System<D, Job>>>⟧.view desk.new)) }
    ensures turn { (⟦<Seated<'a, System<D, Job>, R> as Desk<System<D, Job>>>⟧.table desk.new ≡ ⟦<Seated<'a, System<D, Job>, R> as Desk<System<D, Job>>>⟧.table desk.old) × (⟦<Seated<'a, System<D, Job>, R> as Desk<System<D, Job>>>⟧.opening desk.new ≡ ⟦<Seated<'a, System<D, Job>, R> as Desk<System<D, Job>>>⟧.opening desk.old) }
    ensures did { Does (⟦<Seated<'a, System<D, Job>, R> as Desk<System<D, Job>>>⟧.view desk.old) (⟦<Seated<'a, System<D, Job>, R> as Desk<System<D, Job>>>⟧.view desk.new) (CallSays D.seen (AreOf (Lane lane)) (⟦<Seated<'a, System<D, Job>, R> as Desk<System<D, Job>>>⟧.opening desk.old) (⟦<Seated<'a, System<D, Job>, R> as Desk<System<D, Job>>>⟧.view desk.old) (⟦<Seated<'a, System<D, Job>, R> as Desk<System<D, Job>>>⟧.view desk.new) lane request.now result) }
    ensures numbered { (n : Numbered) → result ≡ Ok n → IsNumbered (⟦<Seated<'a, System<D, Job>, R> as Desk<System<D, Job>>>⟧.opening desk.old).value.last (calls_of (events_of (⟦<Seated<'a, System<D, Job>, R> as Desk<System<D, Job>>>⟧.view desk.new).seen)) n.number (record { lane = lane; call = request.now.call; reply = n.reply }) }
{
    match Prepared::new(alloc, request) {
        Ok(prepared) => prepared_lambda(desk, gate, lane, prepared, page),
        Err(_) => skip_call(desk, lane, request),
    }
}

/// The same by the only pass.
fn prepared_lambda_alone<D: Die, G: Gate>(
    alone: &mut Alone<System<D, Job>>,
    gate: &G,
    lane: u32,
    prepared: Prepared,
    page: &mut Page,
) -> Result<Numbered, Worn>
    requires free { IsFreeAlone opening_in alone.old }
    requires lane { IsFree (core_seen (core_of D.seen) (opening_alone opening_in alone.old) (view_alone alone.old)) lane }
    requires alone { IsAlone (core_seen (core_of D.seen) (opening_alone opening_in alone.old) (view_alone alone.old)) lane prepared.job.request }
    requires frames { HasFrames (core_of D.seen (opening_alone opening_in alone.old).value).shape }
    requires prepared { IsPrepared prepared.job.request prepared.job }
    requires lambda { is_lambda prepared.job.request.call ≡ true }
    requires small { IsSmall (opening_alone opening_in alone.old).value }
    ensures free { IsFreeAlone opening_in alone.new }
    ensures worn { IfErr result (λ x. IsWorn x.count (view_alone alone.new)) }
    ensures turn { (table_alone alone.new ≡ table_alone alone.old) × (opening_alone opening_in alone.new ≡ opening_alone opening_in alone.old) }
    ensures did { Does (view_alone alone.old) (view_alone alone.new) (PreparedSays D.seen (AreOfCall lane) (opening_alone opening_in alone.old) (view_alone alone.old) (view_alone alone.new) lane prepared.job.request result) }
    ensures numbered { (n : Numbered) → result ≡ Ok n → IsNumbered (opening_alone opening_in alone.old).value.last (calls_of (events_of (view_alone alone.new).seen)) n.number (record { lane = lane; call = prepared.job.request.call; reply = n.reply }) }
{
    let mut prepared = prepared;
    let beginning = begin_call_alone(alone, lane, &mut prepared, page)?;
    match beginning {
        Beginning::Ended(numbered) => Ok(numbered),
        Beginning::Started(side) => finish_at_alone(alone, gate, lane, side, prepared.into_job()),
    }
}

/// The same by the only pass. It never waits, and it ends.
pub(crate) fn lambda_call_alone<D: Die, G: Gate>(
    alloc: Global,
    alone: &mut Alone<System<D, Job>>,
    gate: &G,
    lane: u32,
    request: &Request,
    page: &mut Page,
) -> Result<Numbered, Worn>
    requires free { IsFreeAlone opening_in alone.old }
    requires lane { IsFree (core_seen (core_of D.seen) (opening_alone opening_in alone.old) (view_alone alone.old)) lane }
    requires alone { IsAlone (core_seen (core_of D.seen) (opening_alone opening_in alone.old) (view_alone alone.old)) lane request.now }
    requires frames { HasFrames (core_of D.seen (opening_alone opening_in alone.old).value).shape }
    requires lambda { is_lambda request.now.call ≡ true }
    requires small { IsSmall (opening_alone opening_in alone.old).value }
    ensures free { IsFreeAlone opening_in alone.new }
    ensures worn { IfErr result (λ x. IsWorn x.count (view_alone alone.new)) }
    ensures turn { (table_alone alone.new ≡ table_alone alone.old) × (opening_alone opening_in alone.new ≡ opening_alone opening_in alone.old) }
    ensures did { Does (view_alone alone.old) (view_alone alone.new) (CallSays D.seen (AreOfCall lane) (opening_alone opening_in alone.old) (view_alone alone.old) (view_alone alone.new) lane request.now result) }
    ensures numbered { (n : Numbered) → result ≡ Ok n → IsNumbered (opening_alone opening_in alone.old).value.last (calls_of (events_of (view_alone alone.new).seen)) n.number (record { lane = lane; call = request.now.call; reply = n.reply }) }
{
    match Prepared::new(alloc, request) {
        Ok(prepared) => prepared_lambda_alone(alone, gate, lane, prepared, page),
        Err(_) => skip_call_alone(alone, lane, request),
    }
}
