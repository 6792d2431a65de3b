//! The data calls without a function, by their kinds.
ghost use Rattle.std.specs.Prelude.{◌≡◌, ℕ, true, Ok, IfErr};
ghost use Rattle.turn_cell.specs.Desks.{IsFreeAlone, view_alone, opening_alone, table_alone};
ghost use Rattle.turn_cell.specs.Events.{events_of};
ghost use Rattle.turn_cell.specs.Steps.{IsWorn};
ghost use Rattle.plain_files.specs.declared.calls.Numbered.{Numbered};
ghost use Rattle.core_state.specs.declared.actor.Actor.TheVariants.{Lane};
ghost use Rattle.core_state.specs.History.{calls_of};
ghost use Rattle.core_solo.specs.Alone.{HasFrames, IsAlone};
ghost use Rattle.system_state.specs.Cores.{core_of};
ghost use Rattle.desk_turns.specs.Passing.{ActsFor, core_seen, Does};
ghost use Rattle.call_starts.specs.Books.{opening_in};
ghost use Rattle.call_starts.specs.Words.{IsNumbered, IsSmall};
ghost use Rattle.call_starts.specs.Making.{IsFree};
ghost use Rattle.data_calls.specs.Kinds.{is_read_call, is_write_call, is_append_call, is_trunc_call};
ghost use Rattle.data_calls.specs.Answers.{DataSays};

use crate::data::{data_call, data_call_alone};
use call_job::Job;
use call_starts::System;
use flash_die::Die;
use page_base::Page;
use plain_files::{Numbered, Request};
use std::alloc::Global;
use std::sync::Wait;
use turn_cell::{Alone, Desk, Seated, Worn};

/// Answers a `read`: the bytes of the file there, or a refusal, of a lane that is free, by way of `page`, which may
/// change. The reply is `nomemory` where memory ran out before it began, and `fault` where a die failed. It waits for the call that it awaits and
/// for those in its way. At `Worn` it hasn't ended.
pub fn read_call<'a, D: Die, R: Wait>(
    alloc: Global,
    desk: &mut Seated<'a, System<D, Job>, R>,
    lane: u32,
    request: &Request,
    page: &mut Page,
) -> Result<Numbered, Worn>
    requires free { ⟦<Seated<'a, System<D, Job>, R> as Desk<System<D, Job>>>⟧.is_free desk.old }
    requires acts { ActsFor (core_of D.seen) (⟦<Seated<'a, System<D, Job>, R> as Desk<System<D, Job>>>⟧.opening desk.old) (⟦<Seated<'a, System<D, Job>, R> as Desk<System<D, Job>>>⟧.view desk.old) (Lane lane) }
    requires lane { IsFree (core_seen (core_of D.seen) (⟦<Seated<'a, System<D, Job>, R> as Desk<System<D, Job>>>⟧.opening desk.old) (⟦<Seated<'a, System<D, Job>, R> as Desk<System<D, Job>>>⟧.view desk.old)) lane }
    requires kind { is_read_call request.now.call ≡ true }
    requires small { IsSmall (⟦<Seated<'a, System<D, Job>, R> as Desk<System<D, Job>>>⟧.opening desk.old).value }
    ensures free { ⟦<Seated<'a, System<D, Job>, R> as Desk<System<D, Job>>>⟧.is_free desk.new }
    ensures worn { IfErr result (λ x. IsWorn x.count (⟦<Seated<'a, System<D, Job>, R> as Desk<System<D, Job>>>⟧.view desk.new)) }
    ensures turn { (⟦<Seated<'a, System<D, Job>, R> as Desk<System<D, Job>>>⟧.table desk.new ≡ ⟦<Seated<'a, System<D, Job>, R> as Desk<System<D, Job>>>⟧.table desk.old) × (⟦<Seated<'a, System<D, Job>, R> as Desk<System<D, Job>>>⟧.opening desk.new ≡ ⟦<Seated<'a, System<D, Job>, R> as Desk<System<D, Job>>>⟧.opening desk.old) }
    ensures did { Does (⟦<Seated<'a, System<D, Job>, R> as Desk<System<D, Job>>>⟧.view desk.old) (⟦<Seated<'a, System<D, Job>, R> as Desk<System<D, Job>>>⟧.view desk.new) (DataSays D.seen (⟦<Seated<'a, System<D, Job>, R> as Desk<System<D, Job>>>⟧.opening desk.old) (⟦<Seated<'a, System<D, Job>, R> as Desk<System<D, Job>>>⟧.view desk.old) (⟦<Seated<'a, System<D, Job>, R> as Desk<System<D, Job>>>⟧.view desk.new) lane request.now result) }
    ensures numbered { (n : Numbered) → result ≡ Ok n → IsNumbered (⟦<Seated<'a, System<D, Job>, R> as Desk<System<D, Job>>>⟧.opening desk.old).value.last (calls_of (events_of (⟦<Seated<'a, System<D, Job>, R> as Desk<System<D, Job>>>⟧.view desk.new).seen)) n.number (record { lane = lane; call = request.now.call; reply = n.reply }) }
{
    data_call(alloc, desk, lane, request, page)
}

/// The same `read` by the only pass, where the lane's call is alone. It never waits, and it ends.
pub fn read_call_alone<D: Die>(
    alloc: Global,
    alone: &mut Alone<System<D, Job>>,
    lane: u32,
    request: &Request,
    page: &mut Page,
) -> Result<Numbered, Worn>
    requires free { IsFreeAlone opening_in alone.old }
    requires lane { IsFree (core_seen (core_of D.seen) (opening_alone opening_in alone.old) (view_alone alone.old)) lane }
    requires alone { IsAlone (core_seen (core_of D.seen) (opening_alone opening_in alone.old) (view_alone alone.old)) lane request.now }
    requires frames { HasFrames (core_of D.seen (opening_alone opening_in alone.old).value).shape }
    requires kind { is_read_call request.now.call ≡ true }
    requires small { IsSmall (opening_alone opening_in alone.old).value }
    ensures free { IsFreeAlone opening_in alone.new }
    ensures worn { IfErr result (λ x. IsWorn x.count (view_alone alone.new)) }
    ensures turn { (table_alone alone.new ≡ table_alone alone.old) × (opening_alone opening_in alone.new ≡ opening_alone opening_in alone.old) }
    ensures did { Does (view_alone alone.old) (view_alone alone.new) (DataSays D.seen (opening_alone opening_in alone.old) (view_alone alone.old) (view_alone alone.new) lane request.now result) }
    ensures numbered { (n : Numbered) → result ≡ Ok n → IsNumbered (opening_alone opening_in alone.old).value.last (calls_of (events_of (view_alone alone.new).seen)) n.number (record { lane = lane; call = request.now.call; reply = n.reply }) }
{
    data_call_alone(alloc, alone, lane, request, page)
}

/// Answers a `write`: the bytes are put into the file, or it is refused, of a lane that is free, by way of `page`, which may
/// change. The reply is `nomemory` where memory ran out before it began, and `fault` where a die failed. It waits for the call that it awaits and
/// for those in its way. At `Worn` it hasn't ended.
pub fn write_call<'a, D: Die, R: Wait>(
    alloc: Global,
    desk: &mut Seated<'a, System<D, Job>, R>,
    lane: u32,
    request: &Request,
    page: &mut Page,
) -> Result<Numbered, Worn>
    requires free { ⟦<Seated<'a, System<D, Job>, R> as Desk<System<D, Job>>>⟧.is_free desk.old }
    requires acts { ActsFor (core_of D.seen) (⟦<Seated<'a, System<D, Job>, R> as Desk<System<D, Job>>>⟧.opening desk.old) (⟦<Seated<'a, System<D, Job>, R> as Desk<System<D, Job>>>⟧.view desk.old) (Lane lane) }
    requires lane { IsFree (core_seen (core_of D.seen) (⟦<Seated<'a, System<D, Job>, R> as Desk<System<D, Job>>>⟧.opening desk.old) (⟦<Seated<'a, System<D, Job>, R> as Desk<System<D, Job>>>⟧.view desk.old)) lane }
    requires kind { is_write_call request.now.call ≡ true }
    requires small { IsSmall (⟦<Seated<'a, System<D, Job>, R> as Desk<System<D, Job>>>⟧.opening desk.old).value }
    ensures free { ⟦<Seated<'a, System<D, Job>, R> as Desk<System<D, Job>>>⟧.is_free desk.new }
    ensures worn { IfErr result (λ x. IsWorn x.count (⟦<Seated<'a, System<D, Job>, R> as Desk<System<D, Job>>>⟧.view desk.new)) }
    ensures turn { (⟦<Seated<'a, System<D, Job>, R> as Desk<System<D, Job>>>⟧.table desk.new ≡ ⟦<Seated<'a, System<D, Job>, R> as Desk<System<D, Job>>>⟧.table desk.old) × (⟦<Seated<'a, System<D, Job>, R> as Desk<System<D, Job>>>⟧.opening desk.new ≡ ⟦<Seated<'a, System<D, Job>, R> as Desk<System<D, Job>>>⟧.opening desk.old) }
    ensures did { Does (⟦<Seated<'a, System<D, Job>, R> as Desk<System<D, Job>>>⟧.view desk.old) (⟦<Seated<'a, System<D, Job>, R> as Desk<System<D, Job>>>⟧.view desk.new) (DataSays D.seen (⟦<Seated<'a, System<D, Job>, R> as Desk<System<D, Job>>>⟧.opening desk.old) (⟦<Seated<'a, System<D, Job>, R> as Desk<System<D, Job>>>⟧.view desk.old) (⟦<Seated<'a, System<D, Job>, R> as Desk<System<D, Job>>>⟧.view desk.new) lane request.now result) }
    ensures numbered { (n : Numbered) → result ≡ Ok n → IsNumbered (⟦<Seated<'a, System<D, Job>, R> as Desk<System<D, Job>>>⟧.opening desk.old).value.last (calls_of (events_of (⟦<Seated<'a, System<D, Job>, R> as Desk<System<D, Job>>>⟧.view desk.new).seen)) n.number (record { lane = lane; call = request.now.call; reply = n.reply }) }
{
    data_call(alloc, desk, lane, request, page)
}

/// The same `write` by the only pass, where the lane's call is alone. It never waits, and it ends.
pub fn write_call_alone<D: Die>(
    alloc: Global,
    alone: &mut Alone<System<D, Job>>,
    lane: u32,
    request: &Request,
    page: &mut Page,
) -> Result<Numbered, Worn>
    requires free { IsFreeAlone opening_in alone.old }
    requires lane { IsFree (core_seen (core_of D.seen) (opening_alone opening_in alone.old) (view_alone alone.old)) lane }
    requires alone { IsAlone (core_seen (core_of D.seen) (opening_alone opening_in alone.old) (view_alone alone.old)) lane request.now }
    requires frames { HasFrames (core_of D.seen (opening_alone opening_in alone.old).value).shape }
    requires kind { is_write_call request.now.call ≡ true }
    requires small { IsSmall (opening_alone opening_in alone.old).value }
    ensures free { IsFreeAlone opening_in alone.new }
    ensures worn { IfErr result (λ x. IsWorn x.count (view_alone alone.new)) }
    ensures turn { (table_alone alone.new ≡ table_alone alone.old) × (opening_alone opening_in alone.new ≡ opening_alone opening_in alone.old) }
    ensures did { Does (view_alone alone.old) (view_alone alone.new) (DataSays D.seen (opening_alone opening_in alone.old) (view_alone alone.old) (view_alone alone.new) lane request.now result) }
    ensures numbered { (n : Numbered) → result ≡ Ok n → IsNumbered (opening_alone opening_in alone.old).value.last (calls_of (events_of (view_alone alone.new).seen)) n.number (record { lane = lane; call = request.now.call; reply = n.reply }) }
{
    data_call_alone(alloc, alone, lane, request, page)
}

/// Answers an `append`: the bytes are put at the end of the file, or it is refused, of a lane that is free, by way of `page`, which may
/// change. The reply is `nomemory` where memory ran out before it began, and `fault` where a die failed. It waits for the call that it awaits and
/// for those in its way. At `Worn` it hasn't ended.
pub fn append_call<'a, D: Die, R: Wait>(
    alloc: Global,
    desk: &mut Seated<'a, System<D, Job>, R>,
    lane: u32,
    request: &Request,
    page: &mut Page,
) -> Result<Numbered, Worn>
    requires free { ⟦<Seated<'a, System<D, Job>, R> as Desk<System<D, Job>>>⟧.is_free desk.old }
    requires acts { ActsFor (core_of D.seen) (⟦<Seated<'a, System<D, Job>, R> as Desk<System<D, Job>>>⟧.opening desk.old) (⟦<Seated<'a, System<D, Job>, R> as Desk<System<D, Job>>>⟧.view desk.old) (Lane lane) }
    requires lane { IsFree (core_seen (core_of D.seen) (⟦<Seated<'a, System<D, Job>, R> as Desk<System<D, Job>>>⟧.opening desk.old) (⟦<Seated<'a, System<D, Job>, R> as Desk<System<D, Job>>>⟧.view desk.old)) lane }
    requires kind { is_append_call request.now.call ≡ true }
    requires small { IsSmall (⟦<Seated<'a, System<D, Job>, R> as Desk<System<D, Job>>>⟧.opening desk.old).value }
    ensures free { ⟦<Seated<'a, System<D, Job>, R> as Desk<System<D, Job>>>⟧.is_free desk.new }
    ensures worn { IfErr result (λ x. IsWorn x.count (⟦<Seated<'a, System<D, Job>, R> as Desk<System<D, Job>>>⟧.view desk.new)) }
    ensures turn { (⟦<Seated<'a, System<D, Job>, R> as Desk<System<D, Job>>>⟧.table desk.new ≡ ⟦<Seated<'a, System<D, Job>, R> as Desk<System<D, Job>>>⟧.table desk.old) × (⟦<Seated<'a, System<D, Job>, R> as Desk<System<D, Job>>>⟧.opening desk.new ≡ ⟦<Seated<'a, System<D, Job>, R> as Desk<System<D, Job>>>⟧.opening desk.old) }
    ensures did { Does (⟦<Seated<'a, System<D, Job>, R> as Desk<System<D, Job>>>⟧.view desk.old) (⟦<Seated<'a, System<D, Job>, R> as Desk<System<D, Job>>>⟧.view desk.new) (DataSays D.seen (⟦<Seated<'a, System<D, Job>, R> as Desk<System<D, Job>>>⟧.opening desk.old) (⟦<Seated<'a, System<D, Job>, R> as Desk<System<D, Job>>>⟧.view desk.old) (⟦<Seated<'a, System<D, Job>, R> as Desk<System<D, Job>>>⟧.view desk.new) lane request.now result) }
    ensures numbered { (n : Numbered) → result ≡ Ok n → IsNumbered (⟦<Seated<'a, System<D, Job>, R> as Desk<System<D, Job>>>⟧.opening desk.old).value.last (calls_of (events_of (⟦<Seated<'a, System<D, Job>, R> as Desk<System<D, Job>>>⟧.view desk.new).seen)) n.number (record { lane = lane; call = request.now.call; reply = n.reply }) }
{
    data_call(alloc, desk, lane, request, page)
}

/// The same `append` by the only pass, where the lane's call is alone. It never waits, and it ends.
pub fn append_call_alone<D: Die>(
    alloc: Global,
    alone: &mut Alone<System<D, Job>>,
    lane: u32,
    request: &Request,
    page: &mut Page,
) -> Result<Numbered, Worn>
    requires free { IsFreeAlone opening_in alone.old }
    requires lane { IsFree (core_seen (core_of D.seen) (opening_alone opening_in alone.old) (view_alone alone.old)) lane }
    requires alone { IsAlone (core_seen (core_of D.seen) (opening_alone opening_in alone.old) (view_alone alone.old)) lane request.now }
    requires frames { HasFrames (core_of D.seen (opening_alone opening_in alone.old).value).shape }
    requires kind { is_append_call request.now.call ≡ true }
    requires small { IsSmall (opening_alone opening_in alone.old).value }
    ensures free { IsFreeAlone opening_in alone.new }
    ensures worn { IfErr result (λ x. IsWorn x.count (view_alone alone.new)) }
    ensures turn { (table_alone alone.new ≡ table_alone alone.old) × (opening_alone opening_in alone.new ≡ opening_alone opening_in alone.old) }
    ensures did { Does (view_alone alone.old) (view_alone alone.new) (DataSays D.seen (opening_alone opening_in alone.old) (view_alone alone.old) (view_alone alone.new) lane request.now result) }
    ensures numbered { (n : Numbered) → result ≡ Ok n → IsNumbered (opening_alone opening_in alone.old).value.last (calls_of (events_of (view_alone alone.new).seen)) n.number (record { lane = lane; call = request.now.call; reply = n.reply }) }
{
    data_call_alone(alloc, alone, lane, request, page)
}

/// Answers a `trunc`: the file is cut or filled up with zeros to this length, or it is refused, of a lane that is free, by way of `page`, which may
/// change. The reply is `nomemory` where memory ran out before it began, and `fault` where a die failed. It waits for the call that it awaits and
/// for those in its way. At `Worn` it hasn't ended.
pub fn trunc_call<'a, D: Die, R: Wait>(
    alloc: Global,
    desk: &mut Seated<'a, System<D, Job>, R>,
    lane: u32,
    request: &Request,
    page: &mut Page,
) -> Result<Numbered, Worn>
    requires free { ⟦<Seated<'a, System<D, Job>, R> as Desk<System<D, Job>>>⟧.is_free desk.old }
    requires acts { ActsFor (core_of D.seen) (⟦<Seated<'a, System<D, Job>, R> as Desk<System<D, Job>>>⟧.opening desk.old) (⟦<Seated<'a, System<D, Job>, R> as Desk<System<D, Job>>>⟧.view desk.old) (Lane lane) }
    requires lane { IsFree (core_seen (core_of D.seen) (⟦<Seated<'a, System<D, Job>, R> as Desk<System<D, Job>>>⟧.opening desk.old) (⟦<Seated<'a, System<D, Job>, R> as Desk<System<D, Job>>>⟧.view desk.old)) lane }
    requires kind { is_trunc_call request.now.call ≡ true }
    requires small { IsSmall (⟦<Seated<'a, System<D, Job>, R> as Desk<System<D, Job>>>⟧.opening desk.old).value }
    ensures free { ⟦<Seated<'a, System<D, Job>, R> as Desk<System<D, Job>>>⟧.is_free desk.new }
    ensures worn { IfErr result (λ x. IsWorn x.count (⟦<Seated<'a, System<D, Job>, R> as Desk<System<D, Job>>>⟧.view desk.new)) }
    ensures turn { (⟦<Seated<'a, System<D, Job>, R> as Desk<System<D, Job>>>⟧.table desk.new ≡ ⟦<Seated<'a, System<D, Job>, R> as Desk<System<D, Job>>>⟧.table desk.old) × (⟦<Seated<'a, System<D, Job>, R> as Desk<System<D, Job>>>⟧.opening desk.new ≡ ⟦<Seated<'a, System<D, Job>, R> as Desk<System<D, Job>>>⟧.opening desk.old) }
    ensures did { Does (⟦<Seated<'a, System<D, Job>, R> as Desk<System<D, Job>>>⟧.view desk.old) (⟦<Seated<'a, System<D, Job>, R> as Desk<System<D, Job>>>⟧.view desk.new) (DataSays D.seen (⟦<Seated<'a, System<D, Job>, R> as Desk<System<D, Job>>>⟧.opening desk.old) (⟦<Seated<'a, System<D, Job>, R> as Desk<System<D, Job>>>⟧.view desk.old) (⟦<Seated<'a, System<D, Job>, R> as Desk<System<D, Job>>>⟧.view desk.new) lane request.now result) }
    ensures numbered { (n : Numbered) → result ≡ Ok n → IsNumbered (⟦<Seated<'a, System<D, Job>, R> as Desk<System<D, Job>>>⟧.opening desk.old).value.last (calls_of (events_of (⟦<Seated<'a, System<D, Job>, R> as Desk<System<D, Job>>>⟧.view desk.new).seen)) n.number (record { lane = lane; call = request.now.call; reply = n.reply }) }
{
    data_call(alloc, desk, lane, request, page)
}

/// The same `trunc` by the only pass, where the lane's call is alone. It never waits, and it ends.
pub fn trunc_call_alone<D: Die>(
    alloc: Global,
    alone: &mut Alone<System<D, Job>>,
    lane: u32,
    request: &Request,
    page: &mut Page,
) -> Result<Numbered, Worn>
    requires free { IsFreeAlone opening_in alone.old }
    requires lane { IsFree (core_seen (core_of D.seen) (opening_alone opening_in alone.old) (view_alone alone.old)) lane }
    requires alone { IsAlone (core_seen (core_of D.seen) (opening_alone opening_in alone.old) (view_alone alone.old)) lane request.now }
    requires frames { HasFrames (core_of D.seen (opening_alone opening_in alone.old).value).shape }
    requires kind { is_trunc_call request.now.call ≡ true }
    requires small { IsSmall (opening_alone opening_in alone.old).value }
    ensures free { IsFreeAlone opening_in alone.new }
    ensures worn { IfErr result (λ x. IsWorn x.count (view_alone alone.new)) }
    ensures turn { (table_alone alone.new ≡ table_alone alone.old) × (opening_alone opening_in alone.new ≡ opening_alone opening_in alone.old) }
    ensures did { Does (view_alone alone.old) (view_alone alone.new) (DataSays D.seen (opening_alone opening_in alone.old) (view_alone alone.old) (view_alone alone.new) lane request.now result) }
    ensures numbered { (n : Numbered) → result ≡ Ok n → IsNumbered (opening_alone opening_in alone.old).value.last (calls_of (events_of (view_alone alone.new).seen)) n.number (record { lane = lane; call = request.now.call; reply = n.reply }) }
{
    data_call_alone(alloc, alone, lane, request, page)
}
