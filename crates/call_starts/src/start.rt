//! A call goes on until it has begun or has ended.
ghost use Rattle.std.specs.Prelude.{◌≡◌, ◌⊎◌, ℕ, None, true, Ok, IfOk, IfErr};
ghost use Rattle.turn_cell.specs.Desks.{IsFreeAlone, view_alone, opening_alone, table_alone};
ghost use Rattle.turn_cell.specs.Events.{events_of};
ghost use Rattle.turn_cell.specs.Steps.{IsWorn};
ghost use Rattle.dispatcher.specs.declared.side.Side.{Side};
ghost use Rattle.plain_files.specs.declared.calls.Numbered.{Numbered};
ghost use Rattle.core_state.specs.declared.actor.Actor.TheVariants.{Lane};
ghost use Rattle.core_state.specs.Reach.{is_data, is_sync};
ghost use Rattle.core_state.specs.History.{calls_of};
ghost use Rattle.core_solo.specs.Alone.{HasFrames, IsAlone};
ghost use Rattle.system_state.specs.Cores.{core_of};
ghost use Rattle.call_job.specs.Prepares.{IsPrepared};
ghost use Rattle.desk_turns.specs.Passing.{ActsFor, core_seen, Does};
ghost use Rattle.call_begins.specs.Books.{opening_in};
ghost use Rattle.call_begins.specs.Words.{IsNumbered, IsSmall};
ghost use Rattle.call_begins.specs.Making.{IsFree};
ghost use Rattle.call_starts.specs.declared.start.Beginning.TheVariants.{Ended, Started};
ghost use Rattle.call_starts.specs.Sorting.{sorted};
ghost use Rattle.call_starts.specs.Starting.{StartSays, JobIs};

use call_begins::{BeginStep, Stage, System, begin_step};
use call_job::{Job, Prepared};
use dispatcher::Side;
use flash_die::Die;
use page_base::Page;
use plain_files::Numbered;
use std::sync::Wait;
use turn_cell::{Alone, Desk, Seated, Worn};

/// What became of a call that was to begin.
#[derive(Drop)]
pub enum Beginning {
    /// It has ended: it was refused, or skipped with a fault.
    Ended(Numbered),
    /// It has begun at this side.
    Started(Side),
}

/// How a call goes on after a step.
#[derive(Drop)]
enum Next {
    /// It has begun or has ended.
    Come(Beginning),
    /// Room is made for it.
    On(Stage),
    /// Others are to go on first.
    Waits,
}

fn sorted(step: BeginStep) -> Next
    ensures { result ≡ sorted step }
{
    match step {
        BeginStep::Ended(numbered) => Next::Come(Beginning::Ended(numbered)),
        BeginStep::Started(side) => Next::Come(Beginning::Started(side)),
        BeginStep::On(stage) => Next::On(stage),
        BeginStep::Waits => Next::Waits,
    }
}

/// Makes room for a prepared data call or `sync` of a lane that is free, by way of `page`, until it has begun or was refused. Where a flush for
/// it has failed it is skipped, with a fault. It waits for the call that it awaits, for those in its way, and where no room can be made. Where
/// it began its job suits it, and else the job is as it was. At `Worn` it has neither begun nor ended.
pub fn begin_call<'a, D: Die, R: Wait>(
    desk: &mut Seated<'a, System<D, Job>, R>,
    lane: u32,
    prepared: &mut Prepared,
    page: &mut Page,
) -> Result<Beginning, Worn>
    requires free { ⟦<Seated<'a, System<D, Job>, R> as Desk<System<D, Job>>>⟧.is_free desk.old }
    requires acts { ActsFor (core_of D.seen) (⟦<Seated<'a, System<D, Job>, R> as Desk<System<D, Job>>>⟧.opening desk.old) (⟦<Seated<'a, System<D, Job>, R> as Desk<System<D, Job>>>⟧.view desk.old) (Lane lane) }
    requires lane { IsFree (core_seen (core_of D.seen) (⟦<Seated<'a, System<D, Job>, R> as Desk<System<D, Job>>>⟧.opening desk.old) (⟦<Seated<'a, System<D, Job>, R> as Desk<System<D, Job>>>⟧.view desk.old)) lane }
    requires prepared { IsPrepared prepared.old.job.request prepared.old.job }
    requires kind { (is_data prepared.old.job.request.call ≡ true) ⊎ (is_sync prepared.old.job.request.call ≡ true) }
    requires small { IsSmall (⟦<Seated<'a, System<D, Job>, R> as Desk<System<D, Job>>>⟧.opening desk.old).value }
    ensures free { ⟦<Seated<'a, System<D, Job>, R> as Desk<System<D, Job>>>⟧.is_free desk.new }
    ensures worn { IfErr result (λ x. IsWorn x.count (⟦<Seated<'a, System<D, Job>, R> as Desk<System<D, Job>>>⟧.view desk.new)) }
    ensures turn { (⟦<Seated<'a, System<D, Job>, R> as Desk<System<D, Job>>>⟧.table desk.new ≡ ⟦<Seated<'a, System<D, Job>, R> as Desk<System<D, Job>>>⟧.table desk.old) × (⟦<Seated<'a, System<D, Job>, R> as Desk<System<D, Job>>>⟧.opening desk.new ≡ ⟦<Seated<'a, System<D, Job>, R> as Desk<System<D, Job>>>⟧.opening desk.old) }
    ensures did { Does (⟦<Seated<'a, System<D, Job>, R> as Desk<System<D, Job>>>⟧.view desk.old) (⟦<Seated<'a, System<D, Job>, R> as Desk<System<D, Job>>>⟧.view desk.new) (StartSays D.seen (⟦<Seated<'a, System<D, Job>, R> as Desk<System<D, Job>>>⟧.opening desk.old) (⟦<Seated<'a, System<D, Job>, R> as Desk<System<D, Job>>>⟧.view desk.old) (⟦<Seated<'a, System<D, Job>, R> as Desk<System<D, Job>>>⟧.view desk.new) lane prepared.old.job.request result) }
    ensures job { JobIs (core_seen (core_of D.seen) (⟦<Seated<'a, System<D, Job>, R> as Desk<System<D, Job>>>⟧.opening desk.old) (⟦<Seated<'a, System<D, Job>, R> as Desk<System<D, Job>>>⟧.view desk.new)) lane prepared.old.job prepared.new.job result }
    ensures numbered { (n : Numbered) → result ≡ Ok (Ended n) → IsNumbered (⟦<Seated<'a, System<D, Job>, R> as Desk<System<D, Job>>>⟧.opening desk.old).value.last (calls_of (events_of (⟦<Seated<'a, System<D, Job>, R> as Desk<System<D, Job>>>⟧.view desk.new).seen)) n.number (record { lane = lane; call = prepared.old.job.request.call; reply = n.reply }) }
{
    let rt = desk.runtime();
    let mut stage = Stage::Idle;
    for _ in rt.forever() {
        let step = begin_step(desk, lane, prepared, page, stage)?;
        let next = sorted(step);
        match next {
            Next::Come(beginning) => return Ok(beginning),
            Next::On(later) => stage = later,
            Next::Waits => desk.pause(),
        }
    }
    unreachable!()
}

/// The same by the only pass, where the lane's call is alone, over caches in which a span has room. It never waits, and it ends. All dies are at
/// home then, and a call that has begun is still alone.
pub fn begin_call_alone<D: Die>(
    alone: &mut Alone<System<D, Job>>,
    lane: u32,
    prepared: &mut Prepared,
    page: &mut Page,
) -> Result<Beginning, Worn>
    requires free { IsFreeAlone opening_in alone.old }
    requires lane { IsFree (core_seen (core_of D.seen) (opening_alone opening_in alone.old) (view_alone alone.old)) lane }
    requires alone { IsAlone (core_seen (core_of D.seen) (opening_alone opening_in alone.old) (view_alone alone.old)) lane prepared.old.job.request }
    requires frames { HasFrames (core_of D.seen (opening_alone opening_in alone.old).value).shape }
    requires prepared { IsPrepared prepared.old.job.request prepared.old.job }
    requires kind { (is_data prepared.old.job.request.call ≡ true) ⊎ (is_sync prepared.old.job.request.call ≡ true) }
    requires small { IsSmall (opening_alone opening_in alone.old).value }
    ensures free { IsFreeAlone opening_in alone.new }
    ensures worn { IfErr result (λ x. IsWorn x.count (view_alone alone.new)) }
    ensures turn { (table_alone alone.new ≡ table_alone alone.old) × (opening_alone opening_in alone.new ≡ opening_alone opening_in alone.old) }
    ensures did { Does (view_alone alone.old) (view_alone alone.new) (StartSays D.seen (opening_alone opening_in alone.old) (view_alone alone.old) (view_alone alone.new) lane prepared.old.job.request result) }
    ensures job { JobIs (core_seen (core_of D.seen) (opening_alone opening_in alone.old) (view_alone alone.new)) lane prepared.old.job prepared.new.job result }
    ensures numbered { (n : Numbered) → result ≡ Ok (Ended n) → IsNumbered (opening_alone opening_in alone.old).value.last (calls_of (events_of (view_alone alone.new).seen)) n.number (record { lane = lane; call = prepared.old.job.request.call; reply = n.reply }) }
    ensures home { IfOk result (λ _. (die : ℕ) → ((core_seen (core_of D.seen) (opening_alone opening_in alone.old) (view_alone alone.new)).dies die).out ≡ None) }
    ensures alone { (side : Side) → result ≡ Ok (Started side) → IsAlone (core_seen (core_of D.seen) (opening_alone opening_in alone.old) (view_alone alone.new)) lane prepared.old.job.request }
{
    let mut stage = Stage::Idle;
    loop {
        let step = begin_step(alone, lane, prepared, page, stage)?;
        let next = sorted(step);
        match next {
            Next::Come(beginning) => return Ok(beginning),
            Next::On(later) => stage = later,
            Next::Waits => unreachable!(),
        }
    }
}
