//! One step of a call that is to begin.
ghost use Rattle.std.specs.Prelude.{◌≡◌, ◌⊎◌, true, Ok, IfOk, IfErr};
ghost use Rattle.turn_cell.specs.Events.{events_of};
ghost use Rattle.turn_cell.specs.Steps.{IsWorn};
ghost use Rattle.plain_files.specs.declared.calls.Numbered.{Numbered};
ghost use Rattle.core_state.specs.declared.actor.Actor.TheVariants.{Lane};
ghost use Rattle.core_state.specs.Reach.{is_data, is_sync};
ghost use Rattle.core_state.specs.Coherent.{Coherent};
ghost use Rattle.core_state.specs.History.{calls_of};
ghost use Rattle.system_state.specs.Cores.{core_of};
ghost use Rattle.call_job.specs.Prepares.{IsPrepared};
ghost use Rattle.desk_turns.specs.Passing.{ActsFor, core_seen, Does};
ghost use Rattle.quick_calls.specs.Words.{IsNumbered, IsSmall};
ghost use Rattle.quick_calls.specs.Making.{IsIdleWith, IsFree, IsMarked};
ghost use Rattle.call_begins.specs.declared.step.Stage.TheVariants.{Idle, Marked};
ghost use Rattle.call_begins.specs.declared.step.BeginStep.TheVariants.{Ended};
ghost use Rattle.call_begins.specs.Steps.{lacks_room, is_marked, began, StepSays, JobSays};

use crate::room::step_room;
use call_job::{Job, Prepared};
use dispatcher::Side;
use flash_die::Die;
use job_turns::turn_begin_job;
use page_base::Page;
use plain_files::{Numbered, Request};
use quick_calls::{Begun, System, turn_skip};
use system_state::NotYet;
use turn_cell::{Desk, Worn};

/// How far a call is that hasn't begun.
#[derive(Clone, Copy, Debug, PartialEq, Eq)]
pub enum Stage {
    /// Its lane has no mark.
    Idle,
    /// A flush for it has failed: it is to be skipped.
    Marked,
}

/// What a step of a call that is to begin answers.
#[derive(Drop)]
pub enum BeginStep {
    /// It has ended: it was refused, or skipped with a fault.
    Ended(Numbered),
    /// It has begun at this side.
    Started(Side),
    /// Room was made, or was to be made and a flush has failed.
    On(Stage),
    /// Others are to go on first.
    Waits,
}

/// Whether a call waits for room.
fn lacks_room(why: &NotYet) -> bool
    ensures { result ≡ lacks_room why.now }
{
    matches!(why, NotYet::NoRoom { .. })
}

fn began(begun: Begun) -> BeginStep
    ensures { result ≡ began begun }
{
    match begun {
        Begun::Ended(numbered) => BeginStep::Ended(numbered),
        Begun::Started { side, .. } => BeginStep::Started(side),
    }
}

/// A call whose lane has no mark is tried; where it has no room, one step of room is made at its side.
fn step_idle<D: Die, K: Desk<System<D, Job>>>(
    desk: &mut K,
    lane: u32,
    prepared: &mut Prepared,
    page: &mut Page,
) -> Result<BeginStep, Worn>
    requires free { K.is_free desk.old }
    requires acts { ActsFor (core_of D.seen) (K.opening desk.old) (K.view desk.old) (Lane lane) }
    requires lane { IsFree (core_seen (core_of D.seen) (K.opening desk.old) (K.view desk.old)) lane }
    requires prepared { IsPrepared prepared.old.job.request prepared.old.job }
    requires kind { (is_data prepared.old.job.request.call ≡ true) ⊎ (is_sync prepared.old.job.request.call ≡ true) }
    requires small { IsSmall (K.opening desk.old).value }
    ensures free { K.is_free desk.new }
    ensures worn { IfErr result (λ x. IsWorn x.count (K.view desk.new)) }
    ensures turn { (K.table desk.new ≡ K.table desk.old) × (K.opening desk.new ≡ K.opening desk.old) }
    ensures did { Does (K.view desk.old) (K.view desk.new) (StepSays D.seen (K.opening desk.old) (K.view desk.old) (K.view desk.new) lane prepared.old.job.request Idle result) }
    ensures job { JobSays (core_seen (core_of D.seen) (K.opening desk.old) (K.view desk.new)) lane prepared.old.job prepared.new.job result }
    ensures begins { IfOk result (λ _. (K.view desk.old).alone ≡ true → Coherent (core_seen (core_of D.seen) (K.opening desk.old) (K.view desk.old))) }
    ensures numbered { (n : Numbered) → result ≡ Ok (Ended n) → IsNumbered (K.opening desk.old).value.last (calls_of (events_of (K.view desk.new).seen)) n.number (record { lane = lane; call = prepared.old.job.request.call; reply = n.reply }) }
{
    let answer = turn_begin_job(desk, lane, prepared)?;
    match answer {
        Ok(begun) => Ok(began(begun)),
        Err(why) => {
            if lacks_room(&why) {
                step_room(desk, lane, prepared.picked, page)
            } else {
                Ok(BeginStep::Waits)
            }
        }
    }
}

/// A call for which a flush has failed is skipped.
fn step_marked<D: Die, K: Desk<System<D, Job>>>(
    desk: &mut K,
    lane: u32,
    request: &Request,
) -> Result<BeginStep, Worn>
    requires free { K.is_free desk.old }
    requires acts { ActsFor (core_of D.seen) (K.opening desk.old) (K.view desk.old) (Lane lane) }
    requires lane { IsMarked (core_seen (core_of D.seen) (K.opening desk.old) (K.view desk.old)) lane }
    requires small { IsSmall (K.opening desk.old).value }
    ensures free { K.is_free desk.new }
    ensures worn { IfErr result (λ x. IsWorn x.count (K.view desk.new)) }
    ensures turn { (K.table desk.new ≡ K.table desk.old) × (K.opening desk.new ≡ K.opening desk.old) }
    ensures did { Does (K.view desk.old) (K.view desk.new) (StepSays D.seen (K.opening desk.old) (K.view desk.old) (K.view desk.new) lane request.now Marked result) }
    ensures begins { IfOk result (λ _. (K.view desk.old).alone ≡ true → Coherent (core_seen (core_of D.seen) (K.opening desk.old) (K.view desk.old))) }
    ensures numbered { (n : Numbered) → result ≡ Ok (Ended n) → IsNumbered (K.opening desk.old).value.last (calls_of (events_of (K.view desk.new).seen)) n.number (record { lane = lane; call = request.now.call; reply = n.reply }) }
{
    let answer = turn_skip(desk, lane, request, true)?;
    match answer {
        Ok(numbered) => Ok(BeginStep::Ended(numbered)),
        Err(_) => Ok(BeginStep::Waits),
    }
}

/// Makes one step of a prepared data call or `sync` that hasn't begun, by way of `page`. Without a mark it is tried: it is refused and has
/// ended, it begins, or, where it has no room, the first possible event for room at its side is made. With a mark it is skipped, with a fault.
/// Where it began its job suits it, and else the job is as it was. Where the pass is alone, the core as it was seen first is coherent.
pub fn begin_step<D: Die, K: Desk<System<D, Job>>>(
    desk: &mut K,
    lane: u32,
    prepared: &mut Prepared,
    page: &mut Page,
    stage: Stage,
) -> Result<BeginStep, Worn>
    requires free { K.is_free desk.old }
    requires acts { ActsFor (core_of D.seen) (K.opening desk.old) (K.view desk.old) (Lane lane) }
    requires lane { IsIdleWith (is_marked stage) (core_seen (core_of D.seen) (K.opening desk.old) (K.view desk.old)) lane }
    requires prepared { IsPrepared prepared.old.job.request prepared.old.job }
    requires kind { (is_data prepared.old.job.request.call ≡ true) ⊎ (is_sync prepared.old.job.request.call ≡ true) }
    requires small { IsSmall (K.opening desk.old).value }
    ensures free { K.is_free desk.new }
    ensures worn { IfErr result (λ x. IsWorn x.count (K.view desk.new)) }
    ensures turn { (K.table desk.new ≡ K.table desk.old) × (K.opening desk.new ≡ K.opening desk.old) }
    ensures did { Does (K.view desk.old) (K.view desk.new) (StepSays D.seen (K.opening desk.old) (K.view desk.old) (K.view desk.new) lane prepared.old.job.request stage result) }
    ensures job { JobSays (core_seen (core_of D.seen) (K.opening desk.old) (K.view desk.new)) lane prepared.old.job prepared.new.job result }
    ensures begins { IfOk result (λ _. (K.view desk.old).alone ≡ true → Coherent (core_seen (core_of D.seen) (K.opening desk.old) (K.view desk.old))) }
    ensures numbered { (n : Numbered) → result ≡ Ok (Ended n) → IsNumbered (K.opening desk.old).value.last (calls_of (events_of (K.view desk.new).seen)) n.number (record { lane = lane; call = prepared.old.job.request.call; reply = n.reply }) }
{
    match stage {
        Stage::Idle => step_idle(desk, lane, prepared, page),
        Stage::Marked => step_marked(desk, lane, &prepared.job.request),
    }
}
