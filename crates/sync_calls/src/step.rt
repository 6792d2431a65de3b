//! One step of a `sync`.
ghost use Rattle.std.specs.Prelude.{◌≡◌, true, Ok, IfErr};
ghost use Rattle.turn_cell.specs.Events.{events_of};
ghost use Rattle.turn_cell.specs.Steps.{IsWorn};
ghost use Rattle.page_base.specs.Drive.{meta_pages};
ghost use Rattle.plain_files.specs.declared.calls.Numbered.{Numbered};
ghost use Rattle.core_state.specs.declared.actor.Actor.TheVariants.{Lane};
ghost use Rattle.core_state.specs.History.{calls_of};
ghost use Rattle.core_state.specs.Reach.{is_sync};
ghost use Rattle.system_state.specs.Cores.{core_of};
ghost use Rattle.desk_turns.specs.Passing.{ActsFor, core_seen, Does};
ghost use Rattle.quick_calls.specs.Words.{IsNumbered, IsSmall};
ghost use Rattle.sync_calls.specs.declared.stages.Stage.TheVariants.{Store as ToStore, Failed as HasFailed};
ghost use Rattle.sync_calls.specs.declared.stages.SyncStep.TheVariants.{Replied};
ghost use Rattle.sync_calls.specs.Stages.{AtStage, StepSays};

use crate::begin::begin;
use crate::end::finish;
use crate::stages::{Stage, SyncStep};
use crate::write::{write_block, write_page};
use flash_die::Die;
use page_base::Page;
use plain_files::Request;
use quick_calls::System;
use system_state::CallJob;
use turn_cell::{Desk, Worn};

/// The next page of the meta data is written, or the call ends.
fn store<D: Die, J: CallJob, K: Desk<System<D, J>>>(
    desk: &mut K,
    lane: u32,
    request: &Request,
    count: u32,
    number: u32,
    page: &mut Page,
    pages: &mut Vec<Page>,
) -> Result<SyncStep, Worn>
    requires free { K.is_free desk.old }
    requires acts { ActsFor (core_of D.seen) (K.opening desk.old) (K.view desk.old) (Lane lane) }
    requires at { AtStage (K.view desk.old).alone (core_seen (core_of D.seen) (K.opening desk.old) (K.view desk.old)) lane request.now count (ToStore number) }
    requires count { count ≡ meta_pages (K.opening desk.old).value.sizes.blocks }
    requires small { IsSmall (K.opening desk.old).value }
    ensures free { K.is_free desk.new }
    ensures worn { IfErr result (λ x. IsWorn x.count (K.view desk.new)) }
    ensures turn { (K.table desk.new ≡ K.table desk.old) × (K.opening desk.new ≡ K.opening desk.old) }
    ensures did { Does (K.view desk.old) (K.view desk.new) (StepSays D.seen (K.opening desk.old) (K.view desk.old) (K.view desk.new) lane request.now count (ToStore number) result) }
    ensures numbered { (n : Numbered) → result ≡ Ok (Replied n) → IsNumbered (K.opening desk.old).value.last (calls_of (events_of (K.view desk.new).seen)) n.number (record { lane = lane; call = request.now.call; reply = n.reply }) }
{
    if number < count {
        return write_page(desk, lane, number, page);
    }
    let numbered = finish(desk, lane, request, false, pages)?;
    Ok(SyncStep::Replied { numbered })
}

/// The call ends, since a write has failed.
fn fail<D: Die, J: CallJob, K: Desk<System<D, J>>>(
    desk: &mut K,
    lane: u32,
    request: &Request,
    pages: &mut Vec<Page>,
) -> Result<SyncStep, Worn>
    requires free { K.is_free desk.old }
    requires acts { ActsFor (core_of D.seen) (K.opening desk.old) (K.view desk.old) (Lane lane) }
    requires at { AtStage (K.view desk.old).alone (core_seen (core_of D.seen) (K.opening desk.old) (K.view desk.old)) lane request.now (meta_pages (K.opening desk.old).value.sizes.blocks) HasFailed }
    requires small { IsSmall (K.opening desk.old).value }
    ensures free { K.is_free desk.new }
    ensures worn { IfErr result (λ x. IsWorn x.count (K.view desk.new)) }
    ensures turn { (K.table desk.new ≡ K.table desk.old) × (K.opening desk.new ≡ K.opening desk.old) }
    ensures did { Does (K.view desk.old) (K.view desk.new) (StepSays D.seen (K.opening desk.old) (K.view desk.old) (K.view desk.new) lane request.now (meta_pages (K.opening desk.old).value.sizes.blocks) HasFailed result) }
    ensures numbered { (n : Numbered) → result ≡ Ok (Replied n) → IsNumbered (K.opening desk.old).value.last (calls_of (events_of (K.view desk.new).seen)) n.number (record { lane = lane; call = request.now.call; reply = n.reply }) }
{
    let numbered = finish(desk, lane, request, true, pages)?;
    Ok(SyncStep::Replied { numbered })
}

/// Makes the next step of a `sync`, by way of `page`: it begins; or writes the first unclean block whose die is at home, or the next page of
/// the meta data; or ends. `count` is how many pages the meta data has, and `pages` are any: none of them is used.
pub fn sync_step<D: Die, J: CallJob, K: Desk<System<D, J>>>(
    desk: &mut K,
    lane: u32,
    request: &Request,
    count: u32,
    stage: Stage,
    page: &mut Page,
    pages: &mut Vec<Page>,
) -> Result<SyncStep, Worn>
    requires free { K.is_free desk.old }
    requires acts { ActsFor (core_of D.seen) (K.opening desk.old) (K.view desk.old) (Lane lane) }
    requires at { AtStage (K.view desk.old).alone (core_seen (core_of D.seen) (K.opening desk.old) (K.view desk.old)) lane request.now count stage }
    requires kind { is_sync request.now.call ≡ true }
    requires count { count ≡ meta_pages (K.opening desk.old).value.sizes.blocks }
    requires small { IsSmall (K.opening desk.old).value }
    ensures free { K.is_free desk.new }
    ensures worn { IfErr result (λ x. IsWorn x.count (K.view desk.new)) }
    ensures turn { (K.table desk.new ≡ K.table desk.old) × (K.opening desk.new ≡ K.opening desk.old) }
    ensures did { Does (K.view desk.old) (K.view desk.new) (StepSays D.seen (K.opening desk.old) (K.view desk.old) (K.view desk.new) lane request.now count stage result) }
    ensures numbered { (n : Numbered) → result ≡ Ok (Replied n) → IsNumbered (K.opening desk.old).value.last (calls_of (events_of (K.view desk.new).seen)) n.number (record { lane = lane; call = request.now.call; reply = n.reply }) }
{
    match stage {
        Stage::Idle => begin(desk, lane, request),
        Stage::Flush => write_block(desk, lane, page),
        Stage::Store { number } => store(desk, lane, request, count, number, page, pages),
        Stage::Failed => fail(desk, lane, request, pages),
    }
}
