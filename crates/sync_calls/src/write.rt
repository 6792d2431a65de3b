//! One write of a `sync`: of a block, or of a page of the meta data.
ghost use Rattle.std.specs.Prelude.{◌≡◌, Ok, ◌<◌, ◌≤◌, ◌+◌, ◌^◌, IfErr};
ghost use Rattle.turn_cell.specs.Steps.{IsWorn};
ghost use Rattle.page_base.specs.Drive.{meta_pages};
ghost use Rattle.plain_files.specs.declared.calls.Numbered.{Numbered};
ghost use Rattle.plain_files.specs.declared.calls.Request.{Request};
ghost use Rattle.core_state.specs.declared.actor.Actor.TheVariants.{Lane};
ghost use Rattle.system_state.specs.Cores.{core_of};
ghost use Rattle.desk_turns.specs.Passing.{ActsFor, core_seen, Does};
ghost use Rattle.sync_calls.specs.declared.stages.Stage.TheVariants.{Flush as ToFlush, Store as ToStore};
ghost use Rattle.sync_calls.specs.declared.stages.SyncStep.TheVariants.{Replied};
ghost use Rattle.sync_calls.specs.Stages.{AtStage, StepSays, flushed, refused, stored};

use crate::homecoming::{block_home, page_home};
use crate::stages::{Stage, SyncStep};
use core_state::Actor;
use flash_die::Die;
use flushes::turn_flush_out;
use page_base::Page;
use quick_calls::{MetaOut, System, turn_meta_out};
use system_state::{CallJob, NotYet};
use turn_cell::{Desk, Worn};

fn flushed(good: bool) -> SyncStep
    ensures { result ≡ flushed good }
{
    let stage = if good { Stage::Flush } else { Stage::Failed };
    SyncStep::On { stage }
}

fn refused(y: NotYet) -> SyncStep
    ensures { result ≡ refused y }
{
    match y {
        NotYet::DieBusy { .. } => SyncStep::Waits,
        _ => SyncStep::On {
            stage: Stage::Store { number: 0 },
        },
    }
}

fn stored(good: bool, number: u32) -> SyncStep
    ensures { result ≡ stored good number }
{
    let stage = if good {
        Stage::Store { number }
    } else {
        Stage::Failed
    };
    SyncStep::On { stage }
}

/// Writes the first unclean block whose die is at home, by way of `page`. Where none is unclean the pages of the meta data come next.
pub(crate) fn write_block<D: Die, J: CallJob, K: Desk<System<D, J>>>(
    desk: &mut K,
    lane: u32,
    page: &mut Page,
) -> Result<SyncStep, Worn>
    requires free { K.is_free desk.old }
    requires acts { ActsFor (core_of D.seen) (K.opening desk.old) (K.view desk.old) (Lane lane) }
    requires at { (request : Request) × AtStage (K.view desk.old).alone (core_seen (core_of D.seen) (K.opening desk.old) (K.view desk.old)) lane request (meta_pages (K.opening desk.old).value.sizes.blocks) ToFlush }
    requires small { (K.opening desk.old).value.places.writes ≤ 2 ^ 62 }
    ensures free { K.is_free desk.new }
    ensures worn { IfErr result (λ x. IsWorn x.count (K.view desk.new)) }
    ensures turn { (K.table desk.new ≡ K.table desk.old) × (K.opening desk.new ≡ K.opening desk.old) }
    ensures did { (request : Request) → AtStage (K.view desk.old).alone (core_seen (core_of D.seen) (K.opening desk.old) (K.view desk.old)) lane request (meta_pages (K.opening desk.old).value.sizes.blocks) ToFlush →
        Does (K.view desk.old) (K.view desk.new) (StepSays D.seen (K.opening desk.old) (K.view desk.old) (K.view desk.new) lane request (meta_pages (K.opening desk.old).value.sizes.blocks) ToFlush result) }
    ensures open_still { (n : Numbered) → result ≡ Ok (Replied n) → ⊥ }
{
    let answer = turn_flush_out(desk, Actor::Lane(lane), page)?;
    match answer {
        Ok(errand) => {
            let good = block_home(desk, lane, errand, page)?;
            Ok(flushed(good))
        }
        Err(y) => Ok(refused(y)),
    }
}

/// Writes the page of this number of the meta data, by way of `page`. Where others have made a block unclean before the first page went out,
/// that one is to be flushed first.
pub(crate) fn write_page<D: Die, J: CallJob, K: Desk<System<D, J>>>(
    desk: &mut K,
    lane: u32,
    number: u32,
    page: &mut Page,
) -> Result<SyncStep, Worn>
    requires free { K.is_free desk.old }
    requires acts { ActsFor (core_of D.seen) (K.opening desk.old) (K.view desk.old) (Lane lane) }
    requires at { (request : Request) × AtStage (K.view desk.old).alone (core_seen (core_of D.seen) (K.opening desk.old) (K.view desk.old)) lane request (meta_pages (K.opening desk.old).value.sizes.blocks) (ToStore number) }
    requires below { number < meta_pages (K.opening desk.old).value.sizes.blocks }
    requires few { number + 1 < 2 ^ 32 }
    requires small { (K.opening desk.old).value.places.writes ≤ 2 ^ 62 }
    ensures free { K.is_free desk.new }
    ensures worn { IfErr result (λ x. IsWorn x.count (K.view desk.new)) }
    ensures turn { (K.table desk.new ≡ K.table desk.old) × (K.opening desk.new ≡ K.opening desk.old) }
    ensures did { (request : Request) → AtStage (K.view desk.old).alone (core_seen (core_of D.seen) (K.opening desk.old) (K.view desk.old)) lane request (meta_pages (K.opening desk.old).value.sizes.blocks) (ToStore number) →
        Does (K.view desk.old) (K.view desk.new) (StepSays D.seen (K.opening desk.old) (K.view desk.old) (K.view desk.new) lane request (meta_pages (K.opening desk.old).value.sizes.blocks) (ToStore number) result) }
    ensures open_still { (n : Numbered) → result ≡ Ok (Replied n) → ⊥ }
{
    let out = turn_meta_out(desk, Actor::Lane(lane), number, page)?;
    match out {
        MetaOut::Sent { errand } => {
            let good = page_home(desk, lane, errand, page)?;
            Ok(stored(good, number + 1))
        }
        MetaOut::Busy { .. } => Ok(SyncStep::Waits),
        MetaOut::Unclean => Ok(SyncStep::On {
            stage: Stage::Flush,
        }),
    }
}
