//! A `sync` begins.
ghost use Rattle.std.specs.Prelude.{◌≡◌, true, Ok, IfErr};
ghost use Rattle.turn_cell.specs.Steps.{IsWorn};
ghost use Rattle.page_base.specs.Drive.{meta_pages};
ghost use Rattle.plain_files.specs.declared.calls.Numbered.{Numbered};
ghost use Rattle.core_state.specs.declared.actor.Actor.TheVariants.{Lane};
ghost use Rattle.core_state.specs.Reach.{is_sync};
ghost use Rattle.system_state.specs.Cores.{core_of};
ghost use Rattle.desk_turns.specs.Passing.{ActsFor, core_seen, Does};
ghost use Rattle.quick_calls.specs.BegunAnswer.TheVariants.{Ended};
ghost use Rattle.quick_calls.specs.Words.{IsSmall};
ghost use Rattle.sync_calls.specs.declared.stages.Stage.TheVariants.{Idle, Flush as ToFlush};
ghost use Rattle.sync_calls.specs.declared.stages.SyncStep.TheVariants.{On, Replied};
ghost use Rattle.sync_calls.specs.Stages.{AtStage, StepSays};

use crate::stages::{Stage, SyncStep};
use dispatcher::Side;
use flash_die::Die;
use plain_files::Request;
use quick_calls::{Begun, System, turn_begin};
use system_state::CallJob;
use turn_cell::{Desk, Worn};

/// A call that was not refused flushes blocks next.
fn begun(answer: Begun) -> SyncStep
    requires { (n : Numbered) → answer ≡ Ended n → ⊥ }
    ensures { result ≡ On ToFlush }
{
    match answer {
        Begun::Started { .. } => SyncStep::On {
            stage: Stage::Flush,
        },
        Begun::Ended(_) => unreachable!(),
    }
}

/// The call begins, or is to wait. Nothing refuses a `sync`.
pub(crate) fn begin<D: Die, J: CallJob, K: Desk<System<D, J>>>(
    desk: &mut K,
    lane: u32,
    request: &Request,
) -> Result<SyncStep, Worn>
    requires free { K.is_free desk.old }
    requires acts { ActsFor (core_of D.seen) (K.opening desk.old) (K.view desk.old) (Lane lane) }
    requires at { AtStage (K.view desk.old).alone (core_seen (core_of D.seen) (K.opening desk.old) (K.view desk.old)) lane request.now (meta_pages (K.opening desk.old).value.sizes.blocks) Idle }
    requires kind { is_sync request.now.call ≡ true }
    requires small { IsSmall (K.opening desk.old).value }
    ensures free { K.is_free desk.new }
    ensures worn { IfErr result (λ x. IsWorn x.count (K.view desk.new)) }
    ensures turn { (K.table desk.new ≡ K.table desk.old) × (K.opening desk.new ≡ K.opening desk.old) }
    ensures did { Does (K.view desk.old) (K.view desk.new) (StepSays D.seen (K.opening desk.old) (K.view desk.old) (K.view desk.new) lane request.now (meta_pages (K.opening desk.old).value.sizes.blocks) Idle result) }
    ensures open_still { (n : Numbered) → result ≡ Ok (Replied n) → ⊥ }
{
    let mut side = Side::Host;
    let answer = turn_begin(desk, lane, request, &mut side)?;
    match answer {
        Ok(answer) => Ok(begun(answer)),
        Err(_) => Ok(SyncStep::Waits),
    }
}
