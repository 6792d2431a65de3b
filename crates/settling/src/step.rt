//! One step of the last sync.
ghost use Rattle.std.specs.Prelude.{◌≡◌, ◌≤◌, ◌^◌, IfErr};
ghost use Rattle.turn_cell.specs.Steps.{IsWorn};
ghost use Rattle.core_state.specs.declared.actor.Actor.TheVariants.{Closer};
ghost use Rattle.system_state.specs.Cores.{core_of};
ghost use Rattle.desk_turns.specs.Passing.{ActsFor, core_seen, Does};
ghost use Rattle.core_closing.specs.Kept.{MaySettle};
ghost use Rattle.settling.specs.Steps.{StepSays, stepped};

use crate::homecoming::{block_home, page_home};
use crate::next::Next;
use crate::turn::turn_next;
use flash_die::Die;
use page_base::Page;
use page_steps::System;
use system_state::CallJob;
use turn_cell::{Desk, Worn};

/// What a step of the last sync answers.
#[derive(Clone, Copy, Debug, PartialEq, Eq)]
pub enum SettleStep {
    /// A block or a page of the meta data was written.
    On,
    /// All is stored.
    Done,
    /// The die failed to write: its count of faults has risen.
    Failed,
    /// The die of the next write is out: others are to go on first.
    Waits,
}

fn stepped(good: bool) -> SettleStep
    ensures { result ≡ stepped good }
{
    if good {
        SettleStep::On
    } else {
        SettleStep::Failed
    }
}

/// Makes the next write of the last sync, by way of `page`: of the first unclean block whose die is at home, or, where no block is unclean,
/// of the next page of the meta data.
pub fn settle_step<D: Die, J: CallJob, K: Desk<System<D, J>>>(
    desk: &mut K,
    page: &mut Page,
) -> Result<SettleStep, Worn>
    requires free { K.is_free desk.old }
    requires acts { ActsFor (core_of D.seen) (K.opening desk.old) (K.view desk.old) Closer }
    requires may { MaySettle (core_seen (core_of D.seen) (K.opening desk.old) (K.view desk.old)) }
    requires small { (K.opening desk.old).value.places.writes ≤ 2 ^ 62 }
    ensures free { K.is_free desk.new }
    ensures worn { IfErr result (λ x. IsWorn x.count (K.view desk.new)) }
    ensures turn { (K.table desk.new ≡ K.table desk.old) × (K.opening desk.new ≡ K.opening desk.old) }
    ensures did { Does (K.view desk.old) (K.view desk.new) (StepSays D.seen (K.opening desk.old) (K.view desk.old) (K.view desk.new) result) }
{
    let next = turn_next(desk, page)?;
    match next {
        Next::Block { errand } => {
            let good = block_home(desk, errand, page)?;
            Ok(stepped(good))
        }
        Next::Meta { errand } => {
            let good = page_home(desk, errand, page)?;
            Ok(stepped(good))
        }
        Next::Busy { .. } => Ok(SettleStep::Waits),
        Next::Stored => Ok(SettleStep::Done),
    }
}
