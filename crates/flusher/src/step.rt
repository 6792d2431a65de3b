//! One step of a flusher.
ghost use Rattle.std.specs.Prelude.{◌≡◌, ◌≤◌, ◌^◌, IfErr};
ghost use Rattle.turn_cell.specs.Steps.{IsWorn};
ghost use Rattle.core_state.specs.declared.actor.Actor.TheVariants.{Flusher};
ghost use Rattle.core_state.specs.Happens.{HoldsNone};
ghost use Rattle.system_state.specs.Cores.{core_of};
ghost use Rattle.desk_turns.specs.Passing.{ActsFor, core_seen, Does};
ghost use Rattle.flusher.specs.Flusher.{StepSays, flushed_step};

use core_state::Actor;
use event_turns::{Flushed, System, flush_once, turn_closing};
use flash_die::Die;
use page_base::Page;
use system_state::CallJob;
use turn_cell::{Desk, Worn};

/// What a step of a flusher answers.
#[derive(Clone, Copy, Debug, PartialEq, Eq)]
pub enum FlusherStep {
    /// A die went out for a block and came home.
    On,
    /// No block is unclean, or the dies of all unclean blocks are out.
    Waits,
    /// Every lane has left, and no call is in flight.
    Closing,
}

fn flushed_step(flushed: Flushed) -> FlusherStep
    ensures { result ≡ flushed_step flushed }
{
    match flushed {
        Flushed::Wrote { .. } | Flushed::Failed { .. } => FlusherStep::On,
        Flushed::Nothing | Flushed::Busy { .. } => FlusherStep::Waits,
    }
}

/// Writes the first unclean block whose die is at home, by way of `page`, unless the system is closing.
pub fn flusher_step<D: Die, J: CallJob, K: Desk<System<D, J>>>(
    desk: &mut K,
    flusher: u32,
    page: &mut Page,
) -> Result<FlusherStep, Worn>
    requires free { K.is_free desk.old }
    requires acts { ActsFor (core_of D.seen) (K.opening desk.old) (K.view desk.old) (Flusher flusher) }
    requires none { HoldsNone (core_seen (core_of D.seen) (K.opening desk.old) (K.view desk.old)) (Flusher flusher) }
    requires small { (K.opening desk.old).value.places.writes ≤ 2 ^ 62 }
    ensures free { K.is_free desk.new }
    ensures worn { IfErr result (λ x. IsWorn x.count (K.view desk.new)) }
    ensures turn { (K.table desk.new ≡ K.table desk.old) × (K.opening desk.new ≡ K.opening desk.old) }
    ensures did { Does (K.view desk.old) (K.view desk.new) (StepSays D.seen (K.opening desk.old) (K.view desk.old) (K.view desk.new) flusher result) }
{
    let closes = turn_closing(desk)?;
    if closes {
        return Ok(FlusherStep::Closing);
    }
    let flushed = flush_once(desk, Actor::Flusher(flusher), page)?;
    Ok(flushed_step(flushed))
}
