//! The work of a flusher.
ghost use Rattle.std.specs.Prelude.{◌≡◌, ◌≤◌, ◌^◌, IfErr};
ghost use Rattle.turn_cell.specs.Steps.{IsWorn};
ghost use Rattle.core_state.specs.declared.actor.Actor.TheVariants.{Flusher};
ghost use Rattle.core_state.specs.Happens.{HoldsNone};
ghost use Rattle.system_state.specs.Cores.{core_of};
ghost use Rattle.desk_turns.specs.Passing.{ActsFor, core_seen, Does};
ghost use Rattle.flusher.specs.Flusher.{LoopSays};

use crate::step::{FlusherStep, flusher_step};
use event_turns::System;
use flash_die::Die;
use page_base::Page;
use std::sync::Wait;
use system_state::CallJob;
use turn_cell::{Desk, Worn};

/// Writes unclean blocks by way of `page`, one after the other, until the system is closing: every lane has left, and no call is in flight.
/// Where nothing can be written it lets others go on. The flusher holds no die before and after.
pub fn flusher_loop<R: Wait, D: Die, J: CallJob, K: Desk<System<D, J>>>(
    rt: &R,
    desk: &mut K,
    flusher: u32,
    page: &mut Page,
) -> Result<(), Worn>
    requires free { K.is_free desk.old }
    requires acts { ActsFor (core_of D.seen) (K.opening desk.old) (K.view desk.old) (Flusher flusher) }
    requires none { HoldsNone (core_seen (core_of D.seen) (K.opening desk.old) (K.view desk.old)) (Flusher flusher) }
    requires small { (K.opening desk.old).value.places.writes ≤ 2 ^ 62 }
    ensures free { K.is_free desk.new }
    ensures worn { IfErr result (λ x. IsWorn x.count (K.view desk.new)) }
    ensures turn { (K.table desk.new ≡ K.table desk.old) × (K.opening desk.new ≡ K.opening desk.old) }
    ensures did { Does (K.view desk.old) (K.view desk.new) (LoopSays D.seen (K.opening desk.old) (K.view desk.new) flusher result) }
{
    for _ in rt.forever() {
        let step = flusher_step(desk, flusher, page)?;
        match step {
            FlusherStep::On => {}
            FlusherStep::Waits => desk.pause(),
            FlusherStep::Closing => return Ok(()),
        }
    }
    unreachable!()
}
