//! The work of a worker.
ghost use Rattle.std.specs.Prelude.{◌≡◌, ◌≤◌, ◌^◌, IfErr};
ghost use Rattle.turn_cell.specs.Steps.{IsWorn};
ghost use Rattle.core_state.specs.declared.actor.Actor.TheVariants.{Worker};
ghost use Rattle.system_state.specs.Cores.{core_of};
ghost use Rattle.desk_turns.specs.Passing.{ActsFor, core_seen, Does};
ghost use Rattle.drive_worker.specs.Serving.{IsFreeWorker, LoopSays};

use crate::serve::{Served, serve_one};
use call_job::Job;
use fill_steps::System;
use flash_die::Die;
use gates::Gate;
use std::sync::Wait;
use turn_cell::{Desk, Seated, Worn};

/// Serves calls of the queue, one after the other, until the queue is empty and every lane has left. Where the queue is empty before, it lets
/// others go on. The worker has no call and no die before and after.
pub fn worker_loop<'a, D: Die, R: Wait, G: Gate>(
    desk: &mut Seated<'a, System<D, Job>, R>,
    gate: &G,
    worker: u32,
) -> Result<(), Worn>
    requires free { ⟦<Seated<'a, System<D, Job>, R> as Desk<System<D, Job>>>⟧.is_free desk.old }
    requires acts { ActsFor (core_of D.seen) (⟦<Seated<'a, System<D, Job>, R> as Desk<System<D, Job>>>⟧.opening desk.old) (⟦<Seated<'a, System<D, Job>, R> as Desk<System<D, Job>>>⟧.view desk.old) (Worker worker) }
    requires worker { IsFreeWorker (core_seen (core_of D.seen) (⟦<Seated<'a, System<D, Job>, R> as Desk<System<D, Job>>>⟧.opening desk.old) (⟦<Seated<'a, System<D, Job>, R> as Desk<System<D, Job>>>⟧.view desk.old)) worker }
    requires small { (⟦<Seated<'a, System<D, Job>, R> as Desk<System<D, Job>>>⟧.opening desk.old).value.places.reads ≤ 2 ^ 62 }
    ensures free { ⟦<Seated<'a, System<D, Job>, R> as Desk<System<D, Job>>>⟧.is_free desk.new }
    ensures worn { IfErr result (λ x. IsWorn x.count (⟦<Seated<'a, System<D, Job>, R> as Desk<System<D, Job>>>⟧.view desk.new)) }
    ensures turn { (⟦<Seated<'a, System<D, Job>, R> as Desk<System<D, Job>>>⟧.table desk.new ≡ ⟦<Seated<'a, System<D, Job>, R> as Desk<System<D, Job>>>⟧.table desk.old) × (⟦<Seated<'a, System<D, Job>, R> as Desk<System<D, Job>>>⟧.opening desk.new ≡ ⟦<Seated<'a, System<D, Job>, R> as Desk<System<D, Job>>>⟧.opening desk.old) }
    ensures did { Does (⟦<Seated<'a, System<D, Job>, R> as Desk<System<D, Job>>>⟧.view desk.old) (⟦<Seated<'a, System<D, Job>, R> as Desk<System<D, Job>>>⟧.view desk.new) (LoopSays D.seen (⟦<Seated<'a, System<D, Job>, R> as Desk<System<D, Job>>>⟧.opening desk.old) (⟦<Seated<'a, System<D, Job>, R> as Desk<System<D, Job>>>⟧.view desk.new) worker result) }
{
    let rt = desk.runtime();
    for _ in rt.forever() {
        let served = serve_one(desk, gate, worker)?;
        match served {
            Served::One { .. } => {}
            Served::Empty { closing } => {
                if closing {
                    return Ok(());
                }
                desk.pause();
            }
        }
    }
    unreachable!()
}
