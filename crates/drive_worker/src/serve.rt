//! A worker serves one call of the queue.
ghost use Rattle.std.specs.Prelude.{◌≡◌, ℕ, ◌≤◌, ◌^◌, None, IfOk, IfErr};
ghost use Rattle.turn_cell.specs.Desks.{IsFreeAlone, view_alone, opening_alone, table_alone};
ghost use Rattle.turn_cell.specs.Steps.{IsWorn};
ghost use Rattle.core_state.specs.declared.actor.Actor.TheVariants.{Worker};
ghost use Rattle.system_state.specs.Cores.{core_of};
ghost use Rattle.desk_turns.specs.Passing.{ActsFor, core_seen, Does};
ghost use Rattle.fill_steps.specs.Books.{opening_in};
ghost use Rattle.drive_worker.specs.Serving.{IsFreeWorker, ServeSays, closes};

use crate::call::{serve_call, serve_call_alone};
use call_job::Job;
use fill_steps::{System, turn_fetch};
use flash_die::Die;
use gates::Gate;
use std::sync::Wait;
use system_state::NotYet;
use turn_cell::{Alone, Desk, Seated, Worn};

/// What a worker's try to serve a call answers.
#[derive(Clone, Copy, Debug, PartialEq, Eq)]
pub enum Served {
    /// The first call of the queue was served: it was this lane's.
    One { lane: u32 },
    /// The queue was empty; whether every lane has left.
    Empty { closing: bool },
}

fn closes(refused: NotYet) -> bool
    ensures { result ≡ closes refused }
{
    matches!(refused, NotYet::QueueEmpty { closing: true })
}

/// Serves the first call of the queue: it is fetched, its pages are gathered, its function runs, without the turn and behind the gate, and it
/// is reported; where a die failed to read one of its pages, it is reported with its mark and without a run. Where the queue is empty nothing
/// is done. The worker has no call and no die before and after. It waits where the die of a page is out. At `Worn` no call has ended.
pub fn serve_one<'a, D: Die, R: Wait, G: Gate>(
    desk: &mut Seated<'a, System<D, Job>, R>,
    gate: &G,
    worker: u32,
) -> Result<Served, Worn>
    requires free { ⟦<Seated<'a, System<D, Job>, R> as Desk<System<D, Job>>>⟧.is_free desk.old }
    requires acts { ActsFor (core_of D.seen) (⟦<Seated<'a, System<D, Job>, R> as Desk<System<D, Job>>>⟧.opening desk.old) (⟦<Seated<'a, System<D, Job>, R> as Desk<System<D, Job>>>⟧.view desk.old) (Worker worker) }
    requires worker { IsFreeWorker (core_seen (core_of D.seen) (⟦<Seated<'a, System<D, Job>, R> as Desk<System<D, Job>>>⟧.opening desk.old) (⟦<Seated<'a, System<D, Job>, R> as Desk<System<D, Job>>>⟧.view desk.old)) worker }
    requires small { (⟦<Seated<'a, System<D, Job>, R> as Desk<System<D, Job>>>⟧.opening desk.old).value.places.reads ≤ 2 ^ 62 }
    ensures free { ⟦<Seated<'a, System<D, Job>, R> as Desk<System<D, Job>>>⟧.is_free desk.new }
    ensures worn { IfErr result (λ x. IsWorn x.count (⟦<Seated<'a, System<D, Job>, R> as Desk<System<D, Job>>>⟧.view desk.new)) }
    ensures turn { (⟦<Seated<'a, System<D, Job>, R> as Desk<System<D, Job>>>⟧.table desk.new ≡ ⟦<Seated<'a, System<D, Job>, R> as Desk<System<D, Job>>>⟧.table desk.old) × (⟦<Seated<'a, System<D, Job>, R> as Desk<System<D, Job>>>⟧.opening desk.new ≡ ⟦<Seated<'a, System<D, Job>, R> as Desk<System<D, Job>>>⟧.opening desk.old) }
    ensures did { Does (⟦<Seated<'a, System<D, Job>, R> as Desk<System<D, Job>>>⟧.view desk.old) (⟦<Seated<'a, System<D, Job>, R> as Desk<System<D, Job>>>⟧.view desk.new) (ServeSays D.seen (⟦<Seated<'a, System<D, Job>, R> as Desk<System<D, Job>>>⟧.opening desk.old) (⟦<Seated<'a, System<D, Job>, R> as Desk<System<D, Job>>>⟧.view desk.old) (⟦<Seated<'a, System<D, Job>, R> as Desk<System<D, Job>>>⟧.view desk.new) worker result) }
{
    let answer = turn_fetch(desk, worker)?;
    match answer {
        Ok((lane, job)) => {
            serve_call(desk, gate, worker, lane, job)?;
            Ok(Served::One { lane })
        }
        Err(refused) => Ok(Served::Empty {
            closing: closes(refused),
        }),
    }
}

/// The same by the only pass, with all dies at home. It never waits, and it ends: a call over the only pass serves its own job so.
pub fn serve_one_alone<D: Die, G: Gate>(
    alone: &mut Alone<System<D, Job>>,
    gate: &G,
    worker: u32,
) -> Result<Served, Worn>
    requires free { IsFreeAlone opening_in alone.old }
    requires worker { IsFreeWorker (core_seen (core_of D.seen) (opening_alone opening_in alone.old) (view_alone alone.old)) worker }
    requires home { (die : ℕ) → ((core_seen (core_of D.seen) (opening_alone opening_in alone.old) (view_alone alone.old)).dies die).out ≡ None }
    requires small { (opening_alone opening_in alone.old).value.places.reads ≤ 2 ^ 62 }
    ensures free { IsFreeAlone opening_in alone.new }
    ensures worn { IfErr result (λ x. IsWorn x.count (view_alone alone.new)) }
    ensures turn { (table_alone alone.new ≡ table_alone alone.old) × (opening_alone opening_in alone.new ≡ opening_alone opening_in alone.old) }
    ensures did { Does (view_alone alone.old) (view_alone alone.new) (ServeSays D.seen (opening_alone opening_in alone.old) (view_alone alone.old) (view_alone alone.new) worker result) }
    ensures home { IfOk result (λ _. (die : ℕ) → ((core_seen (core_of D.seen) (opening_alone opening_in alone.old) (view_alone alone.new)).dies die).out ≡ None) }
{
    let answer = turn_fetch(alone, worker)?;
    match answer {
        Ok((lane, job)) => {
            serve_call_alone(alone, gate, worker, lane, job)?;
            Ok(Served::One { lane })
        }
        Err(refused) => Ok(Served::Empty {
            closing: closes(refused),
        }),
    }
}
