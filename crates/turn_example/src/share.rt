//! Work shared out to threads, each with a pass, and gathered again.
ghost use Rattle.std.specs.Prelude.{◌≡◌, ◌+◌, ◌∷◌, ◌++◌, ◌%◌, ◌^◌, ◌<◌, ℕ, [], length, sum, IfOk, IfErr};
ghost use Rattle.turn_cell.specs.Passes.{view, IsPassOf, IsFree};
ghost use Rattle.turn_cell.specs.Teams.{IsWhole, left_of, right_of};
ghost use Rattle.turn_example.specs.Counting.{Stands, start_of};
ghost use Rattle.turn_example.specs.declared.counter.Add.{Add};
ghost use Rattle.turn_example.specs.declared.counter.Start.{Start};
ghost use Rattle.turn_example.specs.declared.counter.Counter.{Counter};
ghost use Rattle.turn_cell.specs.declared.pass.Pass.{Pass};
ghost use Rattle.turn_example.specs.Ends.{IsWornAt, HadTo};
ghost use Rattle.turn_example.specs.Shares.{Each, IsNew, IsServed, IsSharing, IsGathering, IsFreeJob, all_in, amount_sum};

use crate::counter::Counter;
use crate::crew::run_all;
use crate::ends::GiveUp;
use crate::job::Job;
use std::alloc::{AllocError, Global};
use std::sync::Wait;
use std::thread::Threads;
use turn_cell::{Closed, Pass, Turn};

/// A job with the next pass.
fn seat(turn: &Turn<Counter>, root: &mut Pass<Counter>, actor: u64, amount: u64) -> Job
    requires root { IsPassOf start_of turn.now root.old × IsFree root.old × ((view root.old).number ≡ 0) }
    requires next { (view root.old).passes ≡ actor }
    ensures root { IsPassOf start_of turn.now root.new × IsFree root.new × (view root.new ≡ left_of (view root.old)) }
    ensures pass { (p : Pass Counter Start Add) × IsFreeJob turn.now result p × (view p ≡ right_of (view root.old)) }
    ensures work { (result.actor ≡ (view root.old).passes) × (result.amount ≡ amount) }
{
    let pass = turn.split(root);
    Job {
        pass: Some(pass),
        actor,
        amount,
        total: None,
    }
}

/// A job for each amount, with a pass of its own.
pub fn seat_all(
    alloc: Global,
    turn: &Turn<Counter>,
    root: &mut Pass<Counter>,
    amounts: &[u64],
) -> Result<Vec<Job>, AllocError>
    requires root { IsSharing turn.now [] root.old }
    ensures root { IfOk result (λ js. IsSharing turn.now js.items root.new) }
    ensures new { IfOk result (λ js. Each (IsNew turn.now) js.items) }
    ensures sum { IfOk result (λ js. amount_sum js.items ≡ sum amounts.now) }
{
    let mut jobs = Vec::new(alloc);
    for &amount in amounts {
        let actor = jobs.len() as u64 + 1;
        jobs.push(seat(turn, root, actor, amount))?;
    }
    Ok(jobs)
}

/// Joins the pass of the last job that is left. It gives up only where that job's pass found the turn worn.
#[tactic(auto, unfolding(crate::specs::Shares::IsServed))]
fn join_last(
    turn: &Turn<Counter>,
    root: &mut Pass<Counter>,
    jobs: &mut Vec<Job>,
) -> Result<(), GiveUp>
    requires root { IsGathering turn.now jobs.old.items root.old }
    requires served { Each (IsServed turn.now) jobs.old.items }
    requires some { 0 < length jobs.old.items }
    ensures root { IfOk result (λ _. IsGathering turn.now jobs.new.items root.new) }
    ensures served { IfOk result (λ _. Each (IsServed turn.now) jobs.new.items) }
    ensures worn { IfErr result (IsWornAt turn.now) }
    ensures fewer { length jobs.new.items + 1 ≡ length jobs.old.items }
    ensures sum { IfOk result (λ _. all_in jobs.new.items root.new ≡ all_in jobs.old.items root.old) }
{
    let Some(job) = jobs.pop() else {
        unreachable!()
    };
    let Job { pass, total, .. } = job;
    let Some(pass) = pass else { unreachable!() };
    if total.is_none() {
        return Err(GiveUp::Worn(pass));
    }
    turn.join(root, pass);
    Ok(())
}

/// Joins the passes of all jobs, the last first. It gives up only where the pass of a job found the turn worn, and hands
/// that pass out.
pub fn join_all(
    turn: &Turn<Counter>,
    root: &mut Pass<Counter>,
    jobs: &mut Vec<Job>,
) -> Result<(), GiveUp>
    requires root { IsGathering turn.now jobs.old.items root.old }
    requires served { Each (IsServed turn.now) jobs.old.items }
    ensures worn { IfErr result (IsWornAt turn.now) }
    ensures root { IfOk result (λ _. IsGathering turn.now [] root.new) }
    ensures sum { IfOk result (λ _. all_in [] root.new ≡ all_in jobs.old.items root.old) }
{
    while !jobs.is_empty() {
        join_last(turn, root, jobs)?;
    }
    Ok(())
}

/// Adds all amounts, each by a thread with a pass of its own. In the end there is one history, whose sum they are. It
/// gives up only where memory ran out, or where a pass found the turn worn, which is handed out then.
pub fn add_all<R: Threads + Wait + Sync>(
    rt: &R,
    alloc: Global,
    counter: Counter,
    amounts: &[u64],
) -> Result<Closed<Counter>, GiveUp>
    requires { Stands counter (start_of counter) [] }
    ensures gave_up { IfErr result (HadTo (start_of counter)) }
    ensures whole { IfOk result (λ c. IsWhole (view c.front.pass.value)) }
    ensures total { IfOk result (λ c. c.book.total ≡ (counter.total + sum amounts.now) % 2 ^ 64) }
{
    let Ok((turn, mut root)) = Turn::new(alloc, counter, 0) else {
        return Err(GiveUp::NoMemory);
    };
    let Ok(mut jobs) = seat_all(alloc, &turn, &mut root, amounts) else {
        return Err(GiveUp::NoMemory);
    };
    run_all(rt, &turn, &mut jobs);
    join_all(&turn, &mut root, &mut jobs)?;
    Ok(turn.close(root))
}
