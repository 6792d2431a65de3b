//! Many threads, each with a pass.
ghost use Rattle.std.specs.Prelude.{◌≡◌, ◌<◌, ℕ, All, length, slice_index_or};
ghost use Rattle.turn_example.specs.Crew.{IsReady, IsDone};
ghost use Rattle.turn_example.specs.Counting.{start_of};
ghost use Rattle.turn_example.specs.declared.job.Job.{Job};

use crate::add::add_seated;
use crate::counter::Counter;
use crate::job::Job;
use std::sync::Wait;
use std::thread;
use std::thread::Threads;
use turn_cell::Turn;

/// One job, by its own pass.
#[tactic(auto, unfolding(crate::specs::Crew::IsReady, crate::specs::Crew::IsDone))]
pub fn run_job<R: Wait>(rt: &R, turn: &Turn<Counter>, job: &mut Job)
    requires { IsReady turn.now job.old }
    ensures { IsDone turn.now job.old job.new }
{
    let Some(pass) = job.pass.take() else {
        unreachable!()
    };
    let (pass, answer) = add_seated(rt, turn, pass, job.actor, job.amount);
    job.pass = Some(pass);
    job.total = answer.ok();
}

/// All jobs, each in a thread of its own.
pub fn run_all<R: Threads + Wait + Sync>(rt: &R, turn: &Turn<Counter>, jobs: &mut [Job])
    requires { All (λ j. IsReady turn.now j) jobs.old }
    ensures len { length jobs.new ≡ length jobs.old }
    ensures done { (i : ℕ) (d : Job) → i < length jobs.old → IsDone turn.now (slice_index_or jobs.old i d) (slice_index_or jobs.new i d) }
{
    if jobs.is_empty() {
        return;
    }
    let threads = jobs.len();
    thread::for_each_mut(rt, jobs, threads, &|_, job| run_job(rt, turn, job));
}
