//! The run of a call's function by a worker.
ghost use Rattle.std.specs.Prelude.{◌≡◌, true};
ghost use Rattle.drive_worker.specs.Running.{MayRun, RanIf};

use call_job::Job;
use gates::Gate;

/// Lets others look in and runs the function of the lane's call, where all its pages were read. Takes no memory.
pub(crate) fn run_gathered<G: Gate>(gate: &G, lane: u32, read: bool, job: &mut Job)
    requires may { read ≡ true → MayRun job.old }
    ensures ran { RanIf read job.old job.new }
{
    if read {
        gate.before_run(lane);
        job.execute();
    }
}
