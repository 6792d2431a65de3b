//! A call with a function that has begun for the drive, over the only pass.
ghost use Rattle.std.specs.Prelude.{◌≡◌, ℕ, true, None, Ok, IfOk, IfErr};
ghost use Rattle.turn_cell.specs.Desks.{IsFreeAlone, view_alone, opening_alone, table_alone};
ghost use Rattle.turn_cell.specs.Events.{events_of};
ghost use Rattle.turn_cell.specs.Steps.{IsWorn};
ghost use Rattle.dispatcher.specs.declared.side.Side.TheVariants.{Drive};
ghost use Rattle.plain_files.specs.declared.calls.Numbered.{Numbered};
ghost use Rattle.core_state.specs.EndEvent.{is_reported};
ghost use Rattle.core_state.specs.History.{calls_of};
ghost use Rattle.core_solo.specs.Alone.{IsAlone};
ghost use Rattle.system_state.specs.Cores.{core_of};
ghost use Rattle.desk_turns.specs.Passing.{core_seen, Does};
ghost use Rattle.call_finishes.specs.Books.{opening_in};
ghost use Rattle.call_finishes.specs.Gathering.{call_at};
ghost use Rattle.call_finishes.specs.Words.{IsNumbered, IsSmall};
ghost use Rattle.lambda_finishes.specs.Finishing.{IsBegunAt, AreOfCall, LambdaSays};
ghost use Rattle.lambda_finishes.specs.Waiting.{IsOut, CollectedSays};

use crate::waiting::ask;
use call_finishes::{System, turn_submit};
use call_job::Job;
use drive_worker::serve_one_alone;
use flash_die::Die;
use gates::Gate;
use plain_files::Numbered;
use turn_cell::{Alone, Worn};

/// Ends a call that was reported.
fn collect_reported<D: Die>(alone: &mut Alone<System<D, Job>>, lane: u32) -> Result<Numbered, Worn>
    requires free { IsFreeAlone opening_in alone.old }
    requires out { IsOut (core_seen (core_of D.seen) (opening_alone opening_in alone.old) (view_alone alone.old)) lane (call_at (core_seen (core_of D.seen) (opening_alone opening_in alone.old) (view_alone alone.old)) lane).claim.request }
    requires reported { is_reported (call_at (core_seen (core_of D.seen) (opening_alone opening_in alone.old) (view_alone alone.old)) lane).phase ≡ true }
    requires small { IsSmall (opening_alone opening_in alone.old).value }
    ensures free { IsFreeAlone opening_in alone.new }
    ensures worn { IfErr result (λ x. IsWorn x.count (view_alone alone.new)) }
    ensures turn { (table_alone alone.new ≡ table_alone alone.old) × (opening_alone opening_in alone.new ≡ opening_alone opening_in alone.old) }
    ensures did { Does (view_alone alone.old) (view_alone alone.new) (CollectedSays D.seen (opening_alone opening_in alone.old) (view_alone alone.old) (view_alone alone.new) lane (call_at (core_seen (core_of D.seen) (opening_alone opening_in alone.old) (view_alone alone.old)) lane).claim.request result) }
    ensures numbered { (n : Numbered) → result ≡ Ok n → IsNumbered (opening_alone opening_in alone.old).value.last (calls_of (events_of (view_alone alone.new).seen)) n.number (record { lane = lane; call = (call_at (core_seen (core_of D.seen) (opening_alone opening_in alone.old) (view_alone alone.old)) lane).claim.request.call; reply = n.reply }) }
{
    let asked = ask(alone, lane)?;
    match asked {
        Some(numbered) => Ok(numbered),
        None => unreachable!(),
    }
}

/// Puts a call with a function that has begun for the drive, and is alone, into the queue, serves it as worker 0, and ends it: with a fault
/// where a die failed to read, and else with the reply of the plain machine. All dies are at home before and after. It never waits, and it
/// ends. At `Worn` the call has not ended.
pub fn finish_at_drive_alone<D: Die, G: Gate>(
    alone: &mut Alone<System<D, Job>>,
    gate: &G,
    lane: u32,
    job: Job,
) -> Result<Numbered, Worn>
    requires free { IsFreeAlone opening_in alone.old }
    requires begun { IsBegunAt Drive (core_seen (core_of D.seen) (opening_alone opening_in alone.old) (view_alone alone.old)) lane job }
    requires alone { IsAlone (core_seen (core_of D.seen) (opening_alone opening_in alone.old) (view_alone alone.old)) lane job.request }
    requires home { (die : ℕ) → ((core_seen (core_of D.seen) (opening_alone opening_in alone.old) (view_alone alone.old)).dies die).out ≡ None }
    requires small { IsSmall (opening_alone opening_in alone.old).value }
    ensures free { IsFreeAlone opening_in alone.new }
    ensures worn { IfErr result (λ x. IsWorn x.count (view_alone alone.new)) }
    ensures turn { (table_alone alone.new ≡ table_alone alone.old) × (opening_alone opening_in alone.new ≡ opening_alone opening_in alone.old) }
    ensures did { Does (view_alone alone.old) (view_alone alone.new) (LambdaSays D.seen (AreOfCall lane) (opening_alone opening_in alone.old) (view_alone alone.old) (view_alone alone.new) lane job.request result) }
    ensures numbered { (n : Numbered) → result ≡ Ok n → IsNumbered (opening_alone opening_in alone.old).value.last (calls_of (events_of (view_alone alone.new).seen)) n.number (record { lane = lane; call = job.request.call; reply = n.reply }) }
    ensures home { IfOk result (λ _. (die : ℕ) → ((core_seen (core_of D.seen) (opening_alone opening_in alone.old) (view_alone alone.new)).dies die).out ≡ None) }
{
    turn_submit(alone, lane, job)?;
    serve_one_alone(alone, gate, 0)?;
    collect_reported(alone, lane)
}
