//! A call with a function that has begun at the host.
ghost use Rattle.std.specs.Prelude.{◌≡◌, ℕ, true, None, Some, Ok, IfOk, IfErr};
ghost use Rattle.turn_cell.specs.Desks.{IsFreeAlone, view_alone, opening_alone, table_alone};
ghost use Rattle.turn_cell.specs.Events.{events_of};
ghost use Rattle.turn_cell.specs.Steps.{IsWorn};
ghost use Rattle.dispatcher.specs.declared.side.Side.TheVariants.{Host};
ghost use Rattle.plain_files.specs.declared.calls.Numbered.{Numbered};
ghost use Rattle.core_state.specs.declared.actor.Actor.TheVariants.{Lane};
ghost use Rattle.core_state.specs.Reach.{is_lambda};
ghost use Rattle.core_state.specs.History.{calls_of};
ghost use Rattle.core_outcomes.specs.Known.{run_on};
ghost use Rattle.span_bytes.specs.Spans.{page_in};
ghost use Rattle.system_state.specs.Cores.{core_of};
ghost use Rattle.desk_turns.specs.Making.{AreOf};
ghost use Rattle.desk_turns.specs.Passing.{ActsFor, core_seen, Does};
ghost use Rattle.call_job.specs.Suits.{given, IsReady, SameButRun};
ghost use Rattle.call_finishes.specs.Books.{opening_in};
ghost use Rattle.call_finishes.specs.Words.{IsNumbered, IsSmall};
ghost use Rattle.lambda_finishes.specs.Finishing.{IsBegunAt, LambdaSays};

use call_finishes::{System, fill_span, fill_span_alone, turn_end_job};
use call_job::Job;
use core_state::Actor;
use flash_die::Die;
use gates::Gate;
use plain_files::Numbered;
use std::sync::Wait;
use turn_cell::{Alone, Desk, Seated, Worn};

/// Where all pages of a call are gathered, its function runs over them, without the turn and behind the gate.
fn run_gathered<G: Gate>(gate: &G, lane: u32, good: bool, job: &mut Job)
    requires ready { IsReady job.old }
    requires lambda { is_lambda job.old.request.call ≡ true }
    requires fresh { job.old.ran ≡ None }
    ensures ran { good ≡ true → given job.new ≡ Some (run_on job.old.request.call job.old.code.insns job.old.readable (page_in job.old.pages.items)) }
    ensures same { SameButRun job.old job.new }
    ensures ready { IsReady job.new }
{
    if good {
        gate.before_run(lane);
        job.execute();
    }
}

/// Gathers the pages of a call with a function that has begun at the host, runs its function, and ends it: with a fault where a die failed to
/// read, and else with the reply of the plain machine. It waits where the die of a page is out. At `Worn` the call has not ended.
pub fn finish_at_host<'a, D: Die, R: Wait, G: Gate>(
    desk: &mut Seated<'a, System<D, Job>, R>,
    gate: &G,
    lane: u32,
    job: &mut Job,
) -> Result<Numbered, Worn>
    requires free { ⟦<Seated<'a, System<D, Job>, R> as Desk<System<D, Job>>>⟧.is_free desk.old }
    requires acts { ActsFor (core_of D.seen) (⟦<Seated<'a, System<D, Job>, R> as Desk<System<D, Job>>>⟧.opening desk.old) (⟦<Seated<'a, System<D, Job>, R> as Desk<System<D, Job>>>⟧.view desk.old) (Lane lane) }
    requires begun { IsBegunAt Host (core_seen (core_of D.seen) (⟦<Seated<'a, System<D, Job>, R> as Desk<System<D, Job>>>⟧.opening desk.old) (⟦<Seated<'a, System<D, Job>, R> as Desk<System<D, Job>>>⟧.view desk.old)) lane job.old }
    requires small { IsSmall (⟦<Seated<'a, System<D, Job>, R> as Desk<System<D, Job>>>⟧.opening desk.old).value }
    ensures free { ⟦<Seated<'a, System<D, Job>, R> as Desk<System<D, Job>>>⟧.is_free desk.new }
    ensures worn { IfErr result (λ x. IsWorn x.count (⟦<Seated<'a, System<D, Job>, R> as Desk<System<D, Job>>>⟧.view desk.new)) }
    ensures turn { (⟦<Seated<'a, System<D, Job>, R> as Desk<System<D, Job>>>⟧.table desk.new ≡ ⟦<Seated<'a, System<D, Job>, R> as Desk<System<D, Job>>>⟧.table desk.old) × (⟦<Seated<'a, System<D, Job>, R> as Desk<System<D, Job>>>⟧.opening desk.new ≡ ⟦<Seated<'a, System<D, Job>, R> as Desk<System<D, Job>>>⟧.opening desk.old) }
    ensures did { Does (⟦<Seated<'a, System<D, Job>, R> as Desk<System<D, Job>>>⟧.view desk.old) (⟦<Seated<'a, System<D, Job>, R> as Desk<System<D, Job>>>⟧.view desk.new) (LambdaSays D.seen (AreOf (Lane lane)) (⟦<Seated<'a, System<D, Job>, R> as Desk<System<D, Job>>>⟧.opening desk.old) (⟦<Seated<'a, System<D, Job>, R> as Desk<System<D, Job>>>⟧.view desk.old) (⟦<Seated<'a, System<D, Job>, R> as Desk<System<D, Job>>>⟧.view desk.new) lane job.old.request result) }
    ensures numbered { (n : Numbered) → result ≡ Ok n → IsNumbered (⟦<Seated<'a, System<D, Job>, R> as Desk<System<D, Job>>>⟧.opening desk.old).value.last (calls_of (events_of (⟦<Seated<'a, System<D, Job>, R> as Desk<System<D, Job>>>⟧.view desk.new).seen)) n.number (record { lane = lane; call = job.old.request.call; reply = n.reply }) }
{
    let good = fill_span(desk, Actor::Lane(lane), lane, job)?;
    run_gathered(gate, lane, good, job);
    turn_end_job(desk, lane, job)
}

/// The same by the only pass, with all dies at home. It never waits, and it ends.
pub fn finish_at_host_alone<D: Die, G: Gate>(
    alone: &mut Alone<System<D, Job>>,
    gate: &G,
    lane: u32,
    job: &mut Job,
) -> Result<Numbered, Worn>
    requires free { IsFreeAlone opening_in alone.old }
    requires begun { IsBegunAt Host (core_seen (core_of D.seen) (opening_alone opening_in alone.old) (view_alone alone.old)) lane job.old }
    requires home { (die : ℕ) → ((core_seen (core_of D.seen) (opening_alone opening_in alone.old) (view_alone alone.old)).dies die).out ≡ None }
    requires small { IsSmall (opening_alone opening_in alone.old).value }
    ensures free { IsFreeAlone opening_in alone.new }
    ensures worn { IfErr result (λ x. IsWorn x.count (view_alone alone.new)) }
    ensures turn { (table_alone alone.new ≡ table_alone alone.old) × (opening_alone opening_in alone.new ≡ opening_alone opening_in alone.old) }
    ensures did { Does (view_alone alone.old) (view_alone alone.new) (LambdaSays D.seen (AreOf (Lane lane)) (opening_alone opening_in alone.old) (view_alone alone.old) (view_alone alone.new) lane job.old.request result) }
    ensures numbered { (n : Numbered) → result ≡ Ok n → IsNumbered (opening_alone opening_in alone.old).value.last (calls_of (events_of (view_alone alone.new).seen)) n.number (record { lane = lane; call = job.old.request.call; reply = n.reply }) }
    ensures home { IfOk result (λ _. (die : ℕ) → ((core_seen (core_of D.seen) (opening_alone opening_in alone.old) (view_alone alone.new)).dies die).out ≡ None) }
{
    let good = fill_span_alone(alone, Actor::Lane(lane), lane, job)?;
    run_gathered(gate, lane, good, job);
    turn_end_job(alone, lane, job)
}
