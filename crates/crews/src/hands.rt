//! What lanes and workers do with a desk.
ghost use Rattle.std.specs.Prelude.{◌≡◌, Ok, IfErr};
ghost use Rattle.turn_cell.specs.Events.{events_of};
ghost use Rattle.turn_cell.specs.Steps.{IsWorn};
ghost use Rattle.plain_files.specs.declared.calls.Numbered.{Numbered};
ghost use Rattle.core_state.specs.declared.actor.Actor.TheVariants.{Lane, Worker};
ghost use Rattle.core_state.specs.Happens.{HoldsNone};
ghost use Rattle.core_state.specs.History.{calls_of};
ghost use Rattle.system_state.specs.Cores.{core_of};
ghost use Rattle.desk_turns.specs.Passing.{ActsFor, core_seen, Does};
ghost use Rattle.page_steps.specs.JobTurns.{IsUnbusy};
ghost use Rattle.page_steps.specs.Making.{IsFree};
ghost use Rattle.page_steps.specs.Words.{IsNumbered, IsSmall};
ghost use Rattle.crews.specs.Calls.{CallSays, WorkSays};
ghost use Rattle.crews.specs.Seats.{view_at, opening_at, table_at, IsFreeSeat};

use flash_die::Die;
use gates::Gate;
use page_base::Page;
use page_steps::System;
use plain_files::{Numbered, Request};
use std::sync::Wait;
use system_state::CallJob;
use turn_cell::{Seated, Worn};

/// How the calls of lanes are made, and the work of workers, each by a thread over a desk of its own, with a gate.
pub trait Hands<D: Die, J: CallJob, R: Wait, G: Gate>: Sync {
    /// A call of a lane that is free, by way of `page`. The lane is free after it. At `Worn` the call hasn't ended.
    fn call<'a>(
        &self,
        desk: &mut Seated<'a, System<D, J>, R>,
        gate: &G,
        lane: u32,
        request: &Request,
        page: &mut Page,
    ) -> Result<Numbered, Worn>
        requires free { IsFreeSeat desk.old }
        requires acts { ActsFor (core_of D.seen) (opening_at desk.old) (view_at desk.old) (Lane lane) }
        requires lane { IsFree (core_seen (core_of D.seen) (opening_at desk.old) (view_at desk.old)) lane }
        requires small { IsSmall (opening_at desk.old).value }
        ensures free { IsFreeSeat desk.new }
        ensures worn { IfErr result (λ x. IsWorn x.count (view_at desk.new)) }
        ensures turn { (table_at desk.new ≡ table_at desk.old) × (opening_at desk.new ≡ opening_at desk.old) }
        ensures did { Does (view_at desk.old) (view_at desk.new) (CallSays (core_of D.seen) (opening_at desk.old) (view_at desk.new) lane request.now result) }
        ensures numbered { (n : Numbered) → result ≡ Ok n → IsNumbered (opening_at desk.old).value.last (calls_of (events_of (view_at desk.new).seen)) n.number (record { lane = lane; call = request.now.call; reply = n.reply }) };

    /// The work of a worker that has no call and holds no die, by way of `page`, until the system is closing. It holds none after it.
    fn work<'a>(
        &self,
        desk: &mut Seated<'a, System<D, J>, R>,
        gate: &G,
        worker: u32,
        page: &mut Page,
    ) -> Result<(), Worn>
        requires free { IsFreeSeat desk.old }
        requires acts { ActsFor (core_of D.seen) (opening_at desk.old) (view_at desk.old) (Worker worker) }
        requires unbusy { IsUnbusy (core_seen (core_of D.seen) (opening_at desk.old) (view_at desk.old)) worker }
        requires none { HoldsNone (core_seen (core_of D.seen) (opening_at desk.old) (view_at desk.old)) (Worker worker) }
        requires small { IsSmall (opening_at desk.old).value }
        ensures free { IsFreeSeat desk.new }
        ensures worn { IfErr result (λ x. IsWorn x.count (view_at desk.new)) }
        ensures turn { (table_at desk.new ≡ table_at desk.old) × (opening_at desk.new ≡ opening_at desk.old) }
        ensures did { Does (view_at desk.old) (view_at desk.new) (WorkSays (core_of D.seen) (opening_at desk.old) (view_at desk.new) worker result) };
}
