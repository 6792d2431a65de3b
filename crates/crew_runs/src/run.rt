//! The run of a crew over a system, from its start to its end.
ghost use Rattle.std.specs.Prelude.{◌≡◌, ◌↔◌, ◌+◌, ◌≤◌, ◌<◌, ◌^◌, ℕ, false, [], All, List, None, length, map, vec_capacity, Err, IfOk};
ghost use Rattle.std.specs.declared.snapshot.Snapshot.{Snapshot};
ghost use Rattle.turn_cell.specs.Events.{events_of};
ghost use Rattle.turn_cell.specs.Passes.{opening_of, view};
ghost use Rattle.turn_cell.specs.declared.team.Front.{Front as FrontView};
ghost use Rattle.plain_files.specs.History.{Serves};
ghost use Rattle.plain_files.specs.declared.calls.Request.{Request as RequestView};
ghost use Rattle.core_state.specs.declared.event.Event.{Event};
ghost use Rattle.core_state.specs.Happens.{IsClosing};
ghost use Rattle.core_state.specs.History.{calls_of};
ghost use Rattle.core_solo.specs.Stored.{IsAllStored};
ghost use Rattle.system_state.specs.Cores.{core_of};
ghost use Rattle.system_state.specs.Settled.{Settled as IsAllSettled};
ghost use Rattle.system_state.specs.Stands.{Stands};
ghost use Rattle.system_state.specs.declared.state.State.{State};
ghost use Rattle.system_metas.specs.Encode.{encode};
ghost use Rattle.page_steps.specs.Books.{opening_in};
ghost use Rattle.page_steps.specs.SystemOf.{System as SystemView};
ghost use Rattle.page_steps.specs.Words.{IsSmall};
ghost use Rattle.settling.specs.Steps.{EndsInFailure};
ghost use Rattle.settling.specs.declared.last_sync.Settled.TheVariants.{NotAsked, Done, Failed};
ghost use Rattle.lane_logs.specs.Logs.{AreLogs};
ghost use Rattle.crews.specs.Crews.{Each};
ghost use Rattle.crews.specs.Seats.{IsUntouched};
ghost use Rattle.lane_runs.specs.Seating.{IsNew, IsSharing};
ghost use Rattle.crew_runs.specs.Ended.{HasRunLanes, IsWornOut};
ghost use Rattle.crew_runs.specs.declared.run.RunErr.TheVariants.{Worn};

use crate::beginning::{Begun, begin};
use crate::closing::{close_turn, end_turn};
use crate::logs::take_logs;
use crew_history::laws::{crew_begun, crew_served};
use crews::Hands;
use flash_die::Die;
use gates::Gate;
use lane_runs::{Crew, work_all};
use page_steps::System;
use plain_files::Request;
use solo_runs::Ran;
use std::alloc::Global;
use std::sync::Wait;
use std::thread::Threads;
use system_state::CallJob;
use turn_cell::Front;

/// Why a run of a crew came to no end.
#[derive(Drop)]
pub enum RunErr<D: Die, J: CallJob> {
    /// Memory was wanting before the first lane entered.
    NoMemory,
    /// The turn made all the events that it counts.
    Worn {
        /// The history. It has no bytes.
        front: Front<System<D, J>>,
    },
}

/// The run of a turn that has begun: the work of all posts, and its end. The first posts are those of the lanes.
fn run_begun<
    D: Die + Send,
    J: CallJob + Send,
    R: Threads + Wait + Sync,
    G: Gate + Sync,
    H: Hands<D, J, R, G>,
>(
    alloc: Global,
    rt: &R,
    begun: Begun<D, J>,
    lanes: usize,
    gate: &G,
    hands: &H,
    settles: bool,
) -> Result<Ran<D, J>, RunErr<D, J>>
    requires root { IsSharing begun.turn (length begun.posts.items) begun.root }
    requires new { (all : List (List RequestView)) × ((core_of D.seen (opening_of opening_in begun.turn).value).shape.lanes ≡ length all) × Each (IsNew all begun.turn) begun.posts.items }
    requires untouched { IsUntouched (core_of D.seen (opening_of opening_in begun.turn).value) }
    requires small { IsSmall (opening_of opening_in begun.turn).value }
    requires few { (lanes ≤ length begun.posts.items) × (lanes < 2 ^ 32) }
    requires logs { (begun.logs.items ≡ []) × (lanes ≤ vec_capacity begun.logs) }
    ensures ran { IfOk result (λ r. (all : List (List RequestView)) → length all ≡ lanes → (core_of D.seen (opening_of opening_in begun.turn).value).shape.lanes ≡ lanes → Each (IsNew all begun.turn) begun.posts.items →
        HasRunLanes D.seen J.suits all settles (opening_of opening_in begun.turn).value r.system.state (view r.front.pass.value).seen r.logs.items r.settled) }
    ensures worn { (front : FrontView (SystemView D J) (Snapshot (State D J)) Event) → result ≡ Err (Worn front) → (all : List (List RequestView)) → length all ≡ lanes →
        (core_of D.seen (opening_of opening_in begun.turn).value).shape.lanes ≡ lanes → Each (IsNew all begun.turn) begun.posts.items →
        IsWornOut D.seen J.suits all (opening_of opening_in begun.turn).value (view front.pass.value).seen }
{
    crew_served::<D, J>();
    crew_begun::<D, J>();
    let Begun {
        turn,
        mut root,
        mut posts,
        logs,
        mut page,
    } = begun;
    work_all(rt, &turn, &mut root, gate, hands, posts.as_mut_slice());
    let (root, ended) = end_turn(rt, &turn, root, &mut page, settles);
    let closed = close_turn(turn, root);
    match ended {
        Ok(settled) => Ok(Ran {
            system: closed.book,
            logs: take_logs(alloc, posts.as_mut_slice(), lanes, logs),
            front: closed.front,
            settled,
        }),
        Err(_) => Err(RunErr::Worn {
            front: closed.front,
        }),
    }
}

/// Runs lanes with a crew over a system that was just started with as many lanes: each lane, worker and flusher in a thread of its own. Each lane
/// enters, makes its calls one after the other as `hands` makes them, and leaves; once all have left and no call is in flight the workers and
/// flushers end too. Where `settles` is set the last sync follows, to its end or to the first failure. However it ends, no call is in flight then
/// and all dies are at home. The requests are moved out of `lanes`.
///
/// `NoMemory` comes before the first lane enters. The turn begins at 0. `Worn`: it has made 2^62 events.
pub fn run_lanes<
    D: Die + Send,
    J: CallJob + Send,
    R: Threads + Wait + Sync,
    G: Gate + Sync,
    H: Hands<D, J, R, G>,
>(
    alloc: Global,
    rt: &R,
    system: System<D, J>,
    lanes: &mut [Vec<Request>],
    gate: &G,
    hands: &H,
    crew: Crew,
    settles: bool,
) -> Result<Ran<D, J>, RunErr<D, J>>
    requires stands { Stands D.seen J.suits system.state system.state [] }
    requires small { IsSmall system.state }
    requires untouched { IsUntouched (core_of D.seen system.state) }
    requires wide { (core_of D.seen system.state).shape.lanes ≡ length lanes.old }
    requires few { length lanes.old < 2 ^ 32 }
    requires short { All (λ v. length v.items < 2 ^ 32) lanes.old }
    requires crew { crew.workers + crew.flushers < 2 ^ 32 }
    ensures stands { IfOk result (λ r. Stands D.seen J.suits r.system.state system.state (view r.front.pass.value).seen) }
    ensures serves { IfOk result (λ r. Serves (map (λ v. v.items) lanes.old) (calls_of (events_of (view r.front.pass.value).seen))) }
    ensures logs { IfOk result (λ r. AreLogs (length lanes.old) system.state.last (calls_of (events_of (view r.front.pass.value).seen)) r.logs.items) }
    ensures left { IfOk result (λ r. IsClosing (core_of D.seen r.system.state)) }
    ensures idle { IfOk result (λ r. (lane : ℕ) → (core_of D.seen r.system.state).calls lane ≡ None) }
    ensures home { IfOk result (λ r. (die : ℕ) → ((core_of D.seen r.system.state).dies die).out ≡ None) }
    ensures asked { IfOk result (λ r. (r.settled ≡ NotAsked) ↔ (settles ≡ false)) }
    ensures failed { IfOk result (λ r. (r.settled ≡ Failed) ↔ EndsInFailure (view r.front.pass.value).seen) }
    ensures stored { IfOk result (λ r. r.settled ≡ Done → IsAllStored encode (core_of D.seen r.system.state)) }
    ensures settled { IfOk result (λ r. r.settled ≡ Done → IsAllSettled D.seen r.system.state) }
    ensures worn { (front : FrontView (SystemView D J) (Snapshot (State D J)) Event) → result ≡ Err (Worn front) → IsWornOut D.seen J.suits (map (λ v. v.items) lanes.old) system.state (view front.pass.value).seen }
{
    let count = lanes.len();
    match begin(alloc, system, lanes, crew) {
        Ok(begun) => run_begun(alloc, rt, begun, count, gate, hands, settles),
        Err(_) => Err(RunErr::NoMemory),
    }
}
