//! How the turn of a run begins: all memory is taken, and no event is made.
ghost use Rattle.std.specs.Prelude.{◌≡◌, ◌+◌, ◌<◌, ◌≤◌, ◌^◌, [], All, length, map, vec_capacity, IfOk};
ghost use Rattle.turn_cell.specs.Passes.{opening_of};
ghost use Rattle.system_state.specs.Stands.{Stands};
ghost use Rattle.page_steps.specs.Books.{opening_in};
ghost use Rattle.crews.specs.Crews.{Each};
ghost use Rattle.lane_runs.specs.Seating.{IsNew, IsSharing};

use crews::Post;
use flash_die::Die;
use lane_logs::LaneLog;
use lane_runs::{Crew, seat_all};
use page_base::{NoMemory, Page};
use page_steps::System;
use plain_files::Request;
use std::alloc::{AllocError, Global};
use system_state::CallJob;
use turn_cell::{Pass, Turn};

/// A run before its threads start.
pub(crate) struct Begun<D: Die, J: CallJob> {
    /// The turn, whose book is the system.
    pub turn: Turn<System<D, J>>,
    /// Its first pass, which acts the closer.
    pub root: Pass<System<D, J>>,
    /// A post for each lane, worker and flusher.
    pub posts: Vec<Post<D, J>>,
    /// Room for what each lane is told.
    pub logs: Vec<LaneLog>,
    /// For pages of the last sync on their way to a die.
    pub page: Page,
}

/// A turn that begins at 0, with no event.
fn open_turn<D: Die, J: CallJob>(
    alloc: Global,
    system: System<D, J>,
) -> Result<(Turn<System<D, J>>, Pass<System<D, J>>), NoMemory>
    requires stands { Stands D.seen J.suits system.state system.state [] }
    ensures root { IfOk result (λ t. IsSharing t.0 0 t.1) }
    ensures opening { IfOk result (λ t. opening_of opening_in t.0 ≡ opening_in system) }
{
    match Turn::new(alloc, system, 0) {
        Ok(opened) => Ok(opened),
        Err(_) => Err(AllocError),
    }
}

/// The turn of a run, with a post for each lane, worker and flusher, and room for the logs. The requests are moved out of `lanes`.
pub(crate) fn begin<D: Die, J: CallJob>(
    alloc: Global,
    system: System<D, J>,
    lanes: &mut [Vec<Request>],
    crew: Crew,
) -> Result<Begun<D, J>, NoMemory>
    requires stands { Stands D.seen J.suits system.state system.state [] }
    requires few { length lanes.old < 2 ^ 32 }
    requires short { All (λ v. length v.items < 2 ^ 32) lanes.old }
    requires crew { crew.workers + crew.flushers < 2 ^ 32 }
    ensures opening { IfOk result (λ b. opening_of opening_in b.turn ≡ opening_in system) }
    ensures root { IfOk result (λ b. IsSharing b.turn (length b.posts.items) b.root) }
    ensures posts { IfOk result (λ b. Each (IsNew (map (λ v. v.items) lanes.old) b.turn) b.posts.items) }
    ensures enough { IfOk result (λ b. length lanes.old ≤ length b.posts.items) }
    ensures logs { IfOk result (λ b. (b.logs.items ≡ []) × (length lanes.old ≤ vec_capacity b.logs)) }
{
    let logs = Vec::with_capacity(alloc, lanes.len())?;
    let page = Page::zero(alloc)?;
    let (turn, mut root) = open_turn(alloc, system)?;
    let posts = seat_all(alloc, &turn, &mut root, lanes, crew)?;
    Ok(Begun {
        turn,
        root,
        posts,
        logs,
        page,
    })
}
