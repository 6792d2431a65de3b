//! Passes are split from the first one, for the posts of all actors.
ghost use Rattle.std.specs.Prelude.{◌≡◌, ◌+◌, ◌<◌, ◌≤◌, ◌^◌, [], All, List, length, map, IfOk};
ghost use Rattle.plain_files.specs.declared.calls.Request.{Request};
ghost use Rattle.crews.specs.Crews.{Each, IsPlaced};
ghost use Rattle.lane_runs.specs.Seating.{IsNew, IsSharing};

use core_state::Actor;
use crews::Post;
use flash_die::Die;
use page_base::{NoMemory, Page};
use page_steps::System;
use plain_files::{Numbered, Request};
use std::alloc::Global;
use std::mem;
use system_state::CallJob;
use turn_cell::{Pass, Turn};

/// How many threads there are besides those of the lanes.
#[derive(Clone, Copy, Debug, PartialEq, Eq)]
pub struct Crew {
    /// Workers of the drive, numbered from 0.
    pub workers: u32,
    /// Flushers, numbered on from the workers, since one pass would act a worker and a flusher of one number.
    pub flushers: u32,
}

/// A post more, with the next pass: its actor's place is the number of posts so far.
fn seat<D: Die, J: CallJob>(
    alloc: Global,
    turn: &Turn<System<D, J>>,
    root: &mut Pass<System<D, J>>,
    posts: &mut Vec<Post<D, J>>,
    actor: Actor,
    requests: Vec<Request>,
) -> Result<(), NoMemory>
    requires root { IsSharing turn.now (length posts.old.items) root.old }
    requires few { length requests.items < 2 ^ 32 }
    ensures root { IfOk result (λ _. IsSharing turn.now (length posts.new.items) root.new) }
    ensures more { IfOk result (λ _. length posts.new.items ≡ length posts.old.items + 1) }
    ensures new { IfOk result (λ _. (lanes : List (List Request)) → IsPlaced lanes (length posts.old.items) actor requests.items → Each (IsNew lanes turn.now) posts.old.items → Each (IsNew lanes turn.now) posts.new.items) }
{
    let log: Vec<Numbered> = Vec::with_capacity(alloc, requests.len())?;
    let page = Page::zero(alloc)?;
    let pass = turn.split(root);
    posts.push(Post {
        pass: Some(pass),
        actor,
        requests,
        log,
        page,
    })?;
    Ok(())
}

/// The requests are moved out.
fn moved_out(alloc: Global, requests: &mut Vec<Request>) -> Vec<Request>
    ensures { result ≡ requests.old }
{
    mem::replace(requests, Vec::new(alloc))
}

/// A post for each lane, to which its requests are moved.
fn seat_lanes<D: Die, J: CallJob>(
    alloc: Global,
    turn: &Turn<System<D, J>>,
    root: &mut Pass<System<D, J>>,
    posts: &mut Vec<Post<D, J>>,
    lanes: &mut [Vec<Request>],
) -> Result<(), NoMemory>
    requires root { IsSharing turn.now 0 root.old }
    requires none { posts.old.items ≡ [] }
    requires few { length lanes.old < 2 ^ 32 }
    requires short { All (λ v. length v.items < 2 ^ 32) lanes.old }
    ensures root { IfOk result (λ _. IsSharing turn.now (length posts.new.items) root.new) }
    ensures new { IfOk result (λ _. Each (IsNew (map (λ v. v.items) lanes.old) turn.now) posts.new.items) }
    ensures count { IfOk result (λ _. length posts.new.items ≡ length lanes.old) }
{
    let mut lane = 0;
    for requests in lanes.iter_mut() {
        let actor = Actor::Lane(lane);
        seat(alloc, turn, root, posts, actor, moved_out(alloc, requests))?;
        lane += 1;
    }
    Ok(())
}

/// A post for each worker.
fn seat_workers<D: Die, J: CallJob>(
    alloc: Global,
    turn: &Turn<System<D, J>>,
    root: &mut Pass<System<D, J>>,
    posts: &mut Vec<Post<D, J>>,
    workers: u32,
) -> Result<(), NoMemory>
    requires root { IsSharing turn.now (length posts.old.items) root.old }
    ensures root { IfOk result (λ _. IsSharing turn.now (length posts.new.items) root.new) }
    ensures new { IfOk result (λ _. (lanes : List (List Request)) → length lanes ≡ length posts.old.items → Each (IsNew lanes turn.now) posts.old.items → Each (IsNew lanes turn.now) posts.new.items) }
    ensures count { IfOk result (λ _. length posts.new.items ≡ length posts.old.items + workers) }
{
    for worker in 0..workers {
        let none = Vec::new(alloc);
        seat(alloc, turn, root, posts, Actor::Worker(worker), none)?;
    }
    Ok(())
}

/// A post for each flusher, numbered on from the workers.
fn seat_flushers<D: Die, J: CallJob>(
    alloc: Global,
    turn: &Turn<System<D, J>>,
    root: &mut Pass<System<D, J>>,
    posts: &mut Vec<Post<D, J>>,
    crew: Crew,
) -> Result<(), NoMemory>
    requires root { IsSharing turn.now (length posts.old.items) root.old }
    requires few { crew.workers + crew.flushers < 2 ^ 32 }
    ensures root { IfOk result (λ _. IsSharing turn.now (length posts.new.items) root.new) }
    ensures new { IfOk result (λ _. (lanes : List (List Request)) → length lanes + crew.workers ≡ length posts.old.items → Each (IsNew lanes turn.now) posts.old.items → Each (IsNew lanes turn.now) posts.new.items) }
    ensures count { IfOk result (λ _. length posts.new.items ≡ length posts.old.items + crew.flushers) }
{
    for number in 0..crew.flushers {
        let actor = Actor::Flusher(crew.workers + number);
        seat(alloc, turn, root, posts, actor, Vec::new(alloc))?;
    }
    Ok(())
}

/// A post for each lane, worker and flusher, in this order, each with a pass of its own. The requests are moved out of `lanes`.
pub fn seat_all<D: Die, J: CallJob>(
    alloc: Global,
    turn: &Turn<System<D, J>>,
    root: &mut Pass<System<D, J>>,
    lanes: &mut [Vec<Request>],
    crew: Crew,
) -> Result<Vec<Post<D, J>>, NoMemory>
    requires root { IsSharing turn.now 0 root.old }
    requires few { length lanes.old < 2 ^ 32 }
    requires short { All (λ v. length v.items < 2 ^ 32) lanes.old }
    requires crew { crew.workers + crew.flushers < 2 ^ 32 }
    ensures root { IfOk result (λ ps. IsSharing turn.now (length ps.items) root.new) }
    ensures new { IfOk result (λ ps. Each (IsNew (map (λ v. v.items) lanes.old) turn.now) ps.items) }
    ensures count { IfOk result (λ ps. length ps.items ≡ (length lanes.old + crew.workers) + crew.flushers) }
{
    let mut posts = Vec::new(alloc);
    seat_lanes(alloc, turn, root, &mut posts, lanes)?;
    seat_workers(alloc, turn, root, &mut posts, crew.workers)?;
    seat_flushers(alloc, turn, root, &mut posts, crew)?;
    Ok(posts)
}
