//! The work of a crew, and its passes joined to the first one.
ghost use Rattle.std.specs.Prelude.{◌≡◌, ◌<◌, ℕ, List, length, slice_index_or};
ghost use Rattle.turn_cell.specs.Passes.{opening_of};
ghost use Rattle.plain_files.specs.declared.calls.Request.{Request};
ghost use Rattle.system_state.specs.Cores.{core_of};
ghost use Rattle.page_steps.specs.Books.{opening_in};
ghost use Rattle.page_steps.specs.Words.{IsSmall};
ghost use Rattle.crews.specs.Crews.{Each, IsGathering};
ghost use Rattle.crews.specs.Seats.{IsUntouched};
ghost use Rattle.crews.specs.declared.post.Post.{Post};
ghost use Rattle.lane_runs.specs.Seating.{IsNew, IsSharing};

use crate::threads::run_posts;
use crews::{Hands, Post, join_all};
use flash_die::Die;
use gates::Gate;
use page_steps::System;
use std::sync::Wait;
use std::thread::Threads;
use system_state::CallJob;
use turn_cell::{Pass, Turn};

/// The work of all posts, each in a thread of its own, and their passes joined to the first one, which then keeps of each what its actor did.
pub fn work_all<
    D: Die + Send,
    J: CallJob + Send,
    R: Threads + Wait + Sync,
    G: Gate + Sync,
    H: Hands<D, J, R, G>,
>(
    rt: &R,
    turn: &Turn<System<D, J>>,
    root: &mut Pass<System<D, J>>,
    gate: &G,
    hands: &H,
    posts: &mut [Post<D, J>],
)
    requires root { IsSharing turn.now (length posts.old) root.old }
    requires untouched { IsUntouched (core_of D.seen (opening_of opening_in turn.now).value) }
    requires small { IsSmall (opening_of opening_in turn.now).value }
    requires new { (lanes : List (List Request)) × ((core_of D.seen (opening_of opening_in turn.now).value).shape.lanes ≡ length lanes) × Each (IsNew lanes turn.now) posts.old }
    ensures root { IsGathering D.seen turn.now posts.new (length posts.new) root.new }
    ensures len { length posts.new ≡ length posts.old }
    ensures posts { (k : ℕ) (d : Post D J) → k < length posts.old → ((slice_index_or posts.new k d).actor ≡ (slice_index_or posts.old k d).actor) × ((slice_index_or posts.new k d).requests ≡ (slice_index_or posts.old k d).requests) }
{
    run_posts(rt, turn, gate, hands, posts);
    join_all(turn, root, posts);
}
