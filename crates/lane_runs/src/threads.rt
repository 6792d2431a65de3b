//! The work of posts in threads.
ghost use Rattle.std.specs.Prelude.{◌≡◌, ◌<◌, ℕ, All, length, slice_index_or};
ghost use Rattle.crews.specs.Posts.{IsReady, IsDone};
ghost use Rattle.crews.specs.declared.post.Post.{Post};

use crews::{Hands, Post, run_post};
use flash_die::Die;
use gates::Gate;
use page_steps::System;
use std::sync::Wait;
use std::thread;
use std::thread::Threads;
use system_state::CallJob;
use turn_cell::Turn;

/// The work of all posts, each in a thread of its own.
pub fn run_posts<
    D: Die + Send,
    J: CallJob + Send,
    R: Threads + Wait + Sync,
    G: Gate + Sync,
    H: Hands<D, J, R, G>,
>(rt: &R, turn: &Turn<System<D, J>>, gate: &G, hands: &H, posts: &mut [Post<D, J>])
    requires { All (λ p. IsReady D.seen turn.now p) posts.old }
    ensures len { length posts.new ≡ length posts.old }
    ensures done { (i : ℕ) (d : Post D J) → i < length posts.old → IsDone D.seen turn.now (slice_index_or posts.old i d) (slice_index_or posts.new i d) }
{
    if posts.is_empty() {
        return;
    }
    let threads = posts.len();
    thread::for_each_mut(
        rt,
        posts,
        threads,
        &|_, post|
            requires { IsReady D.seen turn.now post.old }
        { run_post(rt, turn, gate, hands, post) },
    );
}
