//! The passes of posts are joined to the first one.
ghost use Rattle.std.specs.Prelude.{◌≡◌, ◌≢◌, ◌<◌, ℕ, length, slice_index_or, Some, None};
ghost use Rattle.std.specs.declared.snapshot.Snapshot.{Snapshot};
ghost use Rattle.turn_cell.specs.declared.pass.Pass.{Pass};
ghost use Rattle.turn_cell.specs.Desks.{IsFreeAt};
ghost use Rattle.turn_cell.specs.Passes.{view, IsPassOf, IsFree};
ghost use Rattle.turn_cell.specs.Teams.{joined_to};
ghost use Rattle.core_state.specs.declared.event.Event.{Event};
ghost use Rattle.system_state.specs.declared.state.State.{State};
ghost use Rattle.page_steps.specs.Books.{opening_in};
ghost use Rattle.page_steps.specs.SystemOf.{System};
ghost use Rattle.crews.specs.Crews.{Each, HasPass, IsSamePost, IsServed, IsGathering};
ghost use Rattle.crews.specs.declared.post.Post.{Post};

use crate::post::Post;
use flash_die::Die;
use page_steps::System;
use system_state::CallJob;
use turn_cell::{Pass, Turn};

/// Joins the pass of a post. What else the post has stays.
fn join_post<D: Die, J: CallJob>(
    turn: &Turn<System<D, J>>,
    root: &mut Pass<System<D, J>>,
    post: &mut Post<D, J>,
)
    requires root { IsPassOf opening_in turn.now root.old × IsFree root.old × ((view root.old).number ≡ 0) }
    requires post { HasPass turn.now post.old }
    ensures root { IsPassOf opening_in turn.now root.new × IsFree root.new }
    ensures view { (p : Pass (System D J) (Snapshot (State D J)) Event) → post.old.pass ≡ Some p → view root.new ≡ joined_to (view root.old) (view p) }
    ensures post { IsSamePost post.old post.new }
{
    let Some(pass) = post.pass.take() else {
        unreachable!()
    };
    turn.join(root, pass);
}

/// Joins the passes of all posts, in their order. The first pass then keeps of each what its actor did.
pub fn join_all<D: Die, J: CallJob>(
    turn: &Turn<System<D, J>>,
    root: &mut Pass<System<D, J>>,
    posts: &mut [Post<D, J>],
)
    requires root { IsGathering D.seen turn.now posts.old 0 root.old }
    requires served { Each (IsServed D.seen turn.now) posts.old }
    ensures root { IsGathering D.seen turn.now posts.old (length posts.old) root.new }
    ensures len { length posts.new ≡ length posts.old }
    ensures posts { (k : ℕ) (d : Post D J) → k < length posts.old → IsSamePost (slice_index_or posts.old k d) (slice_index_or posts.new k d) }
{
    for post in posts.iter_mut() {
        join_post(turn, root, post);
    }
}
