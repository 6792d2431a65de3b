//! What the lanes were told, out of their posts.
ghost use Rattle.std.specs.Prelude.{◌≡◌, ◌≤◌, ◌<◌, ◌^◌, ℕ, [], length, slice_get, slice_index_or, Some, vec_capacity};
ghost use Rattle.crews.specs.declared.post.Post.{Post as PostView};
ghost use Rattle.lane_logs.specs.declared.logs.LaneLog.{LaneLog as LogView};

use crews::Post;
use flash_die::Die;
use lane_logs::LaneLog;
use plain_files::Numbered;
use std::alloc::Global;
use std::mem;
use system_state::CallJob;

/// The log of a post.
fn moved_out<D: Die, J: CallJob>(alloc: Global, post: &mut Post<D, J>) -> Vec<Numbered>
    ensures { result ≡ post.old.log }
{
    mem::replace(&mut post.log, Vec::new(alloc))
}

/// The logs of the first posts, which are those of the lanes. `logs` is empty, and has room for them.
pub(crate) fn take_logs<D: Die, J: CallJob>(
    alloc: Global,
    posts: &mut [Post<D, J>],
    lanes: usize,
    mut logs: Vec<LaneLog>,
) -> Vec<LaneLog>
    requires few { (lanes ≤ length posts.old) × (lanes < 2 ^ 32) }
    requires none { logs.items ≡ [] }
    requires room { lanes ≤ vec_capacity logs }
    ensures count { length result.items ≡ lanes }
    ensures logs { (l : ℕ) (d : PostView D J) (log : LogView) → slice_get result.items l ≡ Some log → (log.lane ≡ l) × (log.entries ≡ (slice_index_or posts.old l d).log) }
{
    for i in 0..lanes {
        let entries = moved_out(alloc, &mut posts[i]);
        logs.push_reserved(LaneLog {
            lane: i as u32,
            entries,
        });
    }
    logs
}
