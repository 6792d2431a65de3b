//! What the lanes are told.
ghost use Rattle.std.specs.Prelude.{◌≡◌, ◌+◌, ◌<◌, ◌^◌, ◌∷◌, ◌++◌, ℕ, List, [], length, slice_get, Some, vec_capacity, IfOk};
ghost use Rattle.plain_files.specs.declared.calls.Call.{Call};
ghost use Rattle.plain_files.specs.declared.calls.Request.{Request};
ghost use Rattle.plain_files.specs.History.{Entry};
ghost use Rattle.script_words.specs.Lanes.{requests_by_lane};
ghost use Rattle.lane_logs.specs.declared.logs.LaneLog.{LaneLog as LogView};
ghost use Rattle.lane_logs.specs.Logs.{AreLogs, HaveRoom};

use page_base::NoMemory;
use plain_files::{Numbered, Reply};
use script_words::Lane;
use std::alloc::Global;

/// What a lane was told: the replies to its calls, in their order, with their numbers in the history.
#[derive(Drop)]
pub struct LaneLog {
    /// The lane.
    pub lane: u32,
    /// Its replies.
    pub entries: Vec<Numbered>,
}

/// A log for each lane, with room for all of its replies.
pub fn empty_logs(alloc: Global, lanes: &[Lane]) -> Result<Vec<LaneLog>, NoMemory>
    requires { length lanes.now < 2 ^ 32 }
    ensures logs { IfOk result (λ logs. (last : ℕ) → AreLogs (length lanes.now) last [] logs.items) }
    ensures room { IfOk result (λ logs. HaveRoom (requests_by_lane lanes.now) logs.items) }
{
    let mut logs = Vec::with_capacity(alloc, lanes.len())?;
    for i in 0..lanes.len() {
        let entries = Vec::with_capacity(alloc, lanes[i].requests.len())?;
        logs.push_reserved(LaneLog {
            lane: i as u32,
            entries,
        });
    }
    Ok(logs)
}

/// Notes the reply to a call of a lane, the next one of all, with its number. There is room for it.
pub fn note(logs: &mut Vec<LaneLog>, lane: u32, number: u64, reply: Reply)
    requires lane { lane < length logs.old.items }
    requires room { (log : LogView) → slice_get logs.old.items lane ≡ Some log → length log.entries.items < vec_capacity log.entries }
    ensures logs { (lanes last : ℕ) (calls : List Entry) (call : Call) → number ≡ last + length calls + 1 → AreLogs lanes last calls logs.old.items →
        AreLogs lanes last (calls ++ record { lane = lane; call = call; reply = reply } ∷ []) logs.new.items }
    ensures room { (requests : List (List Request)) → HaveRoom requests logs.old.items → HaveRoom requests logs.new.items }
{
    let entries = &mut logs[lane as usize].entries;
    entries.push_reserved(Numbered { number, reply });
}
