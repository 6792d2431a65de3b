//! The text of a run: the lines of its replies, in the order of their numbers, and the line of its places.
ghost use Rattle.std.specs.Prelude.{◌≡◌, ℕ, ◌+◌, List, length, take, slice_get, Some, unwrap_or, [], IfOk, string_bytes};
ghost use Rattle.plain_files.specs.History.{Entry};
ghost use Rattle.script_words.specs.Lanes.{names};
ghost use Rattle.transcript_text.specs.Print.{entry_lines, print, reply_line};
ghost use Rattle.log_text.specs.Told.{IsTold};
ghost use Rattle.log_text.specs.Places.{place_behind};

use crate::order::places_of;
use lane_logs::LaneLog;
use script_words::Script;
use std::alloc::{AllocError, Global};
use system_state::Places;
use transcript_text::{places_line, reply_line};

/// The lines of the replies of a run, in the order of their numbers: `#N LANE.K REPLY`. The logs are those of the lanes of the script, in their
/// order. `Err` comes where memory ran out.
pub fn reply_lines(alloc: Global, script: &Script, logs: &[LaneLog]) -> Result<String, AllocError>
    requires told { (calls : List Entry) × IsTold (length script.now.lanes) calls logs.now }
    ensures lines { (calls : List Entry) → IsTold (length script.now.lanes) calls logs.now → IfOk result (λ text. string_bytes text ≡ entry_lines (names script.now) [] calls) }
{
    let mut text = String::new(alloc);
    let places = places_of(alloc, logs)?;
    let lanes = script.lanes.as_slice();
    for i in 0..places.len() {
        let (lane, k) = places[i];
        let entry = &logs[lane as usize].entries[k as usize - 1];
        let name = &lanes[lane as usize].name;
        let line = reply_line(alloc, i as u64 + 1, name, k, &entry.reply)?;
        text.push_str(line.as_str())?;
    }
    Ok(text)
}

/// The transcript of a run: the lines of its replies, and the line `places` with the calls with a function that began at the host and in the
/// drive, the reads of dies, and their writes. The logs are those of the lanes of the script, in their order. `Err` comes where memory ran out.
pub fn print_logs(
    alloc: Global,
    script: &Script,
    logs: &[LaneLog],
    places: Places,
) -> Result<String, AllocError>
    requires told { (calls : List Entry) × IsTold (length script.now.lanes) calls logs.now }
    ensures text { (calls : List Entry) → IsTold (length script.now.lanes) calls logs.now →
        IfOk result (λ text. string_bytes text ≡ print (names script.now) calls (record { host = places.host; drive = places.drive; reads = places.reads; writes = places.writes })) }
{
    let mut text = reply_lines(alloc, script, logs)?;
    let last = places_line(
        alloc,
        places.host,
        places.drive,
        places.reads,
        places.writes,
    )?;
    text.push_str(last.as_str())?;
    Ok(text)
}
