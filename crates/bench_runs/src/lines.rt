//! The two lines that `bench` prints.
ghost use Rattle.std.specs.Prelude.{◌≡◌, ◌++◌, List, length, IfOk};
ghost use Rattle.plain_files.specs.History.{Entry};
ghost use Rattle.script_words.specs.Lanes.{names};
ghost use Rattle.log_text.specs.Told.{IsTold};
ghost use Rattle.bench_runs.specs.Benched.{bench_lines};

use bench_script::digest_line;
use edge_io::Text;
use lane_logs::LaneLog;
use log_text::reply_lines;
use page_base::NoMemory;
use script_words::Script;
use std::alloc::Global;
use system_state::Places;
use transcript_text::places_line;

// One text, and another behind it.
fn joined(alloc: Global, first: &str, second: &str) -> Result<Text, NoMemory>
    ensures { IfOk result (λ text. text ≡ first.now ++ second.now) }
{
    let mut text = String::new(alloc);
    text.push_str(first)?;
    text.push_str(second)?;
    Ok(Text::new(text))
}

/// The two lines of a run, from the logs of the lanes of its script and its counts. The logs have as many replies as the script has calls.
pub(crate) fn lines_of(
    alloc: Global,
    script: &Script,
    logs: &[LaneLog],
    places: Places,
    start: u64,
    calls: u32,
) -> Result<Text, NoMemory>
    requires told { (told : List Entry) × IsTold (length script.now.lanes) told logs.now }
    ensures lines { (told : List Entry) → IsTold (length script.now.lanes) told logs.now → length told ≡ length script.now.order →
        IfOk result (λ text. text ≡ bench_lines (names script.now) start calls told (record { host = places.host; drive = places.drive; reads = places.reads; writes = places.writes })) }
{
    let replies = reply_lines(alloc, script, logs)?;
    let count = script.order.len() as u64;
    let first = digest_line(alloc, start, calls, count, replies.as_bytes())?;
    let second = places_line(
        alloc,
        places.host,
        places.drive,
        places.reads,
        places.writes,
    )?;
    joined(alloc, first.as_str(), second.as_str())
}
