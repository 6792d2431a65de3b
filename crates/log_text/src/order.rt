//! The order of replies: where each of them stands in the logs.
ghost use Rattle.std.specs.Prelude.{◌≡◌, ℕ, List, length, IfOk};
ghost use Rattle.plain_files.specs.History.{Entry};
ghost use Rattle.log_text.specs.Told.{IsTold};
ghost use Rattle.log_text.specs.Places.{ArePlaces, HasNoted, IsLogOf};

use lane_logs::LaneLog;
use std::alloc::{AllocError, Global};

// How many replies the logs have.
fn count_of(logs: &[LaneLog]) -> usize
    requires { (lanes : ℕ) × (calls : List Entry) × IsTold lanes calls logs.now }
    ensures { (lanes : ℕ) (calls : List Entry) → IsTold lanes calls logs.now → result ≡ length calls }
{
    let mut count = 0;
    for i in 0..logs.len() {
        count += logs[i].entries.len();
    }
    count
}

// Notes where the replies to the calls of a lane stand, each at the number of its call.
fn note_places(places: &mut [(u32, u32)], log: &LaneLog)
    requires { (calls : List Entry) × IsLogOf calls log.now (length places.old) }
    ensures { (calls : List Entry) → IsLogOf calls log.now (length places.old) → HasNoted log.now.lane (length log.now.entries.items) calls places.old places.new }
{
    for k in 0..log.entries.len() {
        let number = log.entries[k].number;
        places[number as usize - 1] = (log.lane, k as u32 + 1);
    }
}

// Where the reply to each call stands, in the order of their numbers: a lane, and a number in it from 1.
pub fn places_of(alloc: Global, logs: &[LaneLog]) -> Result<Vec<(u32, u32)>, AllocError>
    requires { (lanes : ℕ) × (calls : List Entry) × IsTold lanes calls logs.now }
    ensures { (lanes : ℕ) (calls : List Entry) → IsTold lanes calls logs.now → IfOk result (λ places. ArePlaces calls places.items) }
{
    let count = count_of(logs);
    let mut places = vec![in alloc; (0u32, 0u32); count]?;
    for i in 0..logs.len() {
        note_places(&mut places, &logs[i]);
    }
    Ok(places)
}
