//! The requests of a script's lanes, for the threads that make them.
ghost use Rattle.std.specs.Prelude.{◌≡◌, ◌≤◌, ◌+◌, ◌++◌, [], length, map, vec_capacity, IfOk};
ghost use Rattle.script_words.specs.Lanes.{requests, requests_by_lane, names, lane_names};

use edge_io::Listed;
use page_base::NoMemory;
use plain_files::Request;
use script_words::{Lane, Script};
use std::alloc::Global;
use std::mem;

/// The requests of a lane are moved out of it.
fn moved_out(alloc: Global, lane: &mut Lane) -> Vec<Request>
    ensures moved { result.items ≡ lane.old.requests }
    ensures name { lane.new.name ≡ lane.old.name }
{
    let requests = mem::replace(&mut lane.requests, Listed::new(Vec::new(alloc)));
    requests.into_vec()
}

/// The requests of all lanes are moved to `moved`, which is empty and has room for them.
fn move_all(alloc: Global, lanes: &mut [Lane], moved: &mut Vec<Vec<Request>>)
    requires none { moved.old.items ≡ [] }
    requires room { length lanes.old ≤ vec_capacity moved.old }
    ensures moved { map (λ v. v.items) moved.new.items ≡ requests_by_lane lanes.old }
    ensures names { lane_names lanes.new ≡ lane_names lanes.old }
{
    for lane in lanes.iter_mut() {
        moved.push_reserved(moved_out(alloc, lane));
    }
}

/// The requests of each lane, which are moved out of the script. It keeps the lanes and their names. Want of memory changes nothing.
pub(crate) fn take_requests(
    alloc: Global,
    script: &mut Script,
) -> Result<Vec<Vec<Request>>, NoMemory>
    ensures moved { IfOk result (λ v. map (λ r. r.items) v.items ≡ requests script.old) }
    ensures names { names script.new ≡ names script.old }
    ensures lanes { length script.new.lanes ≡ length script.old.lanes }
{
    let mut moved = Vec::with_capacity(alloc, script.lanes.len())?;
    let listed = mem::replace(&mut script.lanes, Listed::new(Vec::new(alloc)));
    let mut lanes = listed.into_vec();
    move_all(alloc, lanes.as_mut_slice(), &mut moved);
    script.lanes = Listed::new(lanes);
    Ok(moved)
}
