//! The lanes of a script that is being read.
ghost use Rattle.std.specs.Prelude.{◌≡◌, ◌∷◌, [], IsTrue, OnOk, IfOk, IfErr};
ghost use Rattle.script_words.specs.Words.{is_lane};
ghost use Rattle.call_text.specs.Scripts.{with_request, with_lane};
ghost use Rattle.script_words.specs.Lanes.{place_of};

use crate::faults::LineErr;
use edge_io::{Listed, Text};
use plain_files::Request;
use script_words::Lane;
use std::alloc::Global;
use std::str;

// A lane without requests.
fn new_lane(alloc: Global, name: &[u8]) -> Result<Lane, LineErr>
    requires { IsTrue (is_lane name.now) }
    ensures ok { IfOk result (λ lane. lane ≡ record { name = name.now; requests = [] }) }
    ensures err { IfErr result (λ e. e ≡ LineErr.NoMemory) }
{
    let Ok(text) = str::from_utf8(name) else {
        unreachable!()
    };
    let name = Text::new(String::from_str(alloc, text)?);
    let requests = Listed::new(Vec::new(alloc));
    Ok(Lane { name, requests })
}

// Adds a request to the lane of a name.
#[tactic(auto, using(crate::proofs::LanePlaces::put_new))]
pub fn put_request(
    alloc: Global,
    lanes: &mut Vec<Lane>,
    place: (usize, usize),
    name: &[u8],
    request: Request,
) -> Result<(), LineErr>
    requires form { IsTrue (is_lane name.now) }
    requires place { place ≡ place_of name.now 0 lanes.old.items }
    ensures ok { OnOk result (lanes.new.items ≡ with_request name.now request lanes.old.items) }
    ensures err { IfErr result (λ e. e ≡ LineErr.NoMemory) }
{
    let at = place.0;
    if at < lanes.len() {
        lanes[at].requests.push(request)?;
        return Ok(());
    }
    let mut lane = new_lane(alloc, name)?;
    lane.requests.push(request)?;
    lanes.push(lane)?;
    Ok(())
}

// Adds the lane of a name, where it is new.
#[tactic(auto, using(crate::proofs::LanePlaces::lane_new, crate::proofs::LanePlaces::lane_old))]
pub fn put_lane(
    alloc: Global,
    lanes: &mut Vec<Lane>,
    place: (usize, usize),
    name: &[u8],
) -> Result<(), LineErr>
    requires form { IsTrue (is_lane name.now) }
    requires place { place ≡ place_of name.now 0 lanes.old.items }
    ensures ok { OnOk result (lanes.new.items ≡ with_lane name.now lanes.old.items) }
    ensures err { IfErr result (λ e. e ≡ LineErr.NoMemory) }
{
    if place.0 < lanes.len() {
        return Ok(());
    }
    let lane = new_lane(alloc, name)?;
    lanes.push(lane)?;
    Ok(())
}
