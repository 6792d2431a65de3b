//! The calls that lanes wait for.
ghost use Rattle.std.specs.Prelude.{◌≡◌, IfOk, false, map};
ghost use Rattle.script_words.specs.Lanes.{lane_part, number_part};
ghost use Rattle.call_text.specs.Awaits.{awaited, is_await_of, await_of, without_await, is_call_of, is_called_later};
ghost use Rattle.call_text.specs.Building.{HasRoom};

use crate::blocks::{begins_block, ends_block};
use crate::building::Await;
use crate::verb::verb_of;
use script_words::{Lane, cut_point, cut_word, ends_with_colon, number_in, place_of, without_last};
use std::alloc::{AllocError, Global};

// The call of a word `L.K`, where lane L has a K-th call.
#[tactic(auto, unfolding(crate::specs::Awaits::awaited))]
pub fn awaited(lanes: &[Lane], word: &[u8]) -> Option<(u32, u32)>
    requires { HasRoom lanes.now }
    ensures { result ≡ awaited lanes.now word.now }
{
    let (name, number) = cut_point(word);
    let place = place_of(lanes, name);
    let k = number_in(1, place.1 as u64, number)?;
    Some((place.0 as u32, k as u32))
}

fn is_await_of(lane: u32, await_: &Await) -> bool
    ensures { result ≡ is_await_of lane await_.now }
{
    await_.lane == lane
}

// The call that the next call of a lane waits for.
pub fn await_of(lane: u32, awaits: &[Await]) -> Option<(u32, u32)>
    ensures { result ≡ await_of lane awaits.now }
{
    for await_ in awaits {
        if is_await_of(lane, await_) {
            return Some(await_.call);
        }
    }
    None
}

// The awaits of the other lanes.
pub fn other_awaits(alloc: Global, lane: u32, awaits: &[Await]) -> Result<Vec<Await>, AllocError>
    ensures { IfOk result (λ v. v.items ≡ without_await lane awaits.now) }
{
    awaits
        .iter()
        .copied()
        .filter(|await_| !is_await_of(lane, await_))
        .collect(alloc)
}

// Whether a line has a call of a lane.
fn is_call_of(name: &[u8], line: &[u8]) -> bool
    ensures { result ≡ is_call_of name.now line.now }
{
    let (first, rest) = cut_word(line);
    if !ends_with_colon(first) || without_last(first) != name {
        return false;
    }
    let (second, _) = cut_word(rest);
    verb_of(second).is_some()
}

// Whether a later line has a call of a lane, outside the blocks.
pub fn is_called_later(name: &[u8], rest: &[&[u8]]) -> bool
    ensures { result ≡ is_called_later name.now false (map (λ x. x.now) rest.now) }
{
    let mut in_block = false;
    for line in rest {
        if in_block {
            in_block = !ends_block(line);
        } else if is_call_of(name, line) {
            return true;
        } else {
            in_block = begins_block(line);
        }
    }
    false
}
