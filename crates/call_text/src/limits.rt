//! What a line counts against the limits of a script.
ghost use Rattle.std.specs.Prelude.{◌≡◌, ◌≤◌, ◌^◌, ◌&&◌, not, nat_le, length, map, option_copied};
ghost use Rattle.script_words.specs.Lanes.{has_lane};
ghost use Rattle.call_text.specs.Limits.{has_call, write_bytes, append_bytes, load_bytes, readl_bytes, writel_bytes, call_bytes, bytes_behind, lane_bytes, line_bytes};
ghost use Rattle.call_text.specs.Scripts.{is_lane_past_limit, is_past_limit};
ghost use Rattle.call_text.specs.Building.{seen};

use crate::blocks::Blocks;
use crate::building::Building;
use crate::verb::{Verb, verb_of};
use script_words::{bytes_size, code_size, lane_of, place_of};

/// The most lanes of a script.
const MOST_LANES: usize = 32;

/// The most calls of a script.
const MOST_CALLS: usize = 10_000;

/// The most call bytes of a script.
const MOST_CALL_BYTES: u64 = 1 << 28;

// Whether the words behind a lane have a call.
fn has_call(rest: &[&[u8]]) -> bool
    ensures { result ≡ has_call (map (λ x. x.now) rest.now) }
{
    match rest {
        [first, ..] => verb_of(first).is_some(),
        [] => false,
    }
}

#[tactic(auto, unfolding(crate::specs::Limits::write_bytes))]
fn write_bytes(args: &[&[u8]]) -> u64
    ensures { result ≡ write_bytes (map (λ x. x.now) args.now) }
{
    match args {
        [_, _, text] => bytes_size(text),
        _ => 0,
    }
}

#[tactic(auto, unfolding(crate::specs::Limits::append_bytes))]
fn append_bytes(args: &[&[u8]]) -> u64
    ensures { result ≡ append_bytes (map (λ x. x.now) args.now) }
{
    match args {
        [_, text] => bytes_size(text),
        _ => 0,
    }
}

#[tactic(auto, unfolding(crate::specs::Limits::load_bytes))]
fn load_bytes(blocks: &Blocks, args: &[&[u8]]) -> u64
    ensures { result ≡ load_bytes blocks.now (map (λ x. x.now) args.now) }
{
    let [_, how, code] = args else {
        return 0;
    };
    let how: &[u8] = how;
    if how == b"code".as_slice() {
        return code_size(code);
    }
    if how == b"func".as_slice() {
        return match blocks.block_of(code) {
            Some(bytes) => bytes.len() as u64,
            None => 0,
        };
    }
    0
}

#[tactic(auto, unfolding(crate::specs::Limits::readl_bytes))]
fn readl_bytes(args: &[&[u8]]) -> u64
    ensures { result ≡ readl_bytes (map (λ x. x.now) args.now) }
{
    match args {
        [_, _, _, _, _, _, param] => bytes_size(param),
        _ => 0,
    }
}

#[tactic(auto, unfolding(crate::specs::Limits::writel_bytes))]
fn writel_bytes(args: &[&[u8]]) -> u64
    ensures { result ≡ writel_bytes (map (λ x. x.now) args.now) }
{
    match args {
        [_, _, _, _, _, param, input] => bytes_size(param) + bytes_size(input),
        _ => 0,
    }
}

fn call_bytes(blocks: &Blocks, verb: Option<Verb>, args: &[&[u8]]) -> u64
    ensures { result ≡ call_bytes blocks.now verb (map (λ x. x.now) args.now) }
{
    match verb {
        Some(Verb::Write) => write_bytes(args),
        Some(Verb::Append) => append_bytes(args),
        Some(Verb::Load) => load_bytes(blocks, args),
        Some(Verb::Readl) => readl_bytes(args),
        Some(Verb::Writel) => writel_bytes(args),
        _ => 0,
    }
}

fn bytes_behind(blocks: &Blocks, rest: &[&[u8]]) -> u64
    ensures { result ≡ bytes_behind blocks.now (map (λ x. x.now) rest.now) }
{
    match rest {
        [first, args @ ..] => call_bytes(blocks, verb_of(first), args),
        [] => 0,
    }
}

fn lane_bytes(blocks: &Blocks, lane: Option<&[u8]>, rest: &[&[u8]]) -> u64
    ensures { result ≡ lane_bytes blocks.now (option_copied lane.entry) (map (λ x. x.now) rest.now) }
{
    match lane {
        Some(_) => bytes_behind(blocks, rest),
        None => 0,
    }
}

// The call bytes of a line.
pub fn line_bytes(blocks: &Blocks, words: &[&[u8]]) -> u64
    ensures { result ≡ line_bytes blocks.now (map (λ x. x.now) words.now) }
{
    match words {
        [first, rest @ ..] => lane_bytes(blocks, lane_of(first), rest),
        [] => 0,
    }
}

// Whether a lane is the 33rd.
fn is_lane_past(script: &Building, name: &[u8]) -> bool
    ensures { result ≡ (not (has_lane name.now script.now.lanes.items) && nat_le 32 (length script.now.lanes.items)) }
{
    let place = place_of(&script.lanes, name);
    place.0 >= script.lanes.len() && script.lanes.len() >= MOST_LANES
}

// Whether the line of a lane, with so many call bytes, breaks a limit.
fn is_lane_past_limit(script: &Building, lane: Option<&[u8]>, rest: &[&[u8]], bytes: u64) -> bool
    requires kept { script.now.bytes ≤ 2 ^ 28 }
    requires bytes { bytes ≡ lane_bytes script.now.blocks (option_copied lane) (map (λ x. x.now) rest.now) }
    ensures { result ≡ is_lane_past_limit (seen script.now) (option_copied lane.entry) (map (λ x. x.now) rest.now) }
{
    let Some(name) = lane else {
        return false;
    };
    if is_lane_past(script, name) {
        return true;
    }
    if script.order.len() >= MOST_CALLS && has_call(rest) {
        return true;
    }
    bytes > MOST_CALL_BYTES - script.bytes
}

// Whether a line with so many call bytes breaks a limit.
pub fn is_past_limit(script: &Building, words: &[&[u8]], bytes: u64) -> bool
    requires kept { script.now.bytes ≤ 2 ^ 28 }
    requires bytes { bytes ≡ line_bytes script.now.blocks (map (λ x. x.now) words.now) }
    ensures { result ≡ is_past_limit (seen script.now) (map (λ x. x.now) words.now) }
{
    match words {
        [first, rest @ ..] => is_lane_past_limit(script, lane_of(first), rest, bytes),
        [] => false,
    }
}
