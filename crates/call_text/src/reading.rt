//! How a script is read: line by line, each once.
ghost use Rattle.std.specs.Prelude.{◌≡◌, ◌+◌, ◌≤◌, ◌<◌, ◌^◌, ◌∷◌, [], length, map, is_some, IsTrue, IsOk, OnOk, IfOk, false, None, Some, Ok, Result};
ghost use Rattle.call_text.specs.declared.faults.ScriptKind.{ScriptKind};
ghost use Rattle.call_text.specs.declared.building.Building.{Building};
ghost use Rattle.script_words.specs.Words.{is_lane};
ghost use Rattle.script_words.specs.Lanes.{place_of};
ghost use Rattle.call_text.specs.Awaits.{await_of};
ghost use Rattle.call_text.specs.Calls.{verb_of, call_of};
ghost use Rattle.call_text.specs.Scripts.{with_call, with_await, behind_lane, call_line, await_line, lane_line, fault_line, func_line, body_line, end_line, is_comment, word_line, is_past_limit, outside_line, line_in, nothing, read_lines, read_script, at_line, Reading};
ghost use Rattle.call_text.specs.Building.{seen, IsKept, FitsLane, FitsLine};
ghost use Rattle.call_text.specs.Outcomes.{Gives, Makes, Steps, Reads, ReadsLines};
ghost use Rattle.call_text.specs.Order.{HasEnded, IsOrdered, IsWithinLimits};

use crate::awaits::{await_of, awaited, is_called_later, other_awaits};
use crate::blocks::{Blocks, assembled, ends_block, has_end};
use crate::building::{Await, Building};
use crate::calls::call_of;
use crate::fault_lines::fault_line;
use crate::faults::{LineErr, ScriptErr, ScriptFault, ScriptKind};
use crate::lanes::{put_lane, put_request};
use crate::limits::{is_past_limit, line_bytes};
use crate::verb::verb_of;
use edge_io::Listed;
use name_table::Name;
use plain_files::{Call, Request};
use script_words::{
    Script, ends_with_colon, is_lane, is_line, lines, place_of, without_last, words,
};
use std::alloc::Global;

/// The bytes of the longest script, 16 MiB.
const MOST_BYTES: usize = 1 << 24;

// Adds a call of a lane.
fn add_call(alloc: Global, script: &mut Building, name: &[u8], call: Call) -> Result<(), LineErr>
    requires form { IsTrue (is_lane name.now) }
    requires kept { IsKept script.old }
    requires lane { FitsLane name.now script.old.lanes.items }
    requires few { length script.old.order.items < 10000 }
    ensures is { Makes result script.new (Ok (with_call (seen script.old) name.now call)) }
    ensures kept { OnOk result (IsKept script.new) }
{
    let place = place_of(&script.lanes, name);
    let lane = place.0 as u32;
    let number = place.1 as u32 + 1;
    let request = Request {
        call,
        awaits: await_of(lane, &script.awaits),
    };
    put_request(alloc, &mut script.lanes, place, name, request)?;
    script.order.push((lane, number))?;
    let others = other_awaits(alloc, lane, &script.awaits)?;
    script.awaits = others;
    Ok(())
}

// Adds an await of a lane.
fn add_await(
    alloc: Global,
    script: &mut Building,
    name: &[u8],
    call: (u32, u32),
) -> Result<(), LineErr>
    requires form { IsTrue (is_lane name.now) }
    requires kept { IsKept script.old }
    requires lane { FitsLane name.now script.old.lanes.items }
    requires ended { HasEnded script.old.order.items call }
    ensures is { Makes result script.new (Ok (with_await (seen script.old) name.now call)) }
    ensures kept { OnOk result (IsKept script.new) }
{
    let place = place_of(&script.lanes, name);
    let lane = place.0 as u32;
    put_lane(alloc, &mut script.lanes, place, name)?;
    script.awaits.push(Await { lane, call })?;
    Ok(())
}

// The call of a line whose lane may be ill formed.
fn lane_call(
    alloc: Global,
    blocks: &Blocks,
    name: &[u8],
    first: &[u8],
    args: &[&[u8]],
) -> Result<Call, LineErr>
    ensures is { Gives result (behind_lane (is_lane name.now) (call_of blocks.now (verb_of first.now) (map (λ x. x.now) args.now))) }
    ensures form { OnOk result (IsTrue (is_lane name.now)) }
{
    match call_of(alloc, blocks, verb_of(first), args) {
        Err(LineErr::Kind(ScriptKind::Line)) => Err(LineErr::Kind(ScriptKind::Line)),
        Err(LineErr::NoMemory) => Err(LineErr::NoMemory),
        call => {
            if is_lane(name) {
                call
            } else {
                Err(LineErr::Kind(ScriptKind::Lane))
            }
        }
    }
}

// Reads the words of a call behind its lane.
#[tactic(auto, unfolding(crate::specs::Scripts::call_line))]
fn call_line(
    alloc: Global,
    script: &mut Building,
    name: &[u8],
    first: &[u8],
    args: &[&[u8]],
) -> Result<(), LineErr>
    requires kept { IsKept script.old }
    requires fits { FitsLine script.old name.now (first.now ∷ map (λ x. x.now) args.now) }
    ensures is { Makes result script.new (call_line (seen script.old) name.now first.now (map (λ x. x.now) args.now)) }
    ensures kept { OnOk result (IsKept script.new) }
{
    let call = lane_call(alloc, &script.blocks, name, first, args)?;
    add_call(alloc, script, name, call)
}

// Reads the words behind `await`.
#[tactic(auto, unfolding(crate::specs::Scripts::await_line))]
fn await_line(
    alloc: Global,
    script: &mut Building,
    name: &[u8],
    args: &[&[u8]],
    rest: &[&[u8]],
) -> Result<(), LineErr>
    requires kept { IsKept script.old }
    requires fits { IsTrue (is_lane name.now) → FitsLane name.now script.old.lanes.items }
    ensures is { Makes result script.new (await_line (seen script.old) name.now (map (λ x. x.now) args.now) (map (λ x. x.now) rest.now)) }
    ensures kept { OnOk result (IsKept script.new) }
{
    let [call] = args else {
        return Err(LineErr::Kind(ScriptKind::Line));
    };
    if !is_lane(name) {
        return Err(LineErr::Kind(ScriptKind::Lane));
    }
    let Some(call) = awaited(&script.lanes, call) else {
        return Err(LineErr::Kind(ScriptKind::Await));
    };
    if has_await(script, name) {
        return Err(LineErr::Kind(ScriptKind::Await));
    }
    if !is_called_later(name, rest) {
        return Err(LineErr::Kind(ScriptKind::Await));
    }
    add_await(alloc, script, name, call)
}

// Whether a lane has an await whose call is still to come.
fn has_await(script: &Building, name: &[u8]) -> bool
    requires { length script.now.lanes.items ≤ 32 }
    ensures { result ≡ is_some (await_of (place_of name.now 0 script.now.lanes.items).0 script.now.awaits.items) }
{
    let place = place_of(&script.lanes, name);
    await_of(place.0 as u32, &script.awaits).is_some()
}

// Reads the words behind a lane, well formed or not.
#[tactic(auto, unfolding(crate::specs::Scripts::lane_line))]
fn lane_line(
    alloc: Global,
    script: &mut Building,
    name: &[u8],
    words: &[&[u8]],
    rest: &[&[u8]],
) -> Result<(), LineErr>
    requires kept { IsKept script.old }
    requires fits { FitsLine script.old name.now (map (λ x. x.now) words.now) }
    ensures is { Makes result script.new (lane_line (seen script.old) name.now (map (λ x. x.now) words.now) (map (λ x. x.now) rest.now)) }
    ensures kept { OnOk result (IsKept script.new) }
{
    let [first, args @ ..] = words else {
        return Err(LineErr::Kind(ScriptKind::Line));
    };
    let first: &[u8] = first;
    if first == b"await".as_slice() {
        return await_line(alloc, script, name, args, rest);
    }
    call_line(alloc, script, name, first, args)
}

// Reads the words behind `func`, on a line of this number.
#[tactic(auto, unfolding(crate::specs::Scripts::func_line))]
fn func_line(
    alloc: Global,
    number: u32,
    script: &mut Building,
    args: &[&[u8]],
    rest: &[&[u8]],
) -> Result<(), LineErr>
    requires kept { IsKept script.old }
    ensures is { Makes result script.new (func_line number (seen script.old) (map (λ x. x.now) args.now) (map (λ x. x.now) rest.now)) }
    ensures kept { OnOk result (IsKept script.new) }
{
    let [name] = args else {
        return Err(LineErr::Kind(ScriptKind::Line));
    };
    if !has_end(rest) {
        return Err(LineErr::Kind(ScriptKind::Line));
    }
    if Name::of(name).is_none() || script.blocks.block_of(name).is_some() {
        return Err(LineErr::Kind(ScriptKind::Name));
    }
    script.name = name.to_vec(alloc)?;
    script.text = Vec::new(alloc);
    script.block = Some(number);
    Ok(())
}

// Reads a line of the open block.
#[tactic(auto, unfolding(crate::specs::Scripts::body_line))]
fn body_line(script: &mut Building, line: &[u8]) -> Result<(), LineErr>
    requires kept { IsKept script.old }
    ensures is { Makes result script.new (body_line (seen script.old) line.now) }
    ensures kept { OnOk result (IsKept script.new) }
    ensures bytes { script.new.bytes ≡ script.old.bytes }
{
    if !is_line(line) {
        return Err(LineErr::Kind(ScriptKind::Char));
    }
    script.text.extend_from_slice(line)?;
    script.text.push(b'\n')?;
    Ok(())
}

// Reads the line that ends the block, which began on a line of this number.
#[tactic(auto, unfolding(crate::specs::Scripts::end_line))]
fn end_line(alloc: Global, number: u32, script: &mut Building) -> Result<(), ScriptErr>
    requires kept { IsKept script.old }
    requires open { script.old.block ≡ Some number }
    ensures is { Steps result script.new (end_line (seen script.old) number) }
    ensures kept { OnOk result (IsKept script.new) }
    ensures bytes { script.new.bytes ≡ script.old.bytes }
{
    let code = assembled(alloc, number, &script.text)?;
    script.blocks.add(alloc, &script.name, code)?;
    script.block = None;
    Ok(())
}

fn is_comment(first: &[u8]) -> bool
    ensures { result ≡ is_comment first.now }
{
    first.first() == Some(&b';')
}

// Reads the words of a line of this number.
#[tactic(auto, unfolding(crate::specs::Scripts::word_line))]
fn word_line(
    alloc: Global,
    number: u32,
    script: &mut Building,
    words: &[&[u8]],
    rest: &[&[u8]],
) -> Result<(), LineErr>
    requires kept { IsKept script.old }
    requires fits { is_past_limit (seen script.old) (map (λ x. x.now) words.now) ≡ false }
    ensures is { Makes result script.new (word_line number (seen script.old) (map (λ x. x.now) words.now) (map (λ x. x.now) rest.now)) }
    ensures kept { OnOk result (IsKept script.new) }
{
    let [first, more @ ..] = words else {
        return Ok(());
    };
    let first: &[u8] = first;
    if is_comment(first) {
        return Ok(());
    }
    if first == b"fault".as_slice() {
        return fault_line(number, script, more);
    }
    if first == b"func".as_slice() {
        return func_line(alloc, number, script, more, rest);
    }
    if ends_with_colon(first) {
        return lane_line(alloc, script, without_last(first), more, rest);
    }
    Err(LineErr::Kind(ScriptKind::Line))
}

// Reads a line of this number outside the blocks.
#[tactic(auto, unfolding(crate::specs::Scripts::outside_line))]
fn outside_line(
    alloc: Global,
    number: u32,
    script: &mut Building,
    line: &[u8],
    rest: &[&[u8]],
) -> Result<(), LineErr>
    requires kept { IsKept script.old }
    requires bytes { script.old.bytes ≤ 2 ^ 28 }
    ensures is { Makes result script.new (outside_line number (seen script.old) line.now (map (λ x. x.now) rest.now)) }
    ensures kept { OnOk result (IsKept script.new) }
    ensures bytes { OnOk result (script.new.bytes ≤ 2 ^ 28) }
{
    let words = words(alloc, line)?;
    let more = line_bytes(&script.blocks, &words);
    if is_past_limit(script, &words, more) {
        return Err(LineErr::Kind(ScriptKind::Limit));
    }
    if !is_line(line) {
        return Err(LineErr::Kind(ScriptKind::Char));
    }
    let bytes = script.bytes + more;
    word_line(alloc, number, script, &words, rest)?;
    script.bytes = bytes;
    Ok(())
}

// A line's fault with its number.
fn at_line(number: u32, read: Result<(), LineErr>) -> Result<(), ScriptErr>
    ensures is { (new : Building) (line : Result Reading ScriptKind) → Makes read new line → Steps result new (at_line number line) }
    ensures ok { IsOk result → read ≡ Ok tt }
{
    match read {
        Ok(()) => Ok(()),
        Err(LineErr::NoMemory) => Err(ScriptErr::NoMemory),
        Err(LineErr::Kind(kind)) => Err(ScriptErr::Script(ScriptFault { line: number, kind })),
    }
}

// Reads a line of this number, in the block that is open or outside.
#[tactic(auto, unfolding(crate::specs::Scripts::line_in))]
fn read_line(
    alloc: Global,
    number: u32,
    script: &mut Building,
    line: &[u8],
    rest: &[&[u8]],
) -> Result<(), ScriptErr>
    requires kept { IsKept script.old }
    requires bytes { script.old.bytes ≤ 2 ^ 28 }
    ensures is { Steps result script.new (line_in script.old.block number (seen script.old) line.now (map (λ x. x.now) rest.now)) }
    ensures kept { OnOk result (IsKept script.new) }
    ensures bytes { OnOk result (script.new.bytes ≤ 2 ^ 28) }
{
    let Some(first) = script.block else {
        return at_line(number, outside_line(alloc, number, script, line, rest));
    };
    if ends_block(line) {
        return end_line(alloc, first, script);
    }
    at_line(number, body_line(script, line))
}

// A script of which nothing is read.
fn nothing(alloc: Global) -> Building
    ensures is { seen result ≡ nothing }
    ensures kept { IsKept result }
{
    Building {
        lanes: Vec::new(alloc),
        order: Vec::new(alloc),
        faults: Vec::new(alloc),
        awaits: Vec::new(alloc),
        blocks: Blocks::new(alloc),
        bytes: 0,
        block: None,
        name: Vec::new(alloc),
        text: Vec::new(alloc),
    }
}

// Reads the lines of a text.
fn read_lines(alloc: Global, lines: &[&[u8]]) -> Result<Building, ScriptErr>
    requires { length lines.now ≤ 2 ^ 24 + 1 }
    ensures is { ReadsLines result (read_lines 1 nothing (map (λ x. x.now) lines.now)) }
    ensures kept { IfOk result IsKept }
{
    let mut script = nothing(alloc);
    for (i, line) in lines.iter().enumerate() {
        let rest = &lines[i + 1..];
        read_line(alloc, i as u32 + 1, &mut script, line, rest)?;
    }
    Ok(script)
}

/// The script of a text, or the first line that is wrong and what is wrong there. It takes time in proportion to
/// the text's length and the number of lanes. `NoMemory` comes where memory ran out.
pub fn read_script(alloc: Global, text: &[u8]) -> Result<Script, ScriptErr>
    ensures read { Reads result (read_script text.now) }
    ensures ordered { IfOk result IsOrdered }
    ensures limits { IfOk result IsWithinLimits }
{
    if text.len() > MOST_BYTES {
        let kind = ScriptKind::Limit;
        return Err(ScriptErr::Script(ScriptFault { line: 0, kind }));
    }
    let lines = lines(alloc, text)?;
    let script = read_lines(alloc, &lines)?;
    Ok(Script {
        lanes: Listed::new(script.lanes),
        order: Listed::new(script.order),
        faults: Listed::new(script.faults),
    })
}
