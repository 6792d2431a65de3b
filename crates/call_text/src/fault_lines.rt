//! The lines that say which read or write of a die is to fail.
ghost use Rattle.std.specs.Prelude.{◌≡◌, nat_lt, length, map, OnOk};
ghost use Rattle.call_text.specs.Scripts.{one_of, number_from, fault_words, fault_line};
ghost use Rattle.call_text.specs.Building.{seen, IsKept};
ghost use Rattle.call_text.specs.Outcomes.{Gives, Makes};

use crate::building::Building;
use crate::faults::{LineErr, ScriptKind};
use script_words::{FaultLine, number_in};

// Which of two words stands there.
#[tactic(auto, unfolding(crate::specs::Scripts::one_of))]
fn one_of(no: &[u8], yes: &[u8], word: &[u8]) -> Result<bool, LineErr>
    ensures { Gives result (one_of no.now yes.now word.now) }
{
    if word == no {
        return Ok(false);
    }
    if word == yes {
        return Ok(true);
    }
    Err(LineErr::Kind(ScriptKind::Line))
}

// A number within bounds.
#[tactic(auto, unfolding(crate::specs::Scripts::number_from))]
fn number_from(low: u32, high: u32, word: &[u8]) -> Result<u32, LineErr>
    ensures { Gives result (number_from low high word.now) }
{
    match number_in(u64::from(low), u64::from(high), word) {
        Some(n) => Ok(n as u32),
        None => Err(LineErr::Kind(ScriptKind::Number)),
    }
}

// Whether a lane line has been read.
fn has_lanes(script: &Building) -> bool
    ensures { result ≡ nat_lt 0 (length script.now.lanes.items) }
{
    script.lanes.len() > 0
}

// Reads the words of a line of this number, one by one.
#[tactic(auto, unfolding(crate::specs::Scripts::fault_words))]
fn fault_words(
    number: u32,
    script: &mut Building,
    which: &[u8],
    die: &[u8],
    way: &[u8],
    nth: &[u8],
) -> Result<(), LineErr>
    requires kept { IsKept script.old }
    ensures is { Makes result script.new (fault_words number (seen script.old) which.now die.now way.now nth.now) }
    ensures kept { OnOk result (IsKept script.new) }
{
    let copy = one_of(b"die", b"copy", which)?;
    let writing = one_of(b"read", b"write", way)?;
    if has_lanes(script) {
        return Err(LineErr::Kind(ScriptKind::Order));
    }
    let die = number_from(0, 15, die)?;
    let nth = number_from(1, u32::MAX, nth)?;
    script.faults.push(FaultLine {
        line: number,
        die,
        writing,
        nth,
        copy,
    })?;
    Ok(())
}

// Reads the words behind `fault`, on a line of this number.
#[tactic(auto, unfolding(crate::specs::Scripts::fault_line))]
pub fn fault_line(number: u32, script: &mut Building, args: &[&[u8]]) -> Result<(), LineErr>
    requires kept { IsKept script.old }
    ensures is { Makes result script.new (fault_line number (seen script.old) (map (λ x. x.now) args.now)) }
    ensures kept { OnOk result (IsKept script.new) }
{
    match args {
        [which, die, way, nth] => fault_words(number, script, which, die, way, nth),
        _ => Err(LineErr::Kind(ScriptKind::Line)),
    }
}
