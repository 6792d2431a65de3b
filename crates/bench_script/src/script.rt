//! The script of `bench`.
ghost use Rattle.std.specs.Prelude.{◌≡◌, ◌++◌, codes, ◌<◌, ◌≤◌, ◌∷◌, [], IfOk, string_bytes};
ghost use Rattle.hex.specs.Hex.{encode_lower};
ghost use Rattle.bench_script.specs.Script.{lane_text, numbered, at_file, fill_text, run_text, verb, call_end, call_text, line, after_line, script};

use crate::draws::{first, next};
use edge_io::Text;
use std::alloc::{AllocError, Global};

/// The lines ahead of those that are drawn.
const OPENING: &str =
    "func lines\n  ldxdw r2, [r1+0]\n  ldxdw r3, [r1+8]\n  ldxdw r4, [r1+16]\n  add r3, r2\nnext:\n  jeq r2, r3, done\n  ldxb r5, [r2+0]\n  add r2, 1\n  jne r5, 10, next\n  add r6, 1\n  ja next\ndone:\n  stxdw [r4+0], r6\n  mov r0, 8\n  exit\nend\na: create f0\nb: create f1\nc: create f2\nd: create f3\na: load lines func lines\n";

// What stands ahead of a call in its line.
fn lane_text(lane: u64) -> &'static str
    requires { lane < 4 }
    ensures { result.now ≡ lane_text lane }
{
    match lane {
        0 => "a: ",
        1 => "b: ",
        2 => "c: ",
        _ => "d: ",
    }
}

// A byte in hexadecimal digits.
fn byte_text(alloc: Global, byte: u8) -> Result<String, AllocError>
    ensures { IfOk result (λ text. string_bytes text ≡ encode_lower (byte ∷ [])) }
{
    hex::encode(alloc, [byte].as_slice())
}

// Two texts behind one another.
pub fn both(alloc: Global, first: &str, second: &str) -> Result<String, AllocError>
    ensures { IfOk result (λ text. string_bytes text ≡ first.now ++ second.now) }
{
    format!(in alloc; "{first}{second}")
}

// A word and a number.
pub fn numbered(alloc: Global, word: &str, n: u64) -> Result<String, AllocError>
    ensures { IfOk result (λ text. string_bytes text ≡ numbered word.now n) }
{
    format!(in alloc; "{word}{n}")
}

// A call on a file, at an offset.
fn at_file(alloc: Global, verb: &str, file: u64, off: u64) -> Result<String, AllocError>
    ensures { IfOk result (λ text. string_bytes text ≡ at_file verb.now file off) }
{
    let file = numbered(alloc, verb, file)?;
    let off = numbered(alloc, " ", off)?;
    both(alloc, file.as_str(), off.as_str())
}

// A byte in hexadecimal digits, behind its word.
fn byte_part(alloc: Global, byte: u8) -> Result<String, AllocError>
    ensures { IfOk result (λ text. string_bytes text ≡ codes " fill:" ++ encode_lower (byte ∷ [])) }
{
    let byte = byte_text(alloc, byte)?;
    let byte = byte.as_str();
    format!(in alloc; " fill:{byte}")
}

fn fill_text(alloc: Global, byte: u8, len: u64) -> Result<String, AllocError>
    ensures { IfOk result (λ text. string_bytes text ≡ fill_text byte len) }
{
    let byte = byte_part(alloc, byte)?;
    let len = numbered(alloc, "*", len)?;
    both(alloc, byte.as_str(), len.as_str())
}

fn run_text(alloc: Global, len: u64) -> Result<String, AllocError>
    ensures { IfOk result (λ text. string_bytes text ≡ run_text len) }
{
    let len = numbered(alloc, " ", len)?;
    let len = len.as_str();
    format!(in alloc; "{len} lines 60000 8 hex:")
}

// What stands behind the offset of a call of a kind.
fn call_end(alloc: Global, kind: u64, len: u64, byte: u8) -> Result<String, AllocError>
    ensures { IfOk result (λ text. string_bytes text ≡ call_end kind len byte) }
{
    match kind {
        0 => fill_text(alloc, byte, len),
        1 => numbered(alloc, " ", len),
        2 => run_text(alloc, len),
        _ => Ok(String::new(alloc)),
    }
}

// The word of a kind of call, and the beginning of its file.
fn verb(kind: u64) -> &'static str
    ensures { result.now ≡ verb kind }
{
    match kind {
        0 => "write f",
        1 => "read f",
        2 => "readl f",
        _ => "trunc f",
    }
}

// The call of a kind.
fn call_text(
    alloc: Global,
    kind: u64,
    file: u64,
    off: u64,
    len: u64,
    byte: u8,
) -> Result<String, AllocError>
    ensures { IfOk result (λ text. string_bytes text ≡ call_text kind file off len byte) }
{
    let place = at_file(alloc, verb(kind), file, off)?;
    let end = call_end(alloc, kind, len, byte)?;
    both(alloc, place.as_str(), end.as_str())
}

// The line that is drawn from a state.
#[tactic(auto, unfolding(crate::specs::Script::line))]
fn line(alloc: Global, state: u64) -> Result<String, AllocError>
    ensures { IfOk result (λ text. string_bytes text ≡ line state) }
{
    let lane = next(state);
    let kind = next(lane);
    let file = next(kind);
    let off = next(file);
    let len = next(off);
    let byte = next(len);
    let call = call_text(
        alloc,
        kind % 4,
        file % 4,
        off % 65536,
        len % 8192,
        (byte % 256) as u8,
    )?;
    let lane = lane_text(lane % 4);
    let call = call.as_str();
    format!(in alloc; "{lane}{call}\n")
}

// The state behind it.
#[tactic(auto, unfolding(crate::specs::Script::after_line))]
fn after_line(state: u64) -> u64
    ensures { result ≡ after_line state }
{
    let kind = next(next(state));
    let len = next(next(next(kind)));
    if kind % 4 == 0 { next(len) } else { len }
}

/// The script that `bench` runs: the function `lines`, a file for each of four lanes, and so many lines that are drawn
/// from the start. `Err` comes where memory ran out.
pub fn make_script(alloc: Global, start: u64, calls: u32) -> Result<Text, AllocError>
    ensures { IfOk result (λ text. text ≡ script start calls) }
{
    let mut text = String::from_str(alloc, OPENING)?;
    let mut state = first(start);
    for _ in 0..calls {
        let drawn = line(alloc, state)?;
        text.push_str(drawn.as_str())?;
        state = after_line(state);
    }
    Ok(Text::new(text))
}
