//! A transcript is held against the plain machine, entry by entry.
ghost use Rattle.std.specs.Prelude.{◌≡◌, ◌<◌, ◌+◌, ◌^◌, ℕ, List, [], map, length, replicate, slice_set, option_copied, IfOk, IsSome};
ghost use Rattle.script_words.specs.Lanes.{requests};
ghost use Rattle.history_check.specs.Held.{count_of, IsHeld, IsLegal};
ghost use Rattle.history_check.specs.Verdicts.{has_come, next_request, are_all_made, verdict};
ghost use Rattle.history_check.specs.Histories.{IsHistory};

use crate::replies::{is_excuse, is_same_reply};
use crate::verdict::Verdict;
use plain_files::{Call, Reply, Request};
use plain_run::Plain;
use script_words::{Lane, Script};
use std::alloc::{AllocError, Global};
use transcript_text::Transcript;

// How many calls of a lane were made. A lane that isn't there has none.
fn count_of(counts: &[u32], lane: usize) -> u32
    ensures { result ≡ count_of counts.now lane }
{
    match counts.get(lane) {
        Some(count) => *count,
        None => 0,
    }
}

// No call of any lane was made.
fn no_counts(alloc: Global, lanes: usize) -> Result<Vec<u32>, AllocError>
    ensures { IfOk result (λ counts. counts.items ≡ replicate lanes 0) }
{
    let mut counts = Vec::new(alloc);
    counts.resize(lanes, 0)?;
    Ok(counts)
}

// One call more of a lane was made.
fn count_one(counts: &mut Vec<u32>, lane: usize)
    requires within { lane < length counts.old.items }
    requires fits { count_of counts.old.items lane + 1 < 2 ^ 32 }
    ensures { counts.new.items ≡ slice_set counts.old.items lane (count_of counts.old.items lane + 1) }
{
    let made = count_of(counts, lane);
    counts[lane] = made + 1;
}

fn has_come(counts: &[u32], awaited: Option<(u32, u32)>) -> bool
    ensures { result ≡ has_come (count_of counts.now) awaited }
{
    match awaited {
        None => true,
        Some((lane, k)) => k <= count_of(counts, lane as usize),
    }
}

// The request of a lane and a number there, where it is the lane's next and need not wait.
fn next_request<'a>(lanes: &'a [Lane], counts: &[u32], lane: u32, k: u32) -> Option<&'a Request>
    ensures is { option_copied result ≡ next_request (map (λ l. l.requests) lanes.now) (count_of counts.now) lane k }
    ensures small { IsSome result → count_of counts.now lane + 1 < 2 ^ 32 }
{
    let made = count_of(counts, lane as usize);
    if u64::from(k) != u64::from(made) + 1 {
        return None;
    }
    let lane = lanes.get(lane as usize)?;
    let request = lane.requests.as_slice().get(made as usize)?;
    if has_come(counts, request.awaits) {
        Some(request)
    } else {
        None
    }
}

fn are_all_made(lanes: &[Lane], counts: &[u32]) -> bool
    ensures { result ≡ are_all_made (map (λ l. l.requests) lanes.now) 0 (count_of counts.now) }
{
    for (i, lane) in lanes.iter().enumerate() {
        if u64::from(count_of(counts, i)) != lane.requests.len() as u64 {
            return false;
        }
    }
    true
}

// Holds one reply against the machine, which moves on. What it expects, where that is another reply.
#[tactic(auto, using(crate::proofs::Same::same_equal))]
fn held(plain: &mut Plain, call: &Call, reply: &Reply) -> Result<Option<Reply>, AllocError>
    ensures { IfOk result (IsHeld plain.old call.now reply.now plain.new) }
{
    if is_excuse(reply) {
        return Ok(None);
    }
    let expected = plain.answer(call)?;
    if is_same_reply(reply, &expected) {
        Ok(None)
    } else {
        Ok(Some(expected))
    }
}

/// Whether the entries of a transcript are one legal history of the machine that serves the script;
/// else the first number at which the order, and then the reply, is wrong. After `Legal` the machine
/// is in the history's last state; else it has gone as far as the entries were right.
pub fn check_history(
    alloc: Global,
    plain: &mut Plain,
    script: &Script,
    transcript: &Transcript,
) -> Result<Verdict, AllocError>
    ensures exact { IfOk result (λ v. v ≡ verdict (requests script.now) plain.old [] transcript.now.entries) }
    ensures legal { IfOk result (λ v. IsLegal v → IsHistory (requests script.now) plain.old transcript.now.entries plain.new) }
{
    let lanes = script.lanes.as_slice();
    let mut counts = no_counts(alloc, lanes.len())?;
    for (i, line) in transcript.entries.as_slice().iter().enumerate() {
        let number = i as u64 + 1;
        let Some(request) = next_request(lanes, &counts, line.0, line.1) else {
            return Ok(Verdict::Order { number });
        };
        if let Some(expected) = held(plain, &request.call, &line.2)? {
            return Ok(Verdict::Differs { number, expected });
        }
        count_one(&mut counts, line.0 as usize);
    }
    let calls = transcript.entries.len() as u64;
    if are_all_made(lanes, &counts) {
        Ok(Verdict::Legal { calls })
    } else {
        Ok(Verdict::Order { number: calls + 1 })
    }
}
