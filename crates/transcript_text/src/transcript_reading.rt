//! How a transcript is read: line by line.
ghost use Rattle.std.specs.Prelude.{◌≡◌, ◌+◌, ◌≤◌, ◌<◌, ◌^◌, ◌-◌, [], IfOk, map, length, option_copied};
ghost use Rattle.std.specs.List.{slice_split};
ghost use Rattle.script_words.specs.Lanes.{lane_part, number_part};
ghost use Rattle.transcript_text.specs.Transcripts.{text_lines, is_space, parts, is_number, request_at, is_allowed_at, call_at, entry_parts, is_count, are_places, is_places, read_entries, read_transcript};
ghost use Rattle.transcript_text.specs.Found.{Finds, refused_at, ReadsLine, ReadsEntries};

use crate::replies::{number_64, reply_of};
use crate::transcript::{ReplyErr, Transcript, TranscriptErr};
use edge_io::Listed;
use plain_files::{Reply, Request, allowed};
use script_words::{Lane, Script, cut_point, lines, number_in, place_of};
use std::alloc::{AllocError, Global};

/// The most lines, and the most lanes, that 32 bits number.
const MOST: usize = 4_294_967_295;

// The lines of a text, of which the last line end may be missing.
fn text_lines(alloc: Global, text: &[u8]) -> Result<Vec<&[u8]>, AllocError>
    ensures { IfOk result (λ v. map (λ x. x.now) v.items ≡ text_lines text.now) }
{
    match text {
        [] => Ok(Vec::new(alloc)),
        [front @ .., b'\n'] => lines(alloc, front),
        _ => lines(alloc, text),
    }
}

// The parts of a line between its spaces.
fn parts(alloc: Global, line: &[u8]) -> Result<Vec<&[u8]>, AllocError>
    ensures { IfOk result (λ v. map (λ x. x.now) v.items ≡ parts line.now) }
{
    line.split(|b| *b == b' ').collect(alloc)
}

// Whether a word is `#` and this number.
fn is_number(number: u64, word: &[u8]) -> bool
    ensures { result ≡ is_number number word.now }
{
    match word {
        [b'#', digits @ ..] => number_in(number, number, digits).is_some(),
        _ => false,
    }
}

// The K-th request of a lane, if there is one.
fn request_at(lanes: &[Lane], lane: usize, k: u32) -> Option<&Request>
    requires { 1 ≤ k }
    ensures { option_copied result ≡ request_at lanes.now lane k }
{
    let lane = lanes.get(lane)?;
    lane.requests.as_slice().get(k as usize - 1)
}

// Whether a reply's form belongs to the K-th call of a lane, where the lane has one.
fn is_allowed_at(lanes: &[Lane], lane: usize, k: u32, reply: &Reply) -> bool
    requires { 1 ≤ k }
    ensures { result ≡ is_allowed_at (request_at lanes.now lane k) reply.now }
{
    match request_at(lanes, lane, k) {
        Some(request) => allowed(&request.call, reply),
        None => true,
    }
}

// The lane and the number of a word `LANE.K`.
#[tactic(auto, unfolding(crate::specs::Transcripts::call_at))]
fn call_at(lanes: &[Lane], word: &[u8]) -> Result<(u32, u32), ReplyErr>
    requires { length lanes.now < 2 ^ 32 }
    ensures is { Finds result (call_at lanes.now word.now) }
    ensures from_one { IfOk result (λ call. 1 ≤ call.1) }
{
    let (name, number) = cut_point(word);
    let place = place_of(lanes, name);
    if place.0 >= lanes.len() {
        return Err(ReplyErr::Form);
    }
    match number_in(1, 4_294_967_295, number) {
        Some(k) => Ok((place.0 as u32, k as u32)),
        None => Err(ReplyErr::Form),
    }
}

// The entry of a line of this number.
#[tactic(auto, unfolding(crate::specs::Transcripts::entry_parts))]
fn entry_of(
    alloc: Global,
    lanes: &[Lane],
    number: u64,
    parts: &[&[u8]],
) -> Result<(u32, u32, Reply), ReplyErr>
    requires { length lanes.now < 2 ^ 32 }
    ensures { Finds result (entry_parts lanes.now number (map (λ x. x.now) parts.now)) }
{
    let [first, call, words @ ..] = parts else {
        return Err(ReplyErr::Form);
    };
    if !is_number(number, first) {
        return Err(ReplyErr::Form);
    }
    let (lane, k) = call_at(lanes, call)?;
    let reply = reply_of(alloc, words)?;
    if !is_allowed_at(lanes, lane as usize, k, &reply) {
        return Err(ReplyErr::Form);
    }
    Ok((lane, k, reply))
}

// Whether a word is a name and a count.
#[tactic(auto, unfolding(crate::specs::Transcripts::is_count))]
fn is_count(name: &[u8], word: &[u8]) -> bool
    ensures { result ≡ is_count name.now word.now }
{
    if !word.starts_with(name) {
        return false;
    }
    number_64(&word[name.len()..]).is_some()
}

// Whether five words are those of the last line.
#[tactic(auto, unfolding(crate::specs::Transcripts::are_places))]
fn are_places(places: &[u8], host: &[u8], drive: &[u8], reads: &[u8], writes: &[u8]) -> bool
    ensures { result ≡ are_places places.now host.now drive.now reads.now writes.now }
{
    if places != b"places".as_slice() {
        return false;
    }
    if !is_count(b"host=", host) {
        return false;
    }
    if !is_count(b"drive=", drive) {
        return false;
    }
    if !is_count(b"reads=", reads) {
        return false;
    }
    is_count(b"writes=", writes)
}

// Whether the parts of a line are those of the last.
#[tactic(auto, unfolding(crate::specs::Transcripts::is_places))]
fn is_places(parts: &[&[u8]]) -> bool
    ensures { result ≡ is_places (map (λ x. x.now) parts.now) }
{
    match parts {
        [places, host, drive, reads, writes] => are_places(places, host, drive, reads, writes),
        _ => false,
    }
}

// A line is refused, or memory ran out.
fn at_line(line: u32, e: ReplyErr) -> TranscriptErr
    ensures { result ≡ refused_at line e }
{
    match e {
        ReplyErr::Form => TranscriptErr::Form { line },
        ReplyErr::NoMemory => TranscriptErr::NoMemory,
    }
}

// The entry of a line; none for the last line.
fn read_line(
    alloc: Global,
    lanes: &[Lane],
    number: u32,
    line: &[u8],
) -> Result<Option<(u32, u32, Reply)>, ReplyErr>
    requires { length lanes.now < 2 ^ 32 }
    ensures { ReadsLine result (is_places (parts line.now)) (entry_parts lanes.now number (parts line.now)) }
{
    let parts = parts(alloc, line)?;
    if is_places(&parts) {
        return Ok(None);
    }
    Ok(Some(entry_of(alloc, lanes, u64::from(number), &parts)?))
}

// The entries of lines.
fn read_entries(alloc: Global, lanes: &[Lane], lines: &[&[u8]]) -> Result<Transcript, TranscriptErr>
    requires lanes { length lanes.now < 2 ^ 32 }
    requires lines { length lines.now < 2 ^ 32 - 1 }
    ensures { ReadsEntries result (read_entries lanes.now 1 [] (map (λ x. x.now) lines.now)) }
{
    let mut entries = Listed::new(Vec::new(alloc));
    for (i, line) in lines.iter().enumerate() {
        let number = i as u32 + 1;
        match read_line(alloc, lanes, number, line) {
            Ok(Some(entry)) => {
                if entries.push(entry).is_err() {
                    return Err(TranscriptErr::NoMemory);
                }
            }
            Ok(None) => {
                if i + 1 < lines.len() {
                    return Err(TranscriptErr::Form { line: number + 1 });
                }
                return Ok(Transcript { entries });
            }
            Err(e) => return Err(at_line(number, e)),
        }
    }
    let line = lines.len() as u32 + 1;
    Err(TranscriptErr::Form { line })
}

/// The transcript of a text over the lanes of a script, or the first line that is refused. `NoMemory` comes where
/// memory ran out, and where there are more lines or lanes than 32 bits count.
pub fn read_transcript(
    alloc: Global,
    text: &[u8],
    script: &Script,
) -> Result<Transcript, TranscriptErr>
    ensures { ReadsEntries result (read_transcript text.now script.now.lanes) }
{
    let Ok(lines) = text_lines(alloc, text) else {
        return Err(TranscriptErr::NoMemory);
    };
    let lanes = script.lanes.as_slice();
    if lines.len() >= MOST || lanes.len() >= MOST {
        return Err(TranscriptErr::NoMemory);
    }
    read_entries(alloc, lanes, &lines)
}
