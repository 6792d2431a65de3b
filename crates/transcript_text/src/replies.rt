//! The replies that the words of a line spell.
ghost use Rattle.std.specs.Prelude.{◌≡◌, ◌^◌, IfOk, map};
ghost use Rattle.std.specs.List.{list_all};
ghost use Rattle.std.specs.Option.{option_map};
ghost use Rattle.transcript_text.specs.Transcripts.{number_32, number_64, is_lower_digit, lower_number, address_of, reply_bytes, kind_of, reply_word, reply_value, trap_value, bad_code, reply_pair, trap_access, trap_line, reply_of};
ghost use Rattle.transcript_text.specs.Found.{Finds};

use crate::transcript::ReplyErr;
use edge_io::Bytes;
use plain_files::{CodeKind, Reply};
use sbpf_insn::{InsnKind, VerifyKind};
use script_words::{hex_of, is_digit, number_in, value_of};
use std::alloc::Global;

pub fn number_32(word: &[u8]) -> Option<u32>
    ensures { result ≡ number_32 word.now }
{
    let n = number_in(0, 4_294_967_295, word)?;
    Some(n as u32)
}

pub fn number_64(word: &[u8]) -> Option<u64>
    ensures { result ≡ number_64 word.now }
{
    number_in(0, u64::MAX, word)
}

fn is_lower_digit(b: u8) -> bool
    ensures { result ≡ is_lower_digit b }
{
    is_digit(b) || (b'a' <= b && b <= b'f')
}

fn has_lower_digits(word: &[u8]) -> bool
    ensures { result ≡ list_all is_lower_digit word.now }
{
    word.iter().all(|b| is_lower_digit(*b))
}

// A number in lower-case hexadecimal digits.
fn lower_number(digits: &[u8]) -> Option<u64>
    ensures { result ≡ lower_number digits.now }
{
    let [first, rest @ ..] = digits else {
        return None;
    };
    if !has_lower_digits(digits) {
        return None;
    }
    if rest.len() == 0 || *first != b'0' {
        return value_of(16, digits);
    }
    None
}

fn address_of(word: &[u8]) -> Option<u64>
    ensures { result ≡ address_of word.now }
{
    match word {
        [b'0', b'x', digits @ ..] => lower_number(digits),
        _ => None,
    }
}

// Bytes in lower-case hexadecimal, `-` for none.
fn reply_bytes(alloc: Global, word: &[u8]) -> Result<Bytes, ReplyErr>
    ensures { Finds result (reply_bytes word.now) }
{
    if word == b"-".as_slice() {
        return Ok(Bytes::new(Vec::new(alloc)));
    }
    if word.is_empty() || !has_lower_digits(word) {
        return Err(ReplyErr::Form);
    }
    match hex_of(alloc, word)? {
        Some(bytes) => Ok(Bytes::new(bytes)),
        None => Err(ReplyErr::Form),
    }
}

// The kind of a code's fault.
fn kind_of(word: &[u8]) -> Option<CodeKind>
    ensures { result ≡ kind_of word.now }
{
    if word == b"truncated".as_slice() {
        return Some(CodeKind::Insn(InsnKind::Truncated));
    }
    if word == b"refused".as_slice() {
        return Some(CodeKind::Insn(InsnKind::Refused));
    }
    if word == b"opcode".as_slice() {
        return Some(CodeKind::Insn(InsnKind::Opcode));
    }
    if word == b"register".as_slice() {
        return Some(CodeKind::Insn(InsnKind::Register));
    }
    if word == b"field".as_slice() {
        return Some(CodeKind::Insn(InsnKind::Field));
    }
    if word == b"wide".as_slice() {
        return Some(CodeKind::Insn(InsnKind::Wide));
    }
    if word == b"empty".as_slice() {
        return Some(CodeKind::Verify(VerifyKind::Empty));
    }
    if word == b"toolong".as_slice() {
        return Some(CodeKind::Verify(VerifyKind::TooLong));
    }
    if word == b"writer10".as_slice() {
        return Some(CodeKind::Verify(VerifyKind::Writer10));
    }
    if word == b"jump".as_slice() {
        return Some(CodeKind::Verify(VerifyKind::Jump));
    }
    if word == b"middle".as_slice() {
        return Some(CodeKind::Verify(VerifyKind::Middle));
    }
    if word == b"calltarget".as_slice() {
        return Some(CodeKind::Verify(VerifyKind::CallTarget));
    }
    if word == b"fallsoff".as_slice() {
        return Some(CodeKind::Verify(VerifyKind::FallsOff));
    }
    None
}

// A reply of one word.
fn reply_word(word: &[u8]) -> Result<Reply, ReplyErr>
    ensures { Finds result (reply_word word.now) }
{
    if word == b"ok".as_slice() {
        return Ok(Reply::Done);
    }
    if word == b"spent".as_slice() {
        return Ok(Reply::Spent);
    }
    if word == b"badname".as_slice() {
        return Ok(Reply::BadName);
    }
    if word == b"exists".as_slice() {
        return Ok(Reply::Exists);
    }
    if word == b"full".as_slice() {
        return Ok(Reply::Full);
    }
    if word == b"nofile".as_slice() {
        return Ok(Reply::NoFile);
    }
    if word == b"nofn".as_slice() {
        return Ok(Reply::NoFn);
    }
    if word == b"toolong".as_slice() {
        return Ok(Reply::TooLong);
    }
    if word == b"appendonly".as_slice() {
        return Ok(Reply::AppendOnly);
    }
    if word == b"toobig".as_slice() {
        return Ok(Reply::TooBig);
    }
    if word == b"nospace".as_slice() {
        return Ok(Reply::NoSpace);
    }
    if word == b"fnfull".as_slice() {
        return Ok(Reply::FnFull);
    }
    if word == b"fault".as_slice() {
        return Ok(Reply::Fault);
    }
    if word == b"nomemory".as_slice() {
        return Ok(Reply::NoMemory);
    }
    Err(ReplyErr::Form)
}

// A number of 32 bits, or no reply.
fn found_32(word: &[u8]) -> Result<u32, ReplyErr>
    ensures { Finds result (number_32 word.now) }
{
    match number_32(word) {
        Some(n) => Ok(n),
        None => Err(ReplyErr::Form),
    }
}

// A number of 64 bits, or no reply.
fn found_64(word: &[u8]) -> Result<u64, ReplyErr>
    ensures { Finds result (number_64 word.now) }
{
    match number_64(word) {
        Some(n) => Ok(n),
        None => Err(ReplyErr::Form),
    }
}

// A reply with a value.
#[tactic(auto, unfolding(crate::specs::Transcripts::reply_value))]
fn reply_value(alloc: Global, word: &[u8], value: &[u8]) -> Result<Reply, ReplyErr>
    ensures { Finds result (reply_value word.now value.now) }
{
    if word == b"id".as_slice() {
        return Ok(Reply::Id(found_32(value)?));
    }
    if word == b"len".as_slice() {
        return Ok(Reply::Len(found_64(value)?));
    }
    if word == b"val".as_slice() {
        return Ok(Reply::Val(found_64(value)?));
    }
    if word == b"at".as_slice() {
        return Ok(Reply::At(found_64(value)?));
    }
    if word == b"data".as_slice() {
        return Ok(Reply::DataBytes(reply_bytes(alloc, value)?));
    }
    if word == b"res".as_slice() {
        return Ok(Reply::Res(reply_bytes(alloc, value)?));
    }
    Err(ReplyErr::Form)
}

// `depth SLOT` and `outlen R0`.
#[tactic(auto, unfolding(crate::specs::Transcripts::trap_value))]
fn trap_value(word: &[u8], value: &[u8]) -> Result<Reply, ReplyErr>
    ensures { Finds result (trap_value word.now value.now) }
{
    if word == b"depth".as_slice() {
        let slot = found_32(value)?;
        return Ok(Reply::TrapDepth { slot });
    }
    if word == b"outlen".as_slice() {
        let r0 = found_64(value)?;
        return Ok(Reply::TrapOutLen { r0 });
    }
    Err(ReplyErr::Form)
}

// `KIND SLOT`.
#[tactic(auto, unfolding(crate::specs::Transcripts::bad_code))]
fn bad_code(kind: &[u8], slot: &[u8]) -> Result<Reply, ReplyErr>
    ensures { Finds result (bad_code kind.now slot.now) }
{
    let Some(kind) = kind_of(kind) else {
        return Err(ReplyErr::Form);
    };
    let slot = found_32(slot)?;
    Ok(Reply::BadCode { kind, slot })
}

// A reply with two words behind its first.
#[tactic(auto, unfolding(crate::specs::Transcripts::reply_pair))]
fn reply_pair(word: &[u8], first: &[u8], second: &[u8]) -> Result<Reply, ReplyErr>
    ensures { Finds result (reply_pair word.now first.now second.now) }
{
    if word == b"trap".as_slice() {
        return trap_value(first, second);
    }
    if word == b"badcode".as_slice() {
        return bad_code(first, second);
    }
    Err(ReplyErr::Form)
}

// `0xADDRESS SIZE SLOT`.
#[tactic(auto, unfolding(crate::specs::Transcripts::trap_access))]
fn trap_access(address: &[u8], size: &[u8], slot: &[u8]) -> Result<Reply, ReplyErr>
    ensures { Finds result (trap_access address.now size.now slot.now) }
{
    let Some(address) = address_of(address) else {
        return Err(ReplyErr::Form);
    };
    let size = found_32(size)?;
    let slot = found_32(slot)?;
    Ok(Reply::TrapAccess {
        address,
        size,
        slot,
    })
}

// `trap access 0xADDRESS SIZE SLOT`.
fn trap_line(
    word: &[u8],
    which: &[u8],
    address: &[u8],
    size: &[u8],
    slot: &[u8],
) -> Result<Reply, ReplyErr>
    ensures { Finds result (trap_line word.now which.now address.now size.now slot.now) }
{
    if word != b"trap".as_slice() || which != b"access".as_slice() {
        return Err(ReplyErr::Form);
    }
    trap_access(address, size, slot)
}

// The reply of the parts of a line behind its number and call.
#[tactic(auto, unfolding(crate::specs::Transcripts::reply_of))]
pub fn reply_of(alloc: Global, words: &[&[u8]]) -> Result<Reply, ReplyErr>
    ensures { Finds result (reply_of (map (λ x. x.now) words.now)) }
{
    match words {
        [word] => reply_word(word),
        [word, value] => reply_value(alloc, word, value),
        [word, first, second] => reply_pair(word, first, second),
        [word, which, address, size, slot] => trap_line(word, which, address, size, slot),
        _ => Err(ReplyErr::Form),
    }
}
