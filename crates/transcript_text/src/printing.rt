//! The lines of a transcript.
ghost use Rattle.std.specs.Prelude.{◌≡◌, ◌++◌, IfOk, string_bytes, decimal};
ghost use Rattle.plain_files.specs.declared.calls.Reply.TheVariants.{TrapAccess};
ghost use Rattle.transcript_text.specs.Print.{bytes_text, insn_word, verify_word, kind_word, address_text, reply_text, reply_line, places_line};

use edge_io::Text;
use plain_files::{CodeKind, Reply};
use sbpf_insn::{InsnKind, VerifyKind};
use std::alloc::{AllocError, Global};

// Bytes in hexadecimal, `-` for none.
fn bytes_text(alloc: Global, bytes: &[u8]) -> Result<String, AllocError>
    ensures { IfOk result (λ s. string_bytes s ≡ bytes_text bytes.now) }
{
    if bytes.is_empty() {
        return String::from_str(alloc, "-");
    }
    hex::encode(alloc, bytes)
}

// The word of a fault in the bytes of code.
fn insn_word(kind: InsnKind) -> &'static str
    ensures { result.now ≡ insn_word kind }
{
    match kind {
        InsnKind::Truncated => "truncated",
        InsnKind::Refused => "refused",
        InsnKind::Opcode => "opcode",
        InsnKind::Register => "register",
        InsnKind::Field => "field",
        InsnKind::Wide => "wide",
    }
}

// The word of a fault in code that may not be run.
fn verify_word(kind: VerifyKind) -> &'static str
    ensures { result.now ≡ verify_word kind }
{
    match kind {
        VerifyKind::Empty => "empty",
        VerifyKind::TooLong => "toolong",
        VerifyKind::Writer10 => "writer10",
        VerifyKind::Jump => "jump",
        VerifyKind::Middle => "middle",
        VerifyKind::CallTarget => "calltarget",
        VerifyKind::FallsOff => "fallsoff",
    }
}

fn kind_word(kind: CodeKind) -> &'static str
    ensures { result.now ≡ kind_word kind }
{
    match kind {
        CodeKind::Insn(kind) => insn_word(kind),
        CodeKind::Verify(kind) => verify_word(kind),
    }
}

// An address in hexadecimal.
fn address_text(alloc: Global, address: u64) -> Result<String, AllocError>
    ensures { IfOk result (λ s. string_bytes s ≡ address_text address) }
{
    format!(in alloc; "0x{address:x}")
}

// A word and a count.
fn count_text(alloc: Global, word: &str, count: u64) -> Result<String, AllocError>
    ensures { IfOk result (λ s. string_bytes s ≡ word.now ++ decimal count) }
{
    format!(in alloc; "{word}{count}")
}

// `trap access`, an address, a size and a slot.
fn access_text(alloc: Global, address: u64, size: u32, slot: u32) -> Result<String, AllocError>
    ensures { IfOk result (λ s. string_bytes s ≡ reply_text (TrapAccess address size slot)) }
{
    let address = address_text(alloc, address)?;
    let mut text = format!(in alloc; "trap access {address}")?;
    text.push_str(count_text(alloc, " ", u64::from(size))?.as_str())?;
    text.push_str(count_text(alloc, " ", u64::from(slot))?.as_str())?;
    Ok(text)
}

/// The text of a reply, as in its line of a transcript. `Err` comes where memory ran out.
pub fn reply_text(alloc: Global, reply: &Reply) -> Result<String, AllocError>
    ensures { IfOk result (λ s. string_bytes s ≡ reply_text reply.now) }
{
    let word = match reply {
        Reply::Id(id) => return format!(in alloc; "id {id}"),
        Reply::Len(len) => return format!(in alloc; "len {len}"),
        Reply::Val(r0) => return format!(in alloc; "val {r0}"),
        Reply::At(off) => return format!(in alloc; "at {off}"),
        Reply::DataBytes(bytes) => {
            let text = bytes_text(alloc, bytes.as_slice())?;
            return format!(in alloc; "data {text}");
        }
        Reply::Res(bytes) => {
            let text = bytes_text(alloc, bytes.as_slice())?;
            return format!(in alloc; "res {text}");
        }
        Reply::TrapAccess {
            address,
            size,
            slot,
        } => return access_text(alloc, *address, *size, *slot),
        Reply::TrapDepth { slot } => return format!(in alloc; "trap depth {slot}"),
        Reply::TrapOutLen { r0 } => return format!(in alloc; "trap outlen {r0}"),
        Reply::BadCode { kind, slot } => {
            let word = kind_word(*kind);
            return format!(in alloc; "badcode {word} {slot}");
        }
        Reply::Done => "ok",
        Reply::Spent => "spent",
        Reply::BadName => "badname",
        Reply::Exists => "exists",
        Reply::Full => "full",
        Reply::NoFile => "nofile",
        Reply::NoFn => "nofn",
        Reply::TooLong => "toolong",
        Reply::AppendOnly => "appendonly",
        Reply::TooBig => "toobig",
        Reply::NoSpace => "nospace",
        Reply::FnFull => "fnfull",
        Reply::Fault => "fault",
        Reply::NoMemory => "nomemory",
    };
    String::from_str(alloc, word)
}

/// The line `#NUMBER LANE.K REPLY` of a reply, with its line end. The bytes in a reply are lower-case
/// hexadecimal, `-` for none.
pub fn reply_line(
    alloc: Global,
    number: u64,
    lane: &Text,
    k: u32,
    reply: &Reply,
) -> Result<Text, AllocError>
    ensures { IfOk result (λ s. s ≡ reply_line number lane.now k reply.now) }
{
    let lane = lane.as_str();
    let text = reply_text(alloc, reply)?;
    let line = format!(in alloc; "#{number} {lane}.{k} {text}\n")?;
    Ok(Text::new(line))
}

/// The last line of a transcript, with its line end: the calls with a function that were begun at the host and in
/// the drive, the pages that were read, and those that were written.
pub fn places_line(
    alloc: Global,
    host: u64,
    drive: u64,
    reads: u64,
    writes: u64,
) -> Result<Text, AllocError>
    ensures { IfOk result (λ s. s ≡ places_line (record { host = host; drive = drive; reads = reads; writes = writes })) }
{
    let mut line = count_text(alloc, "places host=", host)?;
    line.push_str(count_text(alloc, " drive=", drive)?.as_str())?;
    line.push_str(count_text(alloc, " reads=", reads)?.as_str())?;
    line.push_str(count_text(alloc, " writes=", writes)?.as_str())?;
    line.push_str("\n")?;
    Ok(Text::new(line))
}
