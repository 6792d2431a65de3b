//! Requests are copied: who prepares a call keeps one of its own.
ghost use Rattle.std.specs.Prelude.{◌≡◌, IfOk};

use edge_io::Bytes;
use plain_files::{Call, Request, Word};
use std::alloc::{AllocError, Global};

/// The same bytes again.
pub(crate) fn copy_bytes(alloc: Global, bytes: &Bytes) -> Result<Bytes, AllocError>
    ensures { IfOk result (λ copy. copy ≡ bytes.now) }
{
    let copy = bytes.as_slice().to_vec(alloc)?;
    Ok(Bytes::new(copy))
}

/// The same word again. A word has at most 128 bytes, so there is always one.
fn copy_word(word: &Word) -> Result<Word, AllocError>
    ensures { IfOk result (λ copy. copy ≡ word.now) }
{
    match Word::of(word.as_slice()) {
        Some(copy) => Ok(copy),
        None => Err(AllocError),
    }
}

/// The same call on names alone, if it is one.
fn copy_names(call: &Call) -> Result<Call, AllocError>
    ensures { IfOk result (λ copy. copy ≡ call.now) }
{
    Ok(match call {
        Call::Create(name) => Call::Create(copy_word(name)?),
        Call::OpenFile(name) => Call::OpenFile(copy_word(name)?),
        Call::Stat(name) => Call::Stat(copy_word(name)?),
        Call::Remove(name) => Call::Remove(copy_word(name)?),
        Call::Seal(name) => Call::Seal(copy_word(name)?),
        Call::Unload(name) => Call::Unload(copy_word(name)?),
        Call::Read(name, off, len) => Call::Read(copy_word(name)?, *off, *len),
        Call::Trunc(name, len) => Call::Trunc(copy_word(name)?, *len),
        Call::Sync => Call::Sync,
        _ => return Err(AllocError),
    })
}

/// The same call again.
fn copy_call(alloc: Global, call: &Call) -> Result<Call, AllocError>
    ensures { IfOk result (λ copy. copy ≡ call.now) }
{
    Ok(match call {
        Call::Write(name, off, bytes) => {
            Call::Write(copy_word(name)?, *off, copy_bytes(alloc, bytes)?)
        }
        Call::Append(name, bytes) => Call::Append(copy_word(name)?, copy_bytes(alloc, bytes)?),
        Call::Load(name, code) => Call::Load(copy_word(name)?, copy_bytes(alloc, code)?),
        Call::Readl {
            file,
            off,
            len,
            function,
            fuel,
            cap,
            param,
        } => Call::Readl {
            file: copy_word(file)?,
            off: *off,
            len: *len,
            function: copy_word(function)?,
            fuel: *fuel,
            cap: *cap,
            param: copy_bytes(alloc, param)?,
        },
        Call::Writel {
            file,
            off,
            len,
            function,
            fuel,
            param,
            input,
        } => Call::Writel {
            file: copy_word(file)?,
            off: *off,
            len: *len,
            function: copy_word(function)?,
            fuel: *fuel,
            param: copy_bytes(alloc, param)?,
            input: copy_bytes(alloc, input)?,
        },
        _ => copy_names(call)?,
    })
}

/// The same request again.
pub(crate) fn copy_request(alloc: Global, request: &Request) -> Result<Request, AllocError>
    ensures { IfOk result (λ copy. copy ≡ request.now) }
{
    Ok(Request {
        call: copy_call(alloc, &request.call)?,
        awaits: request.awaits,
    })
}
