//! The refusals that come before a call begins.
ghost use Rattle.std.specs.Prelude.{◌≡◌, ◌+◌, ◌^◌, ℕ, nat_lt, length};
ghost use Rattle.plain_files.specs.Plain.{is_long, is_run_long, is_too_long, early};
ghost use Rattle.core_state.specs.State.{Page, Shape, Places};
ghost use Rattle.core_state.specs.Reach.{file_word};
ghost use Rattle.core_state.specs.PlainOf.{plain_of};
ghost use Rattle.system_state.specs.Cores.{names_of};
ghost use Rattle.call_checks.specs.Checks.{row_for, finds_none, lacks_function, is_append_only, end_of, early_by, len_or, sealed_or};

use crate::finding::{file_for, lacks_function};
use edge_io::Bytes;
use name_table::{FileRec, Names};
use plain_files::{Call, Reply};
use system_state::Function;

/// The most bytes that one call asks for or gives, and the greatest capacity.
const MOST_CALL_BYTES: u64 = 262_144;

/// The most bytes of a parameter.
const MOST_PARAM_BYTES: usize = 4096;

/// The most fuel.
const MOST_FUEL: u64 = 1 << 32;

/// The most bytes of a file.
const MOST_FILE_BYTES: u64 = 1 << 28;

fn is_long(bytes: u64) -> bool
    ensures { result ≡ is_long bytes }
{
    bytes > MOST_CALL_BYTES
}

fn are_long(bytes: &Bytes) -> bool
    ensures { result ≡ is_long (length bytes.now) }
{
    is_long(bytes.as_slice().len() as u64)
}

fn is_run_long(param: &Bytes, fuel: u64) -> bool
    ensures { result ≡ is_run_long param.now fuel }
{
    param.as_slice().len() > MOST_PARAM_BYTES || fuel > MOST_FUEL
}

/// Whether a number of the call is above its limit.
pub fn is_too_long(call: &Call) -> bool
    ensures { result ≡ is_too_long call.now }
{
    match call {
        Call::Read(_, _, len) => is_long(*len),
        Call::Write(_, _, bytes) | Call::Append(_, bytes) => are_long(bytes),
        Call::Readl {
            len,
            fuel,
            cap,
            param,
            ..
        } => is_long(*len) || is_long(*cap) || is_run_long(param, *fuel),
        Call::Writel {
            len,
            fuel,
            param,
            input,
            ..
        } => is_long(*len) || are_long(input) || is_run_long(param, *fuel),
        _ => false,
    }
}

/// Whether so many bytes from an offset on end above the length of the longest file.
fn ends_above(off: u64, bytes: u64) -> bool
    ensures { result ≡ nat_lt (2 ^ 28) (off + bytes) }
{
    off.saturating_add(bytes) > MOST_FILE_BYTES
}

/// Whether the call has a word in the place of a file's name, and no file was found.
fn finds_none(call: &Call, file: &Option<FileRec>) -> bool
    ensures { result ≡ finds_none (file_word call.now) file.now }
{
    match call {
        Call::Create(_) | Call::Load(..) | Call::Unload(_) | Call::Sync => false,
        _ => file.is_none(),
    }
}

fn sealed_or(file: &Option<FileRec>) -> bool
    ensures { result ≡ sealed_or file.now }
{
    match file {
        Some(file) => file.sealed,
        None => false,
    }
}

/// The length of a file that was found.
pub(crate) fn len_or(file: &Option<FileRec>) -> u32
    ensures { result ≡ len_or file.now }
{
    match file {
        Some(file) => file.len,
        None => 0,
    }
}

/// Whether the call would change bytes of its file, which is sealed.
fn is_append_only(call: &Call, file: &Option<FileRec>) -> bool
    ensures { result ≡ is_append_only call.now file.now }
{
    match call {
        Call::Write(..) | Call::Trunc(..) | Call::Writel { .. } => sealed_or(file),
        _ => false,
    }
}

/// Whether the bytes that the call puts into its file end too high.
fn is_too_big(call: &Call, file: &Option<FileRec>) -> bool
    ensures { result ≡ nat_lt (2 ^ 28) (end_of call.now file.now) }
{
    match call {
        Call::Write(_, off, bytes) => ends_above(*off, bytes.as_slice().len() as u64),
        Call::Append(_, bytes) => {
            ends_above(u64::from(len_or(file)), bytes.as_slice().len() as u64)
        }
        Call::Trunc(_, len) => ends_above(*len, 0),
        Call::Writel { off, len, .. } => ends_above(*off, *len),
        _ => false,
    }
}

/// The first refusal, by the file that was found, and whether a function is lacking.
fn early_by(call: &Call, file: &Option<FileRec>, lacking: bool) -> Option<Reply>
    ensures { result ≡ early_by call.now file.now lacking }
{
    if is_too_long(call) {
        return Some(Reply::TooLong);
    }
    if finds_none(call, file) {
        return Some(Reply::NoFile);
    }
    if lacking {
        return Some(Reply::NoFn);
    }
    if is_append_only(call, file) {
        return Some(Reply::AppendOnly);
    }
    if is_too_big(call, file) {
        return Some(Reply::TooBig);
    }
    None
}

/// The refusal of a call that needs neither a run nor a change, whatever its files have in their pages.
pub fn early(names: &Names, functions: &[Function], call: &Call) -> Option<Reply>
    ensures { (shape : Shape) (places : Places) (pages : ℕ → Page) → result ≡ early (plain_of shape (names_of names.now functions.now) places pages) call.now }
{
    let file = file_for(names, call);
    early_by(call, &file, lacks_function(functions, call))
}
