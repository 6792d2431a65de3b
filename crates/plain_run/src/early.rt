//! The refusals that come before anything is run or stored.
ghost use Rattle.std.specs.Prelude.{◌≡◌, ◌+◌, ◌^◌, nat_lt, length};
ghost use Rattle.plain_files.specs.Plain.{is_long, is_run_long, is_too_long};

use edge_io::Bytes;
use plain_files::Call;

/// The most bytes that one call asks for or gives, and the greatest capacity.
const MOST_CALL_BYTES: u64 = 262_144;

/// The most bytes of a parameter.
const MOST_PARAM_BYTES: usize = 4096;

/// The most fuel.
const MOST_FUEL: u64 = 1 << 32;

/// The most bytes of a file.
const MOST_FILE_BYTES: u64 = 1 << 28;

fn is_long(bytes: u64) -> bool
    ensures { result ≡ is_long bytes }
{
    bytes > MOST_CALL_BYTES
}

fn are_long(bytes: &Bytes) -> bool
    ensures { result ≡ is_long (length bytes.now) }
{
    is_long(bytes.as_slice().len() as u64)
}

fn is_run_long(param: &Bytes, fuel: u64) -> bool
    ensures { result ≡ is_run_long param.now fuel }
{
    param.as_slice().len() > MOST_PARAM_BYTES || fuel > MOST_FUEL
}

// Whether a number of the call is above its limit.
pub fn is_too_long(call: &Call) -> bool
    ensures { result ≡ is_too_long call.now }
{
    match call {
        Call::Read(_, _, len) => is_long(*len),
        Call::Write(_, _, bytes) | Call::Append(_, bytes) => are_long(bytes),
        Call::Readl {
            len,
            fuel,
            cap,
            param,
            ..
        } => is_long(*len) || is_long(*cap) || is_run_long(param, *fuel),
        Call::Writel {
            len,
            fuel,
            param,
            input,
            ..
        } => is_long(*len) || are_long(input) || is_run_long(param, *fuel),
        _ => false,
    }
}

// Whether so many bytes from an offset on end above the length of the longest file.
pub fn ends_above(off: u64, bytes: u64) -> bool
    ensures { result ≡ nat_lt (2 ^ 28) (off + bytes) }
{
    off.saturating_add(bytes) > MOST_FILE_BYTES
}
