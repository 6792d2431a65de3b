//! What a call locks and spans of its file.
ghost use Rattle.std.specs.Prelude.{◌≡◌, ◌≤◌, ◌<◌, ◌^◌, false, length};
ghost use Rattle.page_base.specs.Bytes.{Pages};
ghost use Rattle.plain_files.specs.Plain.{is_too_long};
ghost use Rattle.core_state.specs.Reach.{no_reach, read_reach, write_reach, trunc_reach, reach_of as reach_for};
ghost use Rattle.system_state.specs.Cores.{reach_of};

use plain_files::Call;
use range_locks::Mode;
use system_state::Reach;

/// Where ranges end at most.
const RANGE_END: u64 = 65_537;

fn pages(bytes: u128) -> u128
    requires { bytes < 2 ^ 127 }
    ensures { result ≡ Pages bytes }
{
    (bytes + 4095) / 4096
}

fn no_reach() -> Reach
    ensures { reach_of result ≡ no_reach }
{
    Reach {
        mode: Mode::Shared,
        from: 0,
        to: 0,
        first: 0,
        pages: 0,
        begin: 0,
        end: 0,
    }
}

/// Of a call that asks for `n` bytes from `off` on, of a file of this length.
fn read_reach(off: u64, n: u64, len: u32) -> Reach
    requires { n ≤ 262144 }
    ensures { reach_of result ≡ read_reach off n len }
{
    if n == 0 {
        return no_reach();
    }
    let end = u128::from(off) + u128::from(n);
    let first = off / 4096;
    let to = pages(end).min(u128::from(RANGE_END)) as u64;
    let last = pages(end).min(pages(u128::from(len))) as u64;
    Reach {
        mode: Mode::Shared,
        from: first,
        to,
        first,
        pages: last.saturating_sub(first) as u32,
        begin: off,
        end,
    }
}

/// Of a call that puts `n` bytes at `off` into a file of this length.
fn write_reach(off: u64, n: u64, len: u32) -> Reach
    requires { n ≤ 262144 }
    ensures { reach_of result ≡ write_reach off n len }
{
    if n == 0 {
        return no_reach();
    }
    let end = u128::from(off) + u128::from(n);
    let first = off / 4096;
    let last = pages(end) as u64;
    let from = if u128::from(len) < end {
        first.min(u64::from(len / 4096))
    } else {
        first
    };
    Reach {
        mode: Mode::Exclusive,
        from,
        to: last,
        first,
        pages: (last - first) as u32,
        begin: off,
        end,
    }
}

/// Of a call that makes a file of length `len` one of length `n`.
fn trunc_reach(n: u64, len: u32) -> Reach
    ensures { reach_of result ≡ trunc_reach n len }
{
    let cuts = n < u64::from(len) && n % 4096 != 0;
    Reach {
        mode: Mode::Exclusive,
        from: n.min(u64::from(len)) / 4096,
        to: RANGE_END,
        first: n / 4096,
        pages: if cuts { 1 } else { 0 },
        begin: n,
        end: u128::from(n),
    }
}

/// What a call on a file of this length locks and spans.
pub fn reach_of(call: &Call, len: u32) -> Reach
    requires { is_too_long call.now ≡ false }
    ensures { reach_of result ≡ reach_for call.now len }
{
    match call {
        Call::Read(_, off, n) => read_reach(*off, *n, len),
        Call::Write(_, off, bytes) => write_reach(*off, bytes.as_slice().len() as u64, len),
        Call::Append(_, bytes) => {
            write_reach(u64::from(len), bytes.as_slice().len() as u64, len)
        }
        Call::Trunc(_, n) => trunc_reach(*n, len),
        Call::Readl { off, len: n, .. } => read_reach(*off, *n, len),
        Call::Writel { off, len: n, .. } => write_reach(*off, *n, len),
        _ => no_reach(),
    }
}
