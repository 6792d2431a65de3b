//! The lines of a scan of a file's bytes.
ghost use Rattle.std.specs.Prelude.{◌≡◌, ◌≤◌, ◌^◌, length, map, IfOk};
ghost use Rattle.chunk_scan.specs.Replies.{as_reply};
ghost use Rattle.scan_lines.specs.Lines.{Scans};

use crate::lines::scan_lines;
use chunk_scan::{ScanReply, is_within_limits, scan};
use edge_io::{Bytes, Text};
use plain_files::Reply;
use sbpf_load::Verified;
use std::alloc::{AllocError, Global};
use std::thread::Threads;

/// Why there are no lines.
#[derive(Clone, Copy, Debug, PartialEq, Eq)]
pub enum LinesErr {
    /// There are more than 65,536 pieces, or their outputs have together more than 2^26 bytes.
    Limit,
    /// Memory ran out.
    NoMemory,
}

// The replies of pieces, as replies of calls.
fn as_replies(alloc: Global, replies: Vec<ScanReply>) -> Result<Vec<Reply>, AllocError>
    ensures { IfOk result (λ v. v.items ≡ map as_reply replies.items) }
{
    replies
        .into_iter()
        .map(
            |reply: ScanReply| -> Reply
                ensures { result ≡ as_reply reply }
            { reply.into_reply() },
        )
        .collect(alloc)
}

/// Runs a function on each piece of `chunk` bytes of a file, in several threads, and gives a line for each reply: the number of the piece from
/// 0, and the reply of `readl` on it. The last line has their number. `Limit` comes exactly where there are more than 65,536 pieces, or more
/// than 2^26 bytes of outputs for all of them.
pub fn scanned_lines<R: Threads + Sync>(
    rt: &R,
    alloc: Global,
    code: &Verified,
    input: &Bytes,
    chunk: u32,
    fuel: u64,
    cap: u32,
    param: &Bytes,
) -> Result<Text, LinesErr>
    requires chunk { (1 ≤ chunk) × (chunk ≤ 262144) }
    requires fuel { fuel ≤ 2 ^ 32 }
    requires cap { cap ≤ 4096 }
    requires param { length param.now ≤ 4096 }
    ensures { Scans result code.now input.now chunk fuel cap param.now }
{
    if !is_within_limits(chunk, input.as_slice().len() as u64, cap) {
        return Err(LinesErr::Limit);
    }
    let Ok(replies) = scan(rt, alloc, code, input, chunk, fuel, cap, param) else {
        return Err(LinesErr::NoMemory);
    };
    let Ok(replies) = as_replies(alloc, replies) else {
        return Err(LinesErr::NoMemory);
    };
    match scan_lines(alloc, &replies) {
        Ok(text) => Ok(text),
        Err(_) => Err(LinesErr::NoMemory),
    }
}
