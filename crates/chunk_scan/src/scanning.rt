//! The scan of all pieces.
ghost use Rattle.std.specs.Prelude.{◌≡◌, ◌≤◌, ◌*◌, ◌^◌, length, map, IfOk};
ghost use Rattle.chunk_scan.specs.Pieces.{piece_count};
ghost use Rattle.chunk_scan.specs.Replies.{as_reply};
ghost use Rattle.chunk_scan.specs.Scan.{piece_reply, scan};

use crate::reply::{ScanErr, ScanReply};
use crate::run::reply_on;
use edge_io::Bytes;
use rayon::prelude::*;
use sbpf_load::Verified;
use std::alloc::Global;
use std::thread::Threads;

/// Runs a function on each piece of `chunk` bytes of an input, in several threads. The replies are those of `readl` on the pieces,
/// in their order. Memory is taken for each piece while it is worked on, and for the replies.
pub fn scan<R: Threads + Sync>(
    rt: &R,
    alloc: Global,
    code: &Verified,
    input: &Bytes,
    chunk: u32,
    fuel: u64,
    cap: u32,
    param: &Bytes,
) -> Result<Vec<ScanReply>, ScanErr>
    requires chunk { (1 ≤ chunk) × (chunk ≤ 262144) }
    requires fuel { fuel ≤ 2 ^ 32 }
    requires cap { cap ≤ 4096 }
    requires param { length param.now ≤ 4096 }
    requires count { piece_count chunk (length input.now) ≤ 65536 }
    requires replies { piece_count chunk (length input.now) * cap ≤ 2 ^ 26 }
    ensures { IfOk result (λ replies. map as_reply replies.items ≡ scan code.now input.now chunk fuel cap param.now) }
{
    let bytes = input.as_slice();
    let param = param.as_slice();
    let replies = bytes
        .par_chunks(chunk as usize)
        .with_min_len(1)
        .map(
            |piece: &[u8]| -> Result<ScanReply, ScanErr>
                requires { (length piece.now ≤ 2 ^ 32) × (length param.now ≤ 2 ^ 32) }
                ensures { IfOk result (λ reply. as_reply reply ≡ piece_reply code.entry.now fuel cap param.entry.now piece.entry.now) }
            { reply_on(alloc, code, piece, fuel, cap, param) },
        )
        .collect::<Result<Vec<ScanReply>, ScanErr>>(rt, alloc);
    match replies {
        Ok(replies) => replies,
        Err(_) => Err(ScanErr::NoMemory),
    }
}
