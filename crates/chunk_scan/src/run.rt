//! The run of a function on one piece.
ghost use Rattle.std.specs.Prelude.{◌≡◌, ◌≤◌, ◌^◌, length, replicate, IfOk};
ghost use Rattle.sbpf_insn.specs.Machine as machine;
ghost use Rattle.sbpf_exec.specs.Outcomes.{outcome_of};
ghost use Rattle.sbpf_exec.specs.Buffers.{region_bytes};
ghost use Rattle.sbpf_exec.specs.Parts.{output_of, machine_regions, IsShaped};
ghost use Rattle.plain_files.specs.Plain.{ended, first_bytes};
ghost use Rattle.chunk_scan.specs.Replies.{as_reply};
ghost use Rattle.chunk_scan.specs.Scan.{piece_reply, reply_to_end};

use crate::reply::{ScanErr, ScanReply};
use edge_io::Bytes;
use sbpf_exec::{Outcome, Region, Regions, TrapKind, run};
use sbpf_load::Verified;
use std::alloc::{AllocError, Global};

// A flat region of these bytes.
fn flat(alloc: Global, bytes: &[u8]) -> Result<Region, AllocError>
    ensures { IfOk result (λ region. region ≡ Region.Flat bytes.now) }
{
    let bytes = bytes.to_vec(alloc)?;
    Ok(Region::Flat(Bytes::new(bytes)))
}

// A flat region of so many zeros.
fn zeros(alloc: Global, len: usize) -> Result<Region, AllocError>
    ensures { IfOk result (λ region. region ≡ Region.Flat (replicate len 0)) }
{
    let bytes = vec![in alloc; 0; len]?;
    Ok(Region::Flat(Bytes::new(bytes)))
}

// The regions of a run on a piece, with `cap` zeros as its output.
fn shaped(alloc: Global, piece: &[u8], cap: usize, param: &[u8]) -> Result<Regions, AllocError>
    requires piece { length piece.now ≤ 2 ^ 32 }
    requires cap { cap ≤ 2 ^ 32 }
    requires param { length param.now ≤ 2 ^ 32 }
    ensures regions { IfOk result (λ r. machine_regions r ≡ machine.shaped piece.now (replicate cap 0) param.now) }
    ensures output { IfOk result (λ r. output_of r ≡ Region.Flat (replicate cap 0)) }
    ensures shaped { IfOk result IsShaped }
{
    let input = flat(alloc, piece)?;
    let output = zeros(alloc, cap)?;
    let param = Bytes::new(param.to_vec(alloc)?);
    let Ok(regions) = Regions::new(alloc, input, output, param) else {
        return Err(AllocError);
    };
    let mut regions = regions;
    regions.shape(0, piece.len(), 0, cap);
    Ok(regions)
}

// The bytes of a region that is flat.
fn flat_bytes(region: Region) -> Bytes
    requires { region ≡ Region.Flat (region_bytes region) }
    ensures { result ≡ region_bytes region }
{
    match region {
        Region::Flat(bytes) => bytes,
        Region::Paged { .. } => unreachable!(),
    }
}

// The first r0 bytes of the output, where it has so many.
fn first_bytes(output: Bytes, r0: u64) -> ScanReply
    ensures { as_reply result ≡ first_bytes (length output) (record { r0 = r0; output = output }) }
{
    if r0 > output.as_slice().len() as u64 {
        return ScanReply::OutLen { r0 };
    }
    let mut bytes = output.into_vec();
    bytes.truncate(r0 as usize);
    ScanReply::Res(Bytes::new(bytes))
}

// The reply to a run that ended so.
fn reply_of(outcome: Outcome, output: Bytes) -> ScanReply
    ensures { as_reply result ≡ reply_to_end (length output) (ended (outcome_of outcome output)) }
{
    match outcome {
        Outcome::Done { r0, .. } => first_bytes(output, r0),
        Outcome::Trap { kind, slot, .. } => match kind {
            TrapKind::Access { address, size } => ScanReply::Access {
                address,
                size,
                slot,
            },
            TrapKind::Depth => ScanReply::Depth { slot },
        },
        Outcome::Spent => ScanReply::Spent,
    }
}

/// Runs a function on one piece, with `cap` zeros as its output. The reply is the one of `readl`.
pub fn reply_on(
    alloc: Global,
    code: &Verified,
    piece: &[u8],
    fuel: u64,
    cap: u32,
    param: &[u8],
) -> Result<ScanReply, ScanErr>
    requires piece { length piece.now ≤ 2 ^ 32 }
    requires param { length param.now ≤ 2 ^ 32 }
    ensures { IfOk result (λ reply. as_reply reply ≡ piece_reply code.now fuel cap param.now piece.now) }
{
    let Ok(regions) = shaped(alloc, piece, cap as usize, param) else {
        return Err(ScanErr::NoMemory);
    };
    let mut regions = regions;
    let outcome = run(code.code(), &mut regions, fuel);
    let (_, output, _) = regions.into_parts();
    Ok(reply_of(outcome, flat_bytes(output)))
}
