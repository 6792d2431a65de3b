//! Runs of functions over flat regions, which are made for the call.
ghost use Rattle.std.specs.Prelude.{◌≡◌, ◌≤◌, ◌^◌, length, IfOk};
ghost use Rattle.sbpf_insn.specs.Machine as machine;
ghost use Rattle.sbpf_exec.specs.Outcomes.{outcome_of};
ghost use Rattle.sbpf_exec.specs.Buffers.{region_bytes};
ghost use Rattle.plain_files.specs.Plain.{ended};
ghost use Rattle.plain_run.specs.Regions.{IsFlat};

use edge_io::Bytes;
use plain_files::Reply;
use sbpf_exec::{Outcome, Region, Regions, TrapKind, run};
use sbpf_load::Verified;
use std::alloc::{AllocError, Global};
use std::marker::Model;

/// What a function gave: r0, and the bytes of its output.
#[derive(Drop)]
pub struct Given {
    pub r0: u64,
    pub output: Bytes,
}

impl Model for Given {
    ghost use Rattle.plain_files.specs.Plain.{RunEnd};

    ghost Value = { RunEnd };

    ghost view = { λ g. record { r0 = g.r0; output = g.output } };
}

// The bytes of a region that is flat.
fn flat_bytes(region: Region) -> Bytes
    requires { IsFlat region }
    ensures { result ≡ region_bytes region }
{
    match region {
        Region::Flat(bytes) => bytes,
        Region::Paged { .. } => unreachable!(),
    }
}

// How a run ended: with what the function gave, or with the reply to a trap or to spent fuel.
fn reply_of(outcome: Outcome, output: Bytes) -> Result<Given, Reply>
    ensures { result ≡ ended (outcome_of outcome output) }
{
    match outcome {
        Outcome::Done { r0, .. } => Ok(Given { r0, output }),
        Outcome::Trap { kind, slot, .. } => Err(match kind {
            TrapKind::Access { address, size } => Reply::TrapAccess {
                address,
                size,
                slot,
            },
            TrapKind::Depth => Reply::TrapDepth { slot },
        }),
        Outcome::Spent => Err(Reply::Spent),
    }
}

// Runs code on an input, an output as it is at first, and a parameter.
pub fn run_flat(
    alloc: Global,
    code: &Verified,
    fuel: u64,
    input: Bytes,
    output: Bytes,
    param: Bytes,
) -> Result<Result<Given, Reply>, AllocError>
    requires input { length input ≤ 2 ^ 32 }
    requires output { length output ≤ 2 ^ 32 }
    requires param { length param ≤ 2 ^ 32 }
    ensures given { IfOk result (λ given. given ≡ ended (machine.run code.now (machine.shaped input output param) fuel)) }
    ensures kept { IfOk result (λ given. IfOk given (λ end. length end.output ≡ length output)) }
{
    let in_len = input.as_slice().len();
    let out_len = output.as_slice().len();
    let Ok(regions) = Regions::new(alloc, Region::Flat(input), Region::Flat(output), param) else {
        return Err(AllocError);
    };
    let mut regions = regions;
    regions.shape(0, in_len, 0, out_len);
    let outcome = run(code.code(), &mut regions, fuel);
    let (_, output, _) = regions.into_parts();
    Ok(reply_of(outcome, flat_bytes(output)))
}
