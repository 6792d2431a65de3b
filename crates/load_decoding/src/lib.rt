//! The code of a `load`, decoded before the call, which then takes no memory.
#![tactic(auto)]

ghost use Rattle.std.specs.Prelude.{◌≡◌, ◌≤◌, Ok, Err, IfOk};
ghost use Rattle.sbpf_insn.specs.Cells.{slots};
ghost use Rattle.sbpf_load.specs.Loaded.{Loads, loaded};
ghost use Rattle.plain_files.specs.Plain.{accepted_code};
ghost use Rattle.system_quick.specs.Tables.{told, IsDecoded};

#[cfg(test)]
mod tests;

use plain_files::{Call, CodeKind};
use sbpf_insn::Code;
use sbpf_load::{CodeErr, Verified, load_code};
use std::alloc::{AllocError, Global};
use system_quick::Loading;

/// The same code again.
fn copy_code(alloc: Global, code: &Code) -> Result<Code, AllocError>
    requires { slots code.now.insns ≤ 4096 }
    ensures { IfOk result (λ copy. copy.insns ≡ code.now.insns) }
{
    let mut copy = Code::with_room(alloc, code.slots())?;
    copy.copy_from(code);
    Ok(copy)
}

/// Accepted code, to be loaded.
fn accepted(alloc: Global, verified: &Verified) -> Result<Loading, AllocError>
    ensures { IfOk result (λ l. told l ≡ Ok verified.now) }
{
    let code = copy_code(alloc, verified.code())?;
    Ok(Loading::Accepted(code))
}

/// What bytes give: the accepted code that they spell, or their first fault.
fn load_bytes(alloc: Global, bytes: &[u8]) -> Result<Loading, AllocError>
    ensures { IfOk result (λ l. told l ≡ accepted_code bytes.now) }
{
    match load_code(alloc, bytes) {
        Ok(verified) => accepted(alloc, &verified),
        Err(CodeErr::Insn(fault)) => Ok(Loading::Refused {
            kind: CodeKind::Insn(fault.kind),
            slot: fault.slot,
        }),
        Err(CodeErr::Verify(fault)) => Ok(Loading::Refused {
            kind: CodeKind::Verify(fault.kind),
            slot: fault.slot,
        }),
        Err(CodeErr::NoMemory) => Err(AllocError),
    }
}

/// What a call loads: of a `load`, the accepted code that its bytes spell, or the refusal of their first fault; of any other call nothing.
/// With it the call takes no memory. An error: memory ran out.
pub fn loading_of(alloc: Global, call: &Call) -> Result<Loading, AllocError>
    ensures { IfOk result (λ l. IsDecoded call.now l) }
{
    match call {
        Call::Load(_, bytes) => load_bytes(alloc, bytes.as_slice()),
        _ => Ok(Loading::Nothing),
    }
}
