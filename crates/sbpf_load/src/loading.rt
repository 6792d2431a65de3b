//! Accepted code from its bytes.

ghost use Rattle.std.specs.Prelude.{◌≡◌};
ghost use Rattle.sbpf_load.specs.Loaded.{loaded, Loads};

use crate::verifying::{Verified, verify};
use sbpf_insn::{DecodeErr, InsnFault, VerifyFault, decode};
use std::alloc::Global;

/// Why bytes gave no accepted code.
#[derive(Clone, Copy, Debug, PartialEq, Eq)]
pub enum CodeErr {
    /// The bytes spell no code: the first fault.
    Insn(InsnFault),
    /// They spell code that may not be run: its first fault.
    Verify(VerifyFault),
    /// Memory ran out, or the bytes have more than 2^32 - 1 slots.
    NoMemory,
}

/// The code that the bytes spell, where it is accepted; else the first fault.
pub fn load_code(alloc: Global, bytes: &[u8]) -> Result<Verified, CodeErr>
    ensures { Loads result (loaded bytes.now) }
{
    match decode(alloc, bytes) {
        Ok(code) => match verify(code) {
            Ok(verified) => Ok(verified),
            Err(unverified) => Err(CodeErr::Verify(unverified.fault)),
        },
        Err(DecodeErr::Insn(fault)) => Err(CodeErr::Insn(fault)),
        Err(DecodeErr::NoMemory) => Err(CodeErr::NoMemory),
    }
}
