//! Object files.

ghost use Rattle.std.specs.Prelude.{◌≡◌, ◌++◌, IfOk, Ok};
ghost use Rattle.std.specs.Int.{w32, to_le_bytes};
ghost use Rattle.sbpf_load.specs.Objects.{magic, has_magic, has_length, object_bytes, object_read, ReadsObject};

use crate::loading::{CodeErr, load_code};
use crate::verifying::Verified;
use sbpf_insn::{InsnFault, VerifyFault, encode};
use std::alloc::{AllocError, Global};

/// Why bytes gave no accepted code of an object, in the order in which they are looked at.
#[derive(Clone, Copy, Debug, PartialEq, Eq)]
pub enum ObjectErr {
    /// There are fewer than 4 bytes, or the first four aren't `SBO1`.
    Magic,
    /// There are fewer than 8 bytes, or not 8 for each slot that the object tells and 8 more.
    Length { bytes: u64 },
    /// The slots spell no code: the first fault.
    Insn(InsnFault),
    /// They spell code that may not be run: its first fault.
    Verify(VerifyFault),
    /// Memory ran out.
    NoMemory,
}

fn begins_with_magic(bytes: &[u8]) -> bool
    ensures { result ≡ has_magic bytes.now }
{
    bytes.len() >= 4 && bytes[0] == b'S' && bytes[1] == b'B' && bytes[2] == b'O' && bytes[3] == b'1'
}

fn has_told_length(bytes: &[u8]) -> bool
    ensures { result ≡ has_length bytes.now }
{
    if bytes.len() < 8 {
        return false;
    }
    let slots = u32::from_le_bytes([bytes[4], bytes[5], bytes[6], bytes[7]]);
    bytes.len() as u64 == 8 + 8 * slots as u64
}

/// The accepted code of an object's bytes, or the first fault.
pub fn read_object(alloc: Global, bytes: &[u8]) -> Result<Verified, ObjectErr>
    ensures { ReadsObject result (object_read bytes.now) }
{
    if !begins_with_magic(bytes) {
        return Err(ObjectErr::Magic);
    }
    if !has_told_length(bytes) {
        return Err(ObjectErr::Length {
            bytes: bytes.len() as u64,
        });
    }
    match load_code(alloc, &bytes[8..]) {
        Ok(verified) => Ok(verified),
        Err(CodeErr::Insn(fault)) => Err(ObjectErr::Insn(fault)),
        Err(CodeErr::Verify(fault)) => Err(ObjectErr::Verify(fault)),
        Err(CodeErr::NoMemory) => Err(ObjectErr::NoMemory),
    }
}

/// The bytes of the code's object. Reading them gives the code back.
pub fn write_object(alloc: Global, code: &Verified) -> Result<Vec<u8>, AllocError>
    ensures written { IfOk result (λ v. v.items ≡ object_bytes code.now) }
    ensures again { IfOk result (λ v. object_read v.items ≡ Ok code.now) }
{
    let code = code.code();
    let spelled = encode(alloc, code)?;
    let bytes = with_head(alloc, code.slots(), &spelled)?;
    Ok(bytes)
}

// The magic, the number of slots, and the slots' bytes.
fn with_head(alloc: Global, slots: u32, spelled: &[u8]) -> Result<Vec<u8>, AllocError>
    ensures { IfOk result (λ v. v.items ≡ magic ++ (to_le_bytes w32 slots ++ spelled.now)) }
{
    let mut bytes = Vec::new(alloc);
    bytes.extend_from_slice(b"SBO1")?;
    bytes.extend_from_slice(&slots.to_le_bytes())?;
    bytes.extend_from_slice(spelled)?;
    Ok(bytes)
}
