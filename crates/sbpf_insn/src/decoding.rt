//! Code from its bytes.

ghost use Rattle.std.specs.Prelude.{◌≡◌, IfOk, List, Ok};
ghost use Rattle.sbpf_insn.specs.Decoded.{decoded, slots_of, Gives};
ghost use Rattle.sbpf_insn.specs.Program.{AreProper};
ghost use Rattle.sbpf_insn.specs.Table.{Spells};
ghost use Rattle.sbpf_insn.specs.declared.decoding.DecodeErr.TheVariants.{NoMemory};
ghost use Rattle.sbpf_insn.specs.declared.insn.Insn.{Insn};

use crate::code::Code;
use crate::fault::InsnFault;
use crate::insn::Insn;
use crate::insn_decoding::decode_one;
use std::alloc::{AllocError, Global};

/// Why there is no code.
#[derive(Clone, Copy, Debug, PartialEq, Eq)]
pub enum DecodeErr {
    /// The bytes spell no code: the first fault.
    Insn(InsnFault),
    /// Memory ran out, or the bytes have more than 2^32 - 1 slots.
    NoMemory,
}

impl From<AllocError> for DecodeErr {
    ghost from_gives = { λ _ e. e ≡ NoMemory };

    fn from(_e: AllocError) -> DecodeErr {
        DecodeErr::NoMemory
    }
}

// Slots are numbered by 32 bits.
const MOST_BYTES: usize = 0x7_ffff_fff8;

/// The code that the bytes spell, all of them, or the first fault. What is `found` is spelled by the
/// bytes and well formed; and code that the bytes spell is the `only` answer, unless memory runs out.
pub fn decode(alloc: Global, bytes: &[u8]) -> Result<Code, DecodeErr>
    ensures exact { Gives result (decoded bytes.now) }
    ensures found { IfOk result (λ c. Spells bytes.now c.insns) }
    ensures proper { IfOk result (λ c. AreProper c.insns) }
    ensures only { (code : List Insn) → AreProper code → Spells bytes.now code → Gives result (Ok code) }
{
    let result = read(alloc, bytes);
    result
}

// The loop of `decode`.
fn read(alloc: Global, bytes: &[u8]) -> Result<Code, DecodeErr>
    ensures exact { Gives result (decoded bytes.now) }
    ensures proper { IfOk result (λ c. AreProper c.insns) }
{
    if bytes.len() > MOST_BYTES {
        return Err(DecodeErr::NoMemory);
    }
    let mut code = Code::new(alloc);
    let mut rest = bytes;
    loop {
        let slot = code.slots();
        if rest.is_empty() {
            return Ok(code);
        }
        match decode_one(rest) {
            Ok(insn) => {
                code.push(insn)?;
                let (_, after) = rest.split_at(8 * slot_count(insn));
                rest = after;
            }
            Err(kind) => return Err(DecodeErr::Insn(InsnFault { slot, kind })),
        }
    }
}

fn slot_count(insn: Insn) -> usize
    ensures { result ≡ slots_of insn }
{
    if let Insn::LoadWide { .. } = insn {
        2
    } else {
        1
    }
}
