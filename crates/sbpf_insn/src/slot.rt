//! The fields of a slot, and a slot from its bytes (RFC 9669, section 3.1).

ghost use Rattle.std.specs.Prelude.{◌≡◌, ◌≤◌, length};
ghost use Rattle.sbpf_insn.specs.Decoded.{slot_at};

/// The fields of a slot, the offset and the imm as their bits.
#[derive(Clone, Copy, Debug, PartialEq, Eq)]
pub(crate) struct Slot {
    pub(crate) opcode: u8,
    pub(crate) dst: u8,
    pub(crate) src: u8,
    pub(crate) offset: u16,
    pub(crate) imm: u32,
}

#[tactic(auto, unfolding(crate::specs::Decoded::slot_at))]
pub(crate) fn first_slot(bytes: &[u8]) -> Slot
    requires { 8 ≤ length bytes.now }
    ensures { result ≡ slot_at bytes.now }
{
    Slot {
        opcode: bytes[0],
        dst: bytes[1] % 16,
        src: bytes[1] / 16,
        offset: u16::from_le_bytes([bytes[2], bytes[3]]),
        imm: u32::from_le_bytes([bytes[4], bytes[5], bytes[6], bytes[7]]),
    }
}
