//! Why bytes are no code, and why code may not be run.

/// What is wrong with an instruction, in the order in which the kinds are looked for.
#[derive(Clone, Copy, Debug, PartialEq, Eq)]
pub enum InsnKind {
    /// Fewer than 8 bytes are left for a slot, the second one of a wide load too.
    Truncated,
    /// An instruction that this profile leaves out: ABS and IND, loads of maps and variables, calls of
    /// helpers.
    Refused,
    /// The table has no such opcode.
    Opcode,
    /// A nibble that the instruction uses as a register is above 10.
    Register,
    /// Another field isn't as the table says.
    Field,
    /// The first four bytes of a wide load's second slot aren't zero.
    Wide,
}

/// The first fault of bytes, and the first slot of its instruction.
#[derive(Clone, Copy, Debug, PartialEq, Eq)]
pub struct InsnFault {
    pub slot: u32,
    pub kind: InsnKind,
}

/// Why code may not be run, in the order in which the kinds are looked for.
#[derive(Clone, Copy, Debug, PartialEq, Eq)]
pub enum VerifyKind {
    /// There are no slots; told at slot 0.
    Empty,
    /// There are more than 4,096 slots; told at slot 4096.
    TooLong,
    /// An instruction writes r10.
    Writer10,
    /// A jump's target is below 0, or at or past the end.
    Jump,
    /// A jump's target is a wide load's second slot.
    Middle,
    /// A local call's target is either.
    CallTarget,
    /// The last instruction is neither EXIT nor a jump that is always taken.
    FallsOff,
}

/// The first fault of code, and the first slot of its instruction.
#[derive(Clone, Copy, Debug, PartialEq, Eq)]
pub struct VerifyFault {
    pub slot: u32,
    pub kind: VerifyKind,
}
