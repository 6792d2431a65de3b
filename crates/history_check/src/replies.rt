//! Whether two replies are the same.
ghost use Rattle.std.specs.Prelude.{◌≡◌};
ghost use Rattle.history_check.specs.Replies.{kind_number, numbers_of, bytes_of, is_same_reply};
ghost use Rattle.plain_files.specs.History.{is_excuse};

use plain_files::{CodeKind, Reply};
use sbpf_insn::{InsnKind, VerifyKind};

fn kind_number(kind: CodeKind) -> u64
    ensures { result ≡ kind_number kind }
{
    match kind {
        CodeKind::Insn(InsnKind::Truncated) => 0,
        CodeKind::Insn(InsnKind::Refused) => 1,
        CodeKind::Insn(InsnKind::Opcode) => 2,
        CodeKind::Insn(InsnKind::Register) => 3,
        CodeKind::Insn(InsnKind::Field) => 4,
        CodeKind::Insn(InsnKind::Wide) => 5,
        CodeKind::Verify(VerifyKind::Empty) => 6,
        CodeKind::Verify(VerifyKind::TooLong) => 7,
        CodeKind::Verify(VerifyKind::Writer10) => 8,
        CodeKind::Verify(VerifyKind::Jump) => 9,
        CodeKind::Verify(VerifyKind::Middle) => 10,
        CodeKind::Verify(VerifyKind::CallTarget) => 11,
        CodeKind::Verify(VerifyKind::FallsOff) => 12,
    }
}

// The number of a reply's form, and its values.
fn numbers_of(reply: &Reply) -> [u64; 4]
    ensures { result ≡ numbers_of reply.now }
{
    match reply {
        Reply::Id(id) => [0, u64::from(*id), 0, 0],
        Reply::Len(len) => [1, *len, 0, 0],
        Reply::Val(r0) => [2, *r0, 0, 0],
        Reply::At(off) => [3, *off, 0, 0],
        Reply::DataBytes(_) => [4, 0, 0, 0],
        Reply::Res(_) => [5, 0, 0, 0],
        Reply::Done => [6, 0, 0, 0],
        Reply::TrapAccess {
            address,
            size,
            slot,
        } => [7, *address, u64::from(*size), u64::from(*slot)],
        Reply::TrapDepth { slot } => [8, u64::from(*slot), 0, 0],
        Reply::TrapOutLen { r0 } => [9, *r0, 0, 0],
        Reply::Spent => [10, 0, 0, 0],
        Reply::BadName => [11, 0, 0, 0],
        Reply::Exists => [12, 0, 0, 0],
        Reply::Full => [13, 0, 0, 0],
        Reply::NoFile => [14, 0, 0, 0],
        Reply::NoFn => [15, 0, 0, 0],
        Reply::TooLong => [16, 0, 0, 0],
        Reply::AppendOnly => [17, 0, 0, 0],
        Reply::TooBig => [18, 0, 0, 0],
        Reply::NoSpace => [19, 0, 0, 0],
        Reply::FnFull => [20, 0, 0, 0],
        Reply::BadCode { kind, slot } => [21, kind_number(*kind), u64::from(*slot), 0],
        Reply::Fault => [22, 0, 0, 0],
        Reply::NoMemory => [23, 0, 0, 0],
    }
}

fn bytes_of(reply: &Reply) -> &[u8]
    ensures { result.now ≡ bytes_of reply.now }
{
    match reply {
        Reply::DataBytes(bytes) | Reply::Res(bytes) => bytes.as_slice(),
        _ => &[],
    }
}

// Whether two replies are the same: their forms, and all their values.
pub fn is_same_reply(a: &Reply, b: &Reply) -> bool
    ensures { result ≡ is_same_reply a.now b.now }
{
    let x = numbers_of(a);
    let y = numbers_of(b);
    x[0] == y[0] && x[1] == y[1] && x[2] == y[2] && x[3] == y[3] && bytes_of(a) == bytes_of(b)
}

// Whether a reply is allowed at every call, and leaves the state.
pub fn is_excuse(reply: &Reply) -> bool
    ensures { result ≡ is_excuse reply.now }
{
    matches!(reply, Reply::Fault | Reply::NoMemory)
}
