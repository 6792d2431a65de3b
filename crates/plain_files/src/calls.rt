//! The calls on plain files and their replies.
ghost use Rattle.std.specs.Prelude.{◌≡◌};
ghost use Rattle.plain_files.specs.Allowed.{is_allowed};

use crate::Word;
use edge_io::Bytes;
use name_table::Name;
use sbpf_insn::{InsnKind, VerifyKind};

/// A call on plain files. Its fields are the words of its line, in their order; offsets and lengths
/// are in bytes.
#[derive(Debug, Drop)]
pub enum Call {
    /// `create NAME`: makes an empty file.
    Create(Word),
    /// `open NAME`: asks for the id of a file.
    OpenFile(Word),
    /// `stat NAME`: asks for the length of a file.
    Stat(Word),
    /// `remove NAME`: takes a file away. Its id is not used again.
    Remove(Word),
    /// `read NAME OFF LEN`: asks for the bytes from an offset on, at most so many.
    Read(Word, u64, u64),
    /// `write NAME OFF BYTES`: puts bytes at an offset.
    Write(Word, u64, Bytes),
    /// `append NAME BYTES`: puts bytes at the end of a file.
    Append(Word, Bytes),
    /// `trunc NAME LEN`: cuts a file, or lengthens it with zeros.
    Trunc(Word, u64),
    /// `seal NAME`: makes a file one that can only be appended to.
    Seal(Word),
    /// `load NAME CODE`: gives code a name, under which it can be run.
    Load(Word, Bytes),
    /// `unload NAME`: takes a function away.
    Unload(Word),
    /// `readl FILE OFF LEN FN FUEL CAP PARAM`: runs a function on what `read` would give, and asks for
    /// what it puts out.
    Readl {
        /// The file that is read.
        file: Word,
        /// From where on.
        off: u64,
        /// At most so many bytes.
        len: u64,
        /// The function that is run.
        function: Word,
        /// The most instructions that it may use.
        fuel: u64,
        /// The length of its output.
        cap: u64,
        /// Its parameter.
        param: Bytes,
    },
    /// `writel FILE OFF LEN FN FUEL PARAM INPUT`: runs a function on the given input, with a part of the
    /// file as its output, which the file then takes.
    Writel {
        /// The file that is written.
        file: Word,
        /// Where the output lies in it.
        off: u64,
        /// The length of the output.
        len: u64,
        /// The function that is run.
        function: Word,
        /// The most instructions that it may use.
        fuel: u64,
        /// Its parameter.
        param: Bytes,
        /// Its input.
        input: Bytes,
    },
    /// `sync`: asks that all files are kept.
    Sync,
}

/// What a call answers.
#[derive(Debug, Drop)]
pub enum Reply {
    /// `id I`: the id of a file.
    Id(u32),
    /// `len L`: the length of a file in bytes.
    Len(u64),
    /// `val R0`: what a function gave.
    Val(u64),
    /// `at OFF`: where bytes were appended.
    At(u64),
    /// `data BYTES`: bytes that were read.
    DataBytes(Bytes),
    /// `res BYTES`: bytes that a function put out.
    Res(Bytes),
    /// `ok`: the call is done, and there is nothing to tell.
    Done,
    /// `trap access 0xADDRESS SIZE SLOT`: the function's instruction at a slot asked for bytes that it
    /// may not have.
    TrapAccess { address: u64, size: u32, slot: u32 },
    /// `trap depth SLOT`: the function's call at a slot was too deep.
    TrapDepth { slot: u32 },
    /// `trap outlen R0`: the function tells more bytes than its output has.
    TrapOutLen { r0: u64 },
    /// The function used up its fuel.
    Spent,
    /// Refused: the word breaks the limit on names.
    BadName,
    /// Refused: a file has the name; for `load`, a function.
    Exists,
    /// Refused: there are 4,096 files, or no id is left.
    Full,
    /// Refused: no file has the name.
    NoFile,
    /// Refused: no function has the name.
    NoFn,
    /// Refused: a length, a capacity, or the number of bytes or of an input's bytes is above 262,144, a
    /// parameter is above 4,096 bytes, or the fuel is above 2^32.
    TooLong,
    /// Refused: the file is sealed.
    AppendOnly,
    /// Refused: the bytes would end above 2^28.
    TooBig,
    /// Refused: the files would take more pages than there are data blocks.
    NoSpace,
    /// Refused: there are 64 functions.
    FnFull,
    /// `badcode KIND SLOT`, refused: the code may not be run. This is its first fault.
    BadCode { kind: CodeKind, slot: u32 },
    /// A drive failed during the call, and nothing has changed.
    Fault,
    /// Memory ran out, and nothing has changed.
    NoMemory,
}

/// The kind of a code's first fault.
#[derive(Clone, Copy, Debug, PartialEq, Eq)]
pub enum CodeKind {
    /// The bytes spell no code.
    Insn(InsnKind),
    /// They spell code that may not be run.
    Verify(VerifyKind),
}

/// A file of the plain machine.
#[derive(Debug, Drop)]
pub struct PlainFile {
    /// From 1; an id is used once.
    pub id: u32,
    /// No two files have one name.
    pub name: Name,
    /// All that the file holds.
    pub bytes: Bytes,
    /// Whether the file can only be lengthened at its end.
    pub sealed: bool,
}

/// A call of a lane, and the call that it waits for, if any: a lane and a number in it from 1.
#[derive(Debug, Drop)]
pub struct Request {
    /// The call to make.
    pub call: Call,
    /// The call that must have ended before this one begins.
    pub awaits: Option<(u32, u32)>,
}

/// A reply with its number in the history, from 1.
#[derive(Debug, Drop)]
pub struct Numbered {
    /// Which reply of the history it is.
    pub number: u64,
    /// The reply.
    pub reply: Reply,
}

/// Whether the reply's form belongs to the call. The values in the reply are not judged.
/// `Fault` and `NoMemory` belong to every call.
pub fn allowed(call: &Call, reply: &Reply) -> bool
    ensures { result ≡ is_allowed call.now reply.now }
{
    use Reply::{
        AppendOnly, At, BadCode, BadName, DataBytes, Done, Exists, FnFull, Full, Id, Len, NoFile,
        NoFn, NoSpace, Res, Spent, TooBig, TooLong, TrapAccess, TrapDepth, TrapOutLen, Val,
    };

    if let Reply::Fault | Reply::NoMemory = reply {
        return true;
    }
    match call {
        Call::Create(_) => matches!(reply, Id(_) | BadName | Exists | Full),
        Call::OpenFile(_) => matches!(reply, Id(_) | NoFile),
        Call::Stat(_) => matches!(reply, Len(_) | NoFile),
        Call::Remove(_) | Call::Seal(_) => matches!(reply, Done | NoFile),
        Call::Read(..) => matches!(reply, DataBytes(_) | TooLong | NoFile),
        Call::Write(..) => matches!(
            reply,
            Done | TooLong | NoFile | AppendOnly | TooBig | NoSpace
        ),
        Call::Append(..) => matches!(reply, At(_) | TooLong | NoFile | TooBig | NoSpace),
        Call::Trunc(..) => matches!(reply, Done | NoFile | AppendOnly | TooBig | NoSpace),
        Call::Load(..) => matches!(reply, Done | BadName | BadCode { .. } | Exists | FnFull),
        Call::Unload(_) => matches!(reply, Done | NoFn),
        Call::Readl { .. } => matches!(
            reply,
            Res(_)
                | TooLong
                | NoFile
                | NoFn
                | TrapAccess { .. }
                | TrapDepth { .. }
                | TrapOutLen { .. }
                | Spent
        ),
        Call::Writel { .. } => matches!(
            reply,
            Val(_)
                | TooLong
                | NoFile
                | NoFn
                | AppendOnly
                | TooBig
                | TrapAccess { .. }
                | TrapDepth { .. }
                | Spent
                | NoSpace
        ),
        Call::Sync => matches!(reply, Done),
    }
}
