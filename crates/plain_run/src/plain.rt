//! The machine and its answers.
ghost use Rattle.std.specs.Prelude.{◌≡◌, ◌<◌, ◌≤◌, ◌+◌, ◌-◌, ◌++◌, ◌∷◌, ◌^◌, [], false, Some, None, All, max, length, nat_lt, remove, slice_get, slice_set, IfOk, OnOk, OnErr};
ghost use Rattle.std.specs.Option.{option_copied};
ghost use Rattle.page_base.specs.Bytes.{Pages, Cut, Put};
ghost use Rattle.plain_files.specs.Lists.{with_changed, without};
ghost use Rattle.plain_files.specs.Plain.{function_of, file_of, pages_of, is_file, is_function, is_too_long, with_sealed, accepted_code, first_bytes, file_in, bytes_in, code_in, has_no_file, has_no_function, lacks_file, lacks_function, is_append_only, end_of, early, reply_alone, stored, with_length, run_of, effect, or_refusal, answer};
ghost use Rattle.plain_files.specs.declared.calls.Call.TheVariants.{Create, Append, Trunc, Load, Readl, Writel};
ghost use Rattle.plain_files.specs.declared.calls.PlainFile.{PlainFile};
ghost use Rattle.plain_run.specs.Answers.{Gives};

use crate::contents::{copy_of, cut, put_len, set_len, zeros};
use crate::early::{ends_above, is_too_long};
use crate::files::{file_place, has_name, has_room, put_in, set_len_of};
use crate::functions::{Loaded, function_place};
use crate::running::{Given, run_flat};
use edge_io::Bytes;
use name_table::Name;
use plain_files::{Call, CodeKind, PlainFile, Reply, Word};
use sbpf_load::{CodeErr, Verified, load_code};
use std::alloc::{AllocError, Global};
use std::marker::Model;

/// The most files.
const MOST_FILES: usize = 4096;

/// The most loaded functions.
const MOST_FUNCTIONS: usize = 64;

/// The plain machine: its files by rising id, the id that comes next, the loaded functions, and how many
/// data blocks there are. The files never fill more pages than there are blocks.
#[derive(Drop)]
pub struct Plain {
    alloc: Global,
    files: Vec<PlainFile>,
    next: u32,
    functions: Vec<Loaded>,
    capacity: u32,
}

impl Model for Plain {
    ghost use Rattle.std.specs.Prelude.{◌≤◌};
    ghost use Rattle.plain_files.specs.Plain.{State, pages_of};

    ghost Value = { State };

    ghost view = { λ p. record { files = p.files.items; next = p.next; functions = p.functions.items; capacity = p.capacity } };

    ghost invariant = { λ p. pages_of p.files.items ≤ p.capacity };
}

impl Plain {
    /// The machine without files and functions, over so many data blocks.
    pub fn new(alloc: Global, capacity: u32) -> Result<Self, AllocError>
        ensures { IfOk result (λ p. p ≡ record { files = []; next = 1; functions = []; capacity = capacity }) }
    {
        Ok(Plain {
            alloc,
            files: Vec::new(alloc),
            next: 1,
            functions: Vec::with_capacity(alloc, MOST_FUNCTIONS)?,
            capacity,
        })
    }

    /// Adds a file behind all others, whose ids are below its own, under a new name and within all limits.
    /// The next id is then the higher of what it was and `id + 1`. Want of memory changes nothing.
    pub fn add_file(
        &mut self,
        id: u32,
        name: Name,
        bytes: Bytes,
        sealed: bool,
    ) -> Result<(), AllocError>
        requires least { 1 ≤ id }
        requires most { id < 2 ^ 32 - 1 }
        requires last { All (λ file. file.id < id) self.old.files }
        requires new { file_of name self.old.files ≡ None }
        requires few { length self.old.files < 4096 }
        requires short { length bytes ≤ 2 ^ 28 }
        requires room { pages_of self.old.files + Pages (length bytes) ≤ self.old.capacity }
        ensures ok { OnOk result (self.new ≡ record self.old { files = self.old.files ++ record { id = id; name = name; bytes = bytes; sealed = sealed } ∷ []; next = max self.old.next (id + 1) }) }
        ensures err { OnErr result (self.new ≡ self.old) }
    {
        self.files.push(PlainFile {
            id,
            name,
            bytes,
            sealed,
        })?;
        self.next = self.next.max(id + 1);
        Ok(())
    }

    /// Sets the id that comes next, which is at least 1 and above the id of each file.
    pub fn set_next(&mut self, id: u32)
        requires least { 1 ≤ id }
        requires above { All (λ file. file.id < id) self.old.files }
        ensures { self.new ≡ record self.old { next = id } }
    {
        self.next = id;
    }

    /// The i-th file by id, from 0; none exactly where there are at most `i` files. Takes no memory.
    pub fn file_at(&self, i: u32) -> Option<&PlainFile>
        ensures { option_copied result ≡ slice_get self.now.files i }
    {
        self.files.get(i as usize)
    }

    /// The id that comes next. Takes no memory.
    pub fn next_id(&self) -> u32
        ensures { result ≡ self.now.next }
    {
        self.next
    }

    /// The reply to a call, after which the machine is in the state that the definition gives.
    /// Want of memory changes nothing.
    pub fn answer(&mut self, call: &Call) -> Result<Reply, AllocError>
        ensures { Gives self.old (answer self.old call.now) result self.new }
    {
        match self.early(call) {
            Some(refusal) => Ok(refusal),
            None => self.effect(call),
        }
    }

    // The first refusal that needs neither a run nor a change.
    fn early(&self, call: &Call) -> Option<Reply>
        ensures { result ≡ early self.now call.now }
    {
        if is_too_long(call) {
            return Some(Reply::TooLong);
        }
        if self.lacks_file(call) {
            return Some(Reply::NoFile);
        }
        if self.lacks_function(call) {
            return Some(Reply::NoFn);
        }
        if self.is_append_only(call) {
            return Some(Reply::AppendOnly);
        }
        if self.is_too_big(call) {
            return Some(Reply::TooBig);
        }
        None
    }

    // The file of a name.
    fn find(&self, name: &Word) -> Option<&PlainFile>
        ensures { option_copied result ≡ file_of name.now self.now.files }
    {
        self.files
            .iter()
            .find(|file| has_name(file, name.as_slice()))
    }

    // The function of a name.
    fn find_function(&self, name: &Word) -> Option<&Loaded>
        ensures { option_copied result ≡ function_of name.now self.now.functions }
    {
        self.functions
            .iter()
            .find(|function| function.has_name(name.as_slice()))
    }

    fn has_no_file(&self, name: &Word) -> bool
        ensures { result ≡ has_no_file self.now name.now }
    {
        self.find(name).is_none()
    }

    fn has_no_function(&self, name: &Word) -> bool
        ensures { result ≡ has_no_function self.now name.now }
    {
        self.find_function(name).is_none()
    }

    // Whether the call asks for a file that is not there.
    fn lacks_file(&self, call: &Call) -> bool
        ensures { result ≡ lacks_file self.now call.now }
    {
        match call {
            Call::OpenFile(name)
            | Call::Stat(name)
            | Call::Remove(name)
            | Call::Read(name, _, _)
            | Call::Write(name, _, _)
            | Call::Append(name, _)
            | Call::Trunc(name, _)
            | Call::Seal(name) => self.has_no_file(name),
            Call::Readl { file, .. } | Call::Writel { file, .. } => self.has_no_file(file),
            _ => false,
        }
    }

    // Whether the call asks for a function that is not there.
    fn lacks_function(&self, call: &Call) -> bool
        ensures { result ≡ lacks_function self.now call.now }
    {
        match call {
            Call::Unload(name) => self.has_no_function(name),
            Call::Readl { function, .. } | Call::Writel { function, .. } => {
                self.has_no_function(function)
            }
            _ => false,
        }
    }

    // Whether a file is there and is sealed.
    fn is_sealed(&self, name: &Word) -> bool
        ensures { result ≡ (file_in self.now name.now).sealed }
    {
        match self.find(name) {
            Some(file) => file.sealed,
            None => false,
        }
    }

    // Whether the call would change bytes of a sealed file.
    fn is_append_only(&self, call: &Call) -> bool
        ensures { result ≡ is_append_only self.now call.now }
    {
        match call {
            Call::Write(name, _, _) | Call::Trunc(name, _) => self.is_sealed(name),
            Call::Writel { file, .. } => self.is_sealed(file),
            _ => false,
        }
    }

    // The length of a file; none is 0 bytes long.
    fn len_of(&self, name: &Word) -> u64
        ensures { result ≡ length (bytes_in self.now name.now) }
    {
        match self.find(name) {
            Some(file) => file.bytes.as_slice().len() as u64,
            None => 0,
        }
    }

    // Whether the bytes that the call puts into its file end too high.
    fn is_too_big(&self, call: &Call) -> bool
        ensures { result ≡ nat_lt (2 ^ 28) (end_of self.now call.now) }
    {
        match call {
            Call::Write(_, off, bytes) => ends_above(*off, bytes.as_slice().len() as u64),
            Call::Append(name, bytes) => {
                ends_above(self.len_of(name), bytes.as_slice().len() as u64)
            }
            Call::Trunc(_, len) => ends_above(*len, 0),
            Call::Writel { off, len, .. } => ends_above(*off, *len),
            _ => false,
        }
    }

    // What a call does that is not refused early.
    fn effect(&mut self, call: &Call) -> Result<Reply, AllocError>
        requires short { is_too_long call.now ≡ false }
        requires file { lacks_file self.old call.now ≡ false }
        requires function { lacks_function self.old call.now ≡ false }
        requires within { end_of self.old call.now ≤ 2 ^ 28 }
        ensures { Gives self.old (or_refusal self.old (effect self.old call.now)) result self.new }
    {
        match call {
            Call::Create(name) => self.create(name),
            Call::OpenFile(name) => Ok(Reply::Id(self.file(name).id)),
            Call::Stat(name) => Ok(Reply::Len(self.len_of(name))),
            Call::Remove(name) => Ok(self.remove(name)),
            Call::Read(name, off, len) => self.read(name, *off, *len),
            Call::Write(name, off, bytes) => self.put(name, *off, bytes.as_slice(), Reply::Done),
            Call::Append(name, bytes) => self.append(name, bytes),
            Call::Trunc(name, len) => self.trunc(name, *len),
            Call::Seal(name) => Ok(self.seal(name)),
            Call::Load(name, code) => self.load(name, code),
            Call::Unload(name) => Ok(self.unload(name)),
            Call::Readl {
                file,
                off,
                len,
                function,
                fuel,
                cap,
                param,
            } => self.readl(file, *off, *len, function, *fuel, *cap, param),
            Call::Writel {
                file,
                off,
                len,
                function,
                fuel,
                param,
                input,
            } => self.writel(file, *off, *len, function, *fuel, param, input),
            Call::Sync => Ok(Reply::Done),
        }
    }

    fn create(&mut self, word: &Word) -> Result<Reply, AllocError>
        ensures { Gives self.old (or_refusal self.old (effect self.old (Create word.now))) result self.new }
    {
        let Some(name) = Name::of(word.as_slice()) else {
            return Ok(Reply::BadName);
        };
        if self.find(word).is_some() {
            return Ok(Reply::Exists);
        }
        if self.files.len() >= MOST_FILES || self.next == u32::MAX {
            return Ok(Reply::Full);
        }
        let id = self.next;
        let file = PlainFile {
            id,
            name,
            bytes: Bytes::new(Vec::new(self.alloc)),
            sealed: false,
        };
        self.files.push(file)?;
        self.next += 1;
        Ok(Reply::Id(id))
    }

    // The file of a name that is there.
    fn file(&self, name: &Word) -> &PlainFile
        requires { has_no_file self.now name.now ≡ false }
        ensures { result.now ≡ file_in self.now name.now }
    {
        match self.find(name) {
            Some(file) => file,
            None => unreachable!(),
        }
    }

    // Where the file of a name stands that is there.
    fn place(&self, name: &Word) -> usize
        requires { has_no_file self.now name.now ≡ false }
        ensures within { result < length self.now.files }
        ensures found { slice_get self.now.files result ≡ Some (file_in self.now name.now) }
        ensures changed { (change : PlainFile → PlainFile) → with_changed (is_file name.now) change self.now.files ≡ slice_set self.now.files result (change (file_in self.now name.now)) }
        ensures removed { without (is_file name.now) self.now.files ≡ remove self.now.files result }
    {
        match file_place(&self.files, name.as_slice()) {
            Some(i) => i,
            None => unreachable!(),
        }
    }

    fn remove(&mut self, name: &Word) -> Reply
        requires { has_no_file self.old name.now ≡ false }
        ensures reply { result ≡ Reply.Done }
        ensures state { self.new ≡ record self.old { files = without (is_file name.now) self.old.files } }
    {
        let i = self.place(name);
        let _ = self.files.remove(i);
        Reply::Done
    }

    fn seal(&mut self, name: &Word) -> Reply
        requires { has_no_file self.old name.now ≡ false }
        ensures reply { result ≡ Reply.Done }
        ensures state { self.new ≡ record self.old { files = with_sealed name.now self.old.files } }
    {
        let i = self.place(name);
        self.files[i].sealed = true;
        Reply::Done
    }

    // The bytes of a file from an offset on, at most so many.
    fn bytes_of(&self, name: &Word, off: u64, len: u64) -> Result<Bytes, AllocError>
        requires { has_no_file self.now name.now ≡ false }
        ensures { IfOk result (λ bytes. bytes ≡ Cut (bytes_in self.now name.now) off len) }
    {
        let bytes = cut(self.alloc, self.file(name).bytes.as_slice(), off, len)?;
        Ok(Bytes::new(bytes))
    }

    // So many bytes of a file from an offset on, with zeros past its end.
    fn window_of(&self, name: &Word, off: u64, len: u64) -> Result<Bytes, AllocError>
        requires { has_no_file self.now name.now ≡ false }
        ensures { IfOk result (λ bytes. bytes ≡ with_length (Cut (bytes_in self.now name.now) off len) len) }
    {
        let mut bytes = self.bytes_of(name, off, len)?.into_vec();
        set_len(&mut bytes, len as usize)?;
        Ok(Bytes::new(bytes))
    }

    fn read(&self, name: &Word, off: u64, len: u64) -> Result<Reply, AllocError>
        requires { has_no_file self.now name.now ≡ false }
        ensures { IfOk result (λ reply. reply ≡ Reply.DataBytes (Cut (bytes_in self.now name.now) off len)) }
    {
        let bytes = self.bytes_of(name, off, len)?;
        Ok(Reply::DataBytes(bytes))
    }

    // Puts bytes into a file, where all files then fit.
    fn put(
        &mut self,
        name: &Word,
        off: u64,
        bytes: &[u8],
        reply: Reply,
    ) -> Result<Reply, AllocError>
        requires there { has_no_file self.old name.now ≡ false }
        requires within { off + length bytes.now ≤ 2 ^ 28 }
        ensures { Gives self.old (or_refusal self.old (stored self.old name.now (Put (bytes_in self.old name.now) off bytes.now) reply)) result self.new }
    {
        let i = self.place(name);
        let off = off as usize;
        let len = put_len(self.files[i].bytes.as_slice().len(), off, bytes.len());
        if !has_room(&self.files, self.capacity, i, len) {
            return Ok(Reply::NoSpace);
        }
        put_in(self.alloc, &mut self.files[i], off, bytes)?;
        Ok(reply)
    }

    fn append(&mut self, name: &Word, bytes: &Bytes) -> Result<Reply, AllocError>
        requires there { has_no_file self.old name.now ≡ false }
        requires within { length (bytes_in self.old name.now) + length bytes.now ≤ 2 ^ 28 }
        ensures { Gives self.old (or_refusal self.old (effect self.old (Append name.now bytes.now))) result self.new }
    {
        let end = self.len_of(name);
        self.put(name, end, bytes.as_slice(), Reply::At(end))
    }

    fn trunc(&mut self, name: &Word, len: u64) -> Result<Reply, AllocError>
        requires there { has_no_file self.old name.now ≡ false }
        requires within { len ≤ 2 ^ 28 }
        ensures { Gives self.old (or_refusal self.old (effect self.old (Trunc name.now len))) result self.new }
    {
        let i = self.place(name);
        let len = len as usize;
        if !has_room(&self.files, self.capacity, i, len) {
            return Ok(Reply::NoSpace);
        }
        set_len_of(self.alloc, &mut self.files[i], len)?;
        Ok(Reply::Done)
    }

    fn load(&mut self, word: &Word, bytes: &Bytes) -> Result<Reply, AllocError>
        ensures { Gives self.old (or_refusal self.old (effect self.old (Load word.now bytes.now))) result self.new }
    {
        let Some(name) = Name::of(word.as_slice()) else {
            return Ok(Reply::BadName);
        };
        let code = match accepted_code(self.alloc, bytes.as_slice())? {
            Ok(code) => code,
            Err(refusal) => return Ok(refusal),
        };
        if self.find_function(word).is_some() {
            return Ok(Reply::Exists);
        }
        if self.functions.len() >= MOST_FUNCTIONS {
            return Ok(Reply::FnFull);
        }
        self.functions.push(Loaded { name, code })?;
        Ok(Reply::Done)
    }

    fn unload(&mut self, name: &Word) -> Reply
        requires { has_no_function self.old name.now ≡ false }
        ensures reply { result ≡ Reply.Done }
        ensures state { self.new ≡ record self.old { functions = without (is_function name.now) self.old.functions } }
    {
        match function_place(&self.functions, name.as_slice()) {
            Some(i) => {
                let _ = self.functions.remove(i);
            }
            None => unreachable!(),
        }
        Reply::Done
    }

    // The code of a function that is there.
    fn code(&self, name: &Word) -> &Verified
        requires { has_no_function self.now name.now ≡ false }
        ensures { result.now ≡ code_in self.now name.now }
    {
        match self.find_function(name) {
            Some(function) => &function.code,
            None => unreachable!(),
        }
    }

    // What a function gives on an input, an output as it is at first, and a parameter.
    fn run(
        &self,
        function: &Word,
        fuel: u64,
        input: Bytes,
        output: Bytes,
        param: &Bytes,
    ) -> Result<Result<Given, Reply>, AllocError>
        requires there { has_no_function self.now function.now ≡ false }
        requires input { length input ≤ 262144 }
        requires output { length output ≤ 262144 }
        requires param { length param.now ≤ 4096 }
        ensures given { IfOk result (λ given. given ≡ run_of self.now function.now fuel input output param.now) }
        ensures kept { IfOk result (λ given. IfOk given (λ end. length end.output ≡ length output)) }
    {
        let param = copy_of(self.alloc, param)?;
        run_flat(self.alloc, self.code(function), fuel, input, output, param)
    }

    fn readl(
        &self,
        file: &Word,
        off: u64,
        len: u64,
        function: &Word,
        fuel: u64,
        cap: u64,
        param: &Bytes,
    ) -> Result<Reply, AllocError>
        requires file { has_no_file self.now file.now ≡ false }
        requires function { has_no_function self.now function.now ≡ false }
        requires len { len ≤ 262144 }
        requires cap { cap ≤ 262144 }
        requires param { length param.now ≤ 4096 }
        ensures { IfOk result (λ reply. reply_alone self.now reply ≡ or_refusal self.now (effect self.now (Readl file.now off len function.now fuel cap param.now))) }
    {
        let input = self.bytes_of(file, off, len)?;
        let output = zeros(self.alloc, cap as usize)?;
        match self.run(function, fuel, input, output, param)? {
            Ok(given) => Ok(first_bytes(cap, given)),
            Err(stop) => Ok(stop),
        }
    }

    fn writel(
        &mut self,
        file: &Word,
        off: u64,
        len: u64,
        function: &Word,
        fuel: u64,
        param: &Bytes,
        input: &Bytes,
    ) -> Result<Reply, AllocError>
        requires file { has_no_file self.old file.now ≡ false }
        requires function { has_no_function self.old function.now ≡ false }
        requires len { len ≤ 262144 }
        requires within { off + len ≤ 2 ^ 28 }
        requires param { length param.now ≤ 4096 }
        requires input { length input.now ≤ 262144 }
        ensures { Gives self.old (or_refusal self.old (effect self.old (Writel file.now off len function.now fuel param.now input.now))) result self.new }
    {
        let input = copy_of(self.alloc, input)?;
        let output = self.window_of(file, off, len)?;
        match self.run(function, fuel, input, output, param)? {
            Ok(given) => self.put(file, off, given.output.as_slice(), Reply::Val(given.r0)),
            Err(stop) => Ok(stop),
        }
    }
}

// The accepted code of the bytes, or the reply that tells its first fault.
fn accepted_code(alloc: Global, bytes: &[u8]) -> Result<Result<Verified, Reply>, AllocError>
    ensures { IfOk result (λ code. code ≡ accepted_code bytes.now) }
{
    match load_code(alloc, bytes) {
        Ok(code) => Ok(Ok(code)),
        Err(CodeErr::Insn(fault)) => {
            let kind = CodeKind::Insn(fault.kind);
            Ok(Err(Reply::BadCode {
                kind,
                slot: fault.slot,
            }))
        }
        Err(CodeErr::Verify(fault)) => {
            let kind = CodeKind::Verify(fault.kind);
            Ok(Err(Reply::BadCode {
                kind,
                slot: fault.slot,
            }))
        }
        Err(CodeErr::NoMemory) => Err(AllocError),
    }
}

// The first r0 bytes of the output, where it has so many.
fn first_bytes(cap: u64, given: Given) -> Reply
    requires { length given.output ≡ cap }
    ensures { result ≡ first_bytes cap given }
{
    if given.r0 > cap {
        return Reply::TrapOutLen { r0: given.r0 };
    }
    let mut bytes = given.output.into_vec();
    bytes.truncate(given.r0 as usize);
    Reply::Res(Bytes::new(bytes))
}
