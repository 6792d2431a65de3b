//! The files of a drive by rising id: their names, lengths and slots.
ghost use Rattle.std.specs.Prelude.{ℕ, List, ◌≡◌, ◌≤◌, ◌<◌, ◌+◌, ◌-◌, ◌^◌, ◌||◌, [], length, nat_le, IsSome, IfOk, IfSome, true, slice_get, option_copied, option_map};
ghost use Rattle.name_table.specs.Files.{IsTable, IsFile, file_named, file_of, without, changed, free_slot, placed, created, after_create, RiseFrom, IdsBelow};
ghost use Rattle.name_table.specs.Inside.{below, MarksSlots, is_named, first_of};
ghost use Rattle.name_table.specs.declared.files.FileRec.{FileRec};

use crate::index::{Hashed, NameIndex, hash_of};
use crate::naming::Name;
use std::alloc::{AllocError, Global};
use std::marker::Model;

/// The most files that there may be.
const MOST_FILES: usize = 4096;

/// The next id at which no file is made any more.
const LAST_ID: u32 = u32::MAX;

/// A file of a drive.
#[derive(Clone, Copy, Debug)]
pub struct FileRec {
    /// Its id, which no other file ever has.
    pub id: u32,
    pub name: Name,
    /// Its length in bytes, at most 2^28.
    pub len: u32,
    /// Its place in tables of 4,096, which no other file has while it is there.
    pub slot: u32,
    /// Whether it is sealed, and so append-only.
    pub sealed: bool,
}

/// Why no file was made.
#[derive(Clone, Copy, Debug, PartialEq, Eq)]
pub enum NameErr {
    /// A file has the name; `id` is its id.
    Exists { id: u32 },
    /// There are 4,096 files, or the next id is 2^32 - 1.
    Full { files: u32, next: u32 },
}

/// The files by rising id, and the id that comes next. After its making nothing takes memory.
#[derive(Drop)]
pub struct Names {
    files: Vec<FileRec>,
    /// Which slots have a file.
    taken: Vec<bool>,
    index: NameIndex,
    next: u32,
}

impl Model for Names {
    ghost use Rattle.name_table.specs.Files.{Table};

    ghost Value = { Table };

    ghost use Rattle.std.specs.Prelude.{◌≤◌};
    ghost use Rattle.std.specs.Vec.{vec_capacity};
    ghost use Rattle.name_table.specs.Files.{IsTable};
    ghost use Rattle.name_table.specs.Inside.{MarksSlots, Indexes};

    ghost view = { λ n. record { files = n.files.items; next = n.next } };

    ghost invariant = { λ n. IsTable (record { files = n.files.items; next = n.next }) × MarksSlots n.taken.items n.files.items × (4096 ≤ vec_capacity n.files) × Indexes n.index n.files.items };
}

// How many files have a lower id.
fn lower(files: &[FileRec], id: u32) -> usize
    requires { RiseFrom 1 files.now }
    ensures within { result ≤ length files.now }
    ensures value { result ≡ below id files.now }
{
    let mut low = 0;
    let mut high = files.len();
    while low < high {
        let middle = low + (high - low) / 2;
        if files[middle].id < id {
            low = middle + 1;
        } else {
            high = middle;
        }
    }
    low
}

// The file of an id.
fn at_id(files: &[FileRec], id: u32) -> Option<&FileRec>
    requires { RiseFrom 1 files.now }
    ensures { option_copied result ≡ file_of id files.now }
{
    let i = lower(files, id);
    if i >= files.len() {
        return None;
    }
    let file = &files[i];
    if file.id != id {
        return None;
    }
    Some(file)
}

// Whether the file of an id has the name.
fn has_name(files: &[FileRec], id: u32, name: &Name) -> bool
    requires { RiseFrom 1 files.now }
    ensures { result ≡ is_named name.now (file_of id files.now) }
{
    match at_id(files, id) {
        None => false,
        Some(file) => file.name.as_slice() == name.as_slice(),
    }
}

// The first of the entries whose file has the name.
fn first_named(entries: &[Hashed], files: &[FileRec], name: &Name) -> Option<u32>
    requires { RiseFrom 1 files.now }
    ensures { result ≡ first_of (λ id. is_named name.now (file_of id files.now)) entries.now }
{
    for entry in entries {
        if has_name(files, entry.id, name) {
            return Some(entry.id);
        }
    }
    None
}

// The lowest slot in which no file stands.
fn free_slot(taken: &[bool]) -> u32
    requires { length taken.now ≡ 4096 }
    ensures within { result ≤ 4096 }
    ensures value { (files : List FileRec) → MarksSlots taken.now files → result ≡ free_slot files }
{
    let mut slot = 0;
    while slot < 4096 {
        if !taken[slot as usize] {
            return slot;
        }
        slot += 1;
    }
    slot
}

impl Names {
    /// No files, and the next id is 1.
    pub fn new(alloc: Global) -> Result<Names, AllocError>
        ensures { IfOk result (λ n. n ≡ record { files = []; next = 1 }) }
    {
        let files = Vec::with_capacity(alloc, MOST_FILES)?;
        let taken = vec![in alloc; false; 4096]?;
        let index = NameIndex::new(alloc, MOST_FILES)?;
        Ok(Names {
            files,
            taken,
            index,
            next: 1,
        })
    }

    /// How many files there are.
    pub fn len(&self) -> u32
        ensures value { result ≡ length self.now.files }
        ensures sound { IsTable self.now }
    {
        self.files.len() as u32
    }

    /// The id of the next file that is made.
    pub fn next_id(&self) -> u32
        ensures { result ≡ self.now.next }
    {
        self.next
    }

    /// Whether there are as many files as there may be, or no id is left.
    pub fn is_full(&self) -> bool
        ensures { result ≡ (nat_le 4096 (length self.now.files) || nat_le (2 ^ 32 - 1) self.now.next) }
    {
        self.files.len() >= MOST_FILES || self.next >= LAST_ID
    }

    /// The id of the file of a name.
    pub fn find(&self, name: &Name) -> Option<u32>
        ensures { result ≡ option_map (λ f. f.id) (file_named name.now self.now.files) }
    {
        let entries = self.index.with_hash(hash_of(name.as_slice()));
        first_named(entries, &self.files, name)
    }

    /// The i-th file by id, from 0.
    pub fn at(&self, i: u32) -> Option<&FileRec>
        ensures value { option_copied result ≡ slice_get self.now.files i }
        ensures sound { IsTable self.now }
    {
        self.files.get(i as usize)
    }

    /// The file of an id.
    pub fn by_id(&self, id: u32) -> Option<FileRec>
        ensures value { result ≡ file_of id self.now.files }
        ensures sound { IsTable self.now }
    {
        at_id(&self.files, id).copied()
    }

    /// Makes an empty file with the next id.
    pub fn create(&mut self, name: Name) -> Result<u32, NameErr>
        ensures reply { result ≡ created self.old (file_named name self.old.files) }
        ensures after { self.new ≡ after_create self.old name result }
    {
        if let Some(id) = self.find(&name) {
            return Err(NameErr::Exists { id });
        }
        let files = self.len();
        let id = self.next_id();
        if self.is_full() {
            return Err(NameErr::Full { files, next: id });
        }
        self.place(id, name);
        Ok(id)
    }

    /// Adds an empty file of an id above all others.
    pub fn place(&mut self, id: u32, name: Name)
        requires low { 1 ≤ id }
        requires high { id < 2 ^ 32 - 1 }
        requires above { IdsBelow id self.old.files }
        requires new { file_named name self.old.files ≡ None }
        requires room { length self.old.files < 4096 }
        ensures { self.new ≡ placed self.old id name }
    {
        let hash = hash_of(name.as_slice());
        let slot = free_slot(&self.taken);
        self.taken[slot as usize] = true;
        self.index.add(hash, id);
        let _ = self.files.push(FileRec {
            id,
            name,
            len: 0,
            slot,
            sealed: false,
        });
        self.next = self.next.max(id + 1);
    }

    /// Removes a file. Its id isn't given again.
    pub fn remove(&mut self, id: u32)
        requires { IsSome (file_of id self.old.files) }
        ensures { self.new ≡ record self.old { files = without id self.old.files } }
    {
        let i = lower(&self.files, id);
        let file = self.files.remove(i);
        self.taken[file.slot as usize] = false;
        let hash = hash_of(file.name.as_slice());
        self.index.remove(hash, id);
    }

    /// Sets the length of a file, at most 2^28.
    pub fn set_len(&mut self, id: u32, len: u32)
        requires there { IsSome (file_of id self.old.files) }
        requires small { len ≤ 2 ^ 28 }
        ensures { self.new ≡ record self.old { files = changed id (λ f. record f { len = len }) self.old.files } }
    {
        let i = lower(&self.files, id);
        self.files[i].len = len;
    }

    /// Seals a file, also one that is sealed.
    pub fn seal(&mut self, id: u32)
        requires { IsSome (file_of id self.old.files) }
        ensures { self.new ≡ record self.old { files = changed id (λ f. record f { sealed = true }) self.old.files } }
    {
        let i = lower(&self.files, id);
        self.files[i].sealed = true;
    }

    /// Sets the next id, which is above all ids.
    pub fn set_next(&mut self, next: u32)
        requires low { 1 ≤ next }
        requires above { IdsBelow next self.old.files }
        ensures { self.new ≡ record self.old { next = next } }
    {
        self.next = next;
    }
}
