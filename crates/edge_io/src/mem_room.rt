// A room in memory, which fails where it is told to.
ghost use Rattle.std.specs.Prelude.{◌≡◌, ◌≤◌, ◌↔◌, ℕ, Some, None, [], length, IfSome, IfNone, OnOk, OnErr, IsErrOf, IsTrue};
ghost use Rattle.edge_io.specs.Edges.{IsUnder, with_entry};
ghost use Rattle.edge_io.specs.Memory.{entry, place, read_fails, after_read, write_fails, after_write};

use crate::{Bytes, ReadErr, Room, Text, WriteErr};
use std::alloc::{AllocError, Global};
use std::marker::Model;

/// Named bytes in memory. Of its reads, and of its writes, the k-th, counted from 1, fails exactly
/// where k is listed; but a read of a name that isn't there answers Absent. A number of calls stays
/// at 2^64 - 1 once it is there.
#[derive(Debug, Drop)]
pub struct MemRoom {
    files: Vec<(Text, Bytes)>,
    fail_reads: Vec<u64>,
    fail_writes: Vec<u64>,
    reads: u64,
    writes: u64,
    faults: u64,
}

impl Model for MemRoom {
    ghost use Rattle.edge_io.specs.Memory.{RoomState};

    ghost Value = { RoomState };

    ghost view = { λ r. record {
      files = r.files.items;
      fail_reads = r.fail_reads.items;
      fail_writes = r.fail_writes.items;
      reads = r.reads;
      writes = r.writes;
      faults = r.faults;
    } };
}

impl MemRoom {
    /// A room with these files. Where a name stands twice, the first of its entries counts.
    pub fn new(files: Vec<(Text, Bytes)>, fail_reads: Vec<u64>, fail_writes: Vec<u64>) -> Self
        ensures { result ≡ record {
          files = files.items;
          fail_reads = fail_reads.items;
          fail_writes = fail_writes.items;
          reads = 0;
          writes = 0;
          faults = 0;
        } }
    {
        MemRoom {
            files,
            fail_reads,
            fail_writes,
            reads: 0,
            writes: 0,
            faults: 0,
        }
    }
}

// The bytes of the first entry of the name.
fn entry_of<'a>(files: &'a [(Text, Bytes)], name: &str) -> Option<&'a [u8]>
    ensures some { IfSome result (λ bytes. entry files.now name.now ≡ Some bytes.now) }
    ensures none { IfNone result (entry files.now name.now ≡ None) }
{
    for (text, bytes) in files {
        if text.as_str() == name {
            return Some(bytes.as_slice());
        }
    }
    None
}

// The index of the first entry of the name, or the number of entries.
fn place_of(files: &[(Text, Bytes)], name: &str) -> usize
    ensures value { result ≡ place files.now name.now }
    ensures within { result ≤ length files.now }
{
    for (i, (text, _)) in files.iter().enumerate() {
        if text.as_str() == name {
            return i;
        }
    }
    files.len()
}

// Puts a copy of the bytes under the name.
fn put_entry(
    alloc: Global,
    files: &mut Vec<(Text, Bytes)>,
    name: &str,
    bytes: &[u8],
) -> Result<(), AllocError>
    ensures ok { OnOk result (Some (entry files.new.items) ≡ with_entry (Some (entry files.old.items)) name.now bytes.now) }
    ensures err { OnErr result (files.new.items ≡ files.old.items) }
{
    let copy = Bytes::new(bytes.to_vec(alloc)?);
    let place = place_of(files, name);
    if place < files.len() {
        files[place].1 = copy;
        return Ok(());
    }
    let text = Text::new(String::from_str(alloc, name)?);
    files.push((text, copy))?;
    Ok(())
}

impl Room for MemRoom {
    ghost names = { λ m. Some (entry m.files) };

    ghost faults = { λ m. m.faults };

    fn read(&mut self, name: &str, into: &mut Vec<u8>) -> Result<(), ReadErr>
        requires { into.old.items ≡ [] }
        ensures ok { OnOk result (IsUnder (Some (entry self.old.files)) name.now into.new.items) }
        ensures err { OnErr result (into.new.items ≡ []) }
        ensures absent { IsErrOf result ReadErr.Absent ↔ (entry self.old.files name.now ≡ None) }
        ensures failed { IsErrOf result ReadErr.Failed ↔ IsTrue (read_fails self.old name.now) }
        ensures state { self.new ≡ after_read self.old name.now }
    {
        self.reads = self.reads.saturating_add(1);
        let Some(bytes) = entry_of(&self.files, name) else {
            return Err(ReadErr::Absent);
        };
        if self.fail_reads.contains(&self.reads) {
            self.faults = self.faults.saturating_add(1);
            return Err(ReadErr::Failed);
        }
        Ok(into.extend_from_slice(bytes)?)
    }

    fn write(&mut self, name: &str, bytes: &[u8]) -> Result<(), WriteErr>
        ensures ok { OnOk result (Some (entry self.new.files) ≡ with_entry (Some (entry self.old.files)) name.now bytes.now) }
        ensures err { OnErr result (self.new.files ≡ self.old.files) }
        ensures failed { IsErrOf result WriteErr.Failed ↔ IsTrue (write_fails self.old) }
        ensures state { self.new ≡ record (after_write self.old) { files = self.new.files } }
    {
        self.writes = self.writes.saturating_add(1);
        if self.fail_writes.contains(&self.writes) {
            self.faults = self.faults.saturating_add(1);
            return Err(WriteErr::Failed);
        }
        let alloc = *self.files.allocator();
        Ok(put_entry(alloc, &mut self.files, name, bytes)?)
    }
}
