// The real files, which tell nothing of content.
ghost use Rattle.std.specs.Prelude.{◌≡◌, None, ℕ, List};

use crate::{ReadErr, Room, WriteErr};
use std::fs;
use std::fs::File;
use std::io::{ErrorKind, Read};
use std::rt::Files;

/// The most bytes that a file may have to be read.
const MAX_FILE: usize = 1 << 30;

/// Files by their paths. It tells nothing of what they hold, and counts the calls that failed. A file
/// above 2^30 bytes fails to be read, and so does a folder.
#[derive(Drop)]
pub struct HostRoom<'a, R> {
    rt: &'a R,
    faults: u64,
}

impl<'a, R> HostRoom<'a, R> {
    /// The files of this runtime, with no failure so far.
    pub fn new(rt: &'a R) -> Self {
        HostRoom { rt, faults: 0 }
    }
}

// Adds all that the file has left, where the whole stays within the limit.
fn read_all<F: Read>(file: &mut F, into: &mut Vec<u8>) -> Result<(), ReadErr> {
    let mut buf = [0u8; 4096];
    for _ in 0..u64::MAX {
        let Ok(count) = file.read(&mut buf) else {
            return Err(ReadErr::Failed);
        };
        if count == 0 {
            return Ok(());
        }
        if into.len().saturating_add(count) > MAX_FILE {
            return Err(ReadErr::Failed);
        }
        into.extend_from_slice(&buf[..count])?;
    }
    Err(ReadErr::Failed)
}

fn read_named<R: Files>(rt: &R, name: &str, into: &mut Vec<u8>) -> Result<(), ReadErr> {
    match File::open(rt, name) {
        Ok(file) => {
            let mut file = file;
            read_all(&mut file, into)
        }
        Err(e) => match e.kind() {
            ErrorKind::NotFound => Err(ReadErr::Absent),
            _ => Err(ReadErr::Failed),
        },
    }
}

impl<R: Files> Room for HostRoom<'_, R> {
    ghost names = { λ _. None };

    ghost faults = { λ h. h.faults };

    fn read(&mut self, name: &str, into: &mut Vec<u8>) -> Result<(), ReadErr> {
        let outcome = read_named(self.rt, name, into);
        if outcome.is_err() {
            into.clear();
        }
        if outcome == Err(ReadErr::Failed) {
            self.faults = self.faults.saturating_add(1);
        }
        outcome
    }

    fn write(&mut self, name: &str, bytes: &[u8]) -> Result<(), WriteErr> {
        if fs::write(self.rt, name, bytes).is_err() {
            self.faults = self.faults.saturating_add(1);
            return Err(WriteErr::Failed);
        }
        Ok(())
    }
}
