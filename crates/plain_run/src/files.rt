//! The list of files: where one stands, how many pages all fill, and how one is changed.
ghost use Rattle.std.specs.Prelude.{◌≡◌, ◌≤◌, ◌<◌, ◌+◌, ◌^◌, ℕ, List, Some, length, nat_le, slice_get, slice_set, OnOk, OnErr};
ghost use Rattle.std.specs.List.{position};
ghost use Rattle.page_base.specs.Bytes.{Put};
ghost use Rattle.plain_files.specs.Plain.{pages_of, is_file, with_length};
ghost use Rattle.plain_files.specs.declared.calls.PlainFile.{PlainFile};

use crate::contents::{pages, put, set_len};
use edge_io::Bytes;
use plain_files::PlainFile;
use std::alloc::{AllocError, Global};
use std::mem;

pub fn has_name(file: &PlainFile, name: &[u8]) -> bool
    ensures { result ≡ is_file name.now file.now }
{
    file.name.as_slice() == name
}

// The index of the file of a name.
pub fn file_place(files: &[PlainFile], name: &[u8]) -> Option<usize>
    ensures { result ≡ position (is_file name.now) files.now }
{
    files.iter().position(|file| has_name(file, name))
}

// How many pages all files fill.
fn pages_of(files: &[PlainFile]) -> u64
    requires { pages_of files.now < 2 ^ 32 }
    ensures { result ≡ pages_of files.now }
{
    let mut all = 0;
    for file in files {
        all += pages(file.bytes.as_slice().len() as u64);
    }
    all
}

// Whether all files fit, once the one at a place has another length.
pub fn has_room(files: &[PlainFile], capacity: u32, i: usize, len: usize) -> bool
    requires place { i < length files.now }
    requires small { pages_of files.now < 2 ^ 32 }
    requires short { len < 2 ^ 63 }
    ensures { (f : PlainFile) (bytes : List ℕ) → slice_get files.now i ≡ Some f → length bytes ≡ len → result ≡ nat_le (pages_of (slice_set files.now i (record f { bytes = bytes }))) capacity }
{
    let before = pages(files[i].bytes.as_slice().len() as u64);
    let all = pages_of(files) + pages(len as u64) - before;
    all <= u64::from(capacity)
}

// Puts bytes into a file. Want of memory changes nothing.
pub fn put_in(
    alloc: Global,
    file: &mut PlainFile,
    off: usize,
    bytes: &[u8],
) -> Result<(), AllocError>
    requires { off + length bytes.now < 2 ^ 63 }
    ensures ok { OnOk result (file.new ≡ record file.old { bytes = Put file.old.bytes off bytes.now }) }
    ensures err { OnErr result (file.new ≡ file.old) }
{
    let empty = Bytes::new(Vec::new(alloc));
    let mut held = mem::replace(&mut file.bytes, empty).into_vec();
    let outcome = put(&mut held, off, bytes);
    file.bytes = Bytes::new(held);
    outcome
}

// Cuts a file, or lengthens it with zeros. Want of memory changes nothing.
pub fn set_len_of(alloc: Global, file: &mut PlainFile, len: usize) -> Result<(), AllocError>
    ensures ok { OnOk result (file.new ≡ record file.old { bytes = with_length file.old.bytes len }) }
    ensures err { OnErr result (file.new ≡ file.old) }
{
    let empty = Bytes::new(Vec::new(alloc));
    let mut held = mem::replace(&mut file.bytes, empty).into_vec();
    let outcome = set_len(&mut held, len);
    file.bytes = Bytes::new(held);
    outcome
}
