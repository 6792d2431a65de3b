//! The bytes of one file: how they are read, and how they are changed. Want of memory changes nothing.
ghost use Rattle.std.specs.Prelude.{◌≡◌, ◌≤◌, ◌<◌, ◌+◌, ◌-◌, ◌^◌, ◌++◌, ℕ, List, length, take, drop, replicate, max, IfOk, OnOk, OnErr};
ghost use Rattle.page_base.specs.Bytes.{Pages, Put, Cut};
ghost use Rattle.plain_files.specs.Plain.{with_length};

use edge_io::Bytes;
use std::alloc::{AllocError, Global};

/// The bytes of a page.
const PAGE: u64 = 4096;

// How many pages so many bytes fill.
pub fn pages(bytes: u64) -> u64
    requires { bytes < 2 ^ 63 }
    ensures { result ≡ Pages bytes }
{
    bytes.div_ceil(PAGE)
}

// The bytes from an offset on, at most so many.
pub fn cut(alloc: Global, file: &[u8], off: u64, len: u64) -> Result<Vec<u8>, AllocError>
    ensures { IfOk result (λ v. v.items ≡ Cut file.now off len) }
{
    if off >= file.len() as u64 {
        return Ok(Vec::new(alloc));
    }
    let rest = &file[off as usize..];
    if len >= rest.len() as u64 {
        return rest.to_vec(alloc);
    }
    rest[..len as usize].to_vec(alloc)
}

// So many zeros.
pub fn zeros(alloc: Global, len: usize) -> Result<Bytes, AllocError>
    ensures { IfOk result (λ bytes. bytes ≡ replicate len 0) }
{
    let bytes = vec![in alloc; 0; len]?;
    Ok(Bytes::new(bytes))
}

// The same bytes again.
pub fn copy_of(alloc: Global, bytes: &Bytes) -> Result<Bytes, AllocError>
    ensures { IfOk result (λ copy. copy ≡ bytes.now) }
{
    let copy = bytes.as_slice().to_vec(alloc)?;
    Ok(Bytes::new(copy))
}

// Lengthens a file with zeros, where it is shorter.
fn lengthen(file: &mut Vec<u8>, len: usize) -> Result<(), AllocError>
    ensures ok { OnOk result (file.new.items ≡ file.old.items ++ replicate (len - length file.old.items) 0) }
    ensures err { OnErr result (file.new.items ≡ file.old.items) }
{
    if file.len() < len {
        file.resize(len, 0)?;
    }
    Ok(())
}

// Writes over a part of a file.
fn overwrite(file: &mut Vec<u8>, off: usize, bytes: &[u8])
    requires { off + length bytes.now ≤ length file.old.items }
    ensures { file.new.items ≡ take off file.old.items ++ bytes.now ++ drop (off + length bytes.now) file.old.items }
{
    file[off..off + bytes.len()].copy_from_slice(bytes);
}

// Puts bytes at an offset, with zeros in a gap.
pub fn put(file: &mut Vec<u8>, off: usize, bytes: &[u8]) -> Result<(), AllocError>
    requires { off + length bytes.now < 2 ^ 63 }
    ensures ok { OnOk result (file.new.items ≡ Put file.old.items off bytes.now) }
    ensures err { OnErr result (file.new.items ≡ file.old.items) }
{
    if bytes.is_empty() {
        return Ok(());
    }
    lengthen(file, off + bytes.len())?;
    overwrite(file, off, bytes);
    Ok(())
}

// How long a file of a length is once so many bytes are put at an offset.
pub fn put_len(len: usize, off: usize, count: usize) -> usize
    requires { off + count < 2 ^ 63 }
    ensures exact { (file bytes : List ℕ) → length file ≡ len → length bytes ≡ count → result ≡ length (Put file off bytes) }
    ensures within { result ≤ max len (off + count) }
{
    if count == 0 {
        return len;
    }
    len.max(off + count)
}

// Cuts bytes, or lengthens them with zeros.
pub fn set_len(bytes: &mut Vec<u8>, len: usize) -> Result<(), AllocError>
    ensures ok { OnOk result (bytes.new.items ≡ with_length bytes.old.items len) }
    ensures err { OnErr result (bytes.new.items ≡ bytes.old.items) }
{
    if len < bytes.len() {
        bytes.truncate(len);
        return Ok(());
    }
    lengthen(bytes, len)
}
