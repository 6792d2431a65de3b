//! Reading the file records.
ghost use Rattle.std.specs.Prelude.{ℕ, ◌≡◌, ◌≤◌, ◌<◌, ◌+◌, ◌-◌, ◌*◌, ◌^◌, ◌∷◌, [], ◌++◌, length, map, IfOk, IfSome, None, SomeIff, IsTrue, not, ◌&&◌, nat_le, slice_index, max, take, drop};
ghost use Rattle.std.specs.List.{list_any};
ghost use Rattle.name_table.specs.Files.{file_named, IdsBelow};
ghost use Rattle.image_format.specs.Faults.{Gives};
ghost use Rattle.image_format.specs.Layout.{IsLayout};
ghost use Rattle.image_format.specs.Records.{stored, name_in, is_good_name, is_new_name, is_plain, is_next, has_name, unused_record, used_record, one_record, records};
ghost use Rattle.image_format.specs.Tables.{stored_files};
ghost use Rattle.image_format.specs.Reading.{listing, with_file};

use crate::faults::{ImageFault, ImageKind, MountErr};
use crate::layout::Layout;
use crate::numbers::{are_zero, demand, u32_at};
use name_table::{Name, Names};

/// What the records so far told.
#[derive(Drop)]
pub struct Listed {
    pub names: Names,
    pub last: u32,
    pub ended: bool,
}

// The name in a record, where it is well formed.
fn name_in(l: Layout, raw: &[u8]) -> Option<Name>
    requires layout { IsLayout l }
    requires size { length raw.now ≡ l.size }
    ensures { SomeIff result (IsTrue (is_good_name l raw.now)) (name_in l raw.now) }
{
    let len = raw[8] as usize;
    if len > l.longest {
        return None;
    }
    Name::of(&raw[l.name_at..l.name_at + len])
}

fn is_plain(l: Layout, raw: &[u8]) -> bool
    requires layout { IsLayout l }
    requires size { length raw.now ≡ l.size }
    ensures { result ≡ is_plain l raw.now }
{
    let most = if l.seals { 1 } else { 0 };
    if raw[9] > most {
        return false;
    }
    are_zero(&raw[10..l.name_at])
}

// Whether a record's form is right.
fn fits(l: Layout, next: u32, so_far: &Listed, id: u32, raw: &[u8]) -> bool
    requires layout { IsLayout l }
    requires size { length raw.now ≡ l.size }
    ensures value { result ≡ (is_next next (listing so_far.now) id && is_plain l raw.now) }
    ensures above { IsTrue result → so_far.now.last < id }
    ensures below { IsTrue result → id < next }
{
    if so_far.ended || id <= so_far.last || id >= next {
        return false;
    }
    is_plain(l, raw)
}

// The name in a record, where no earlier record has it.
fn new_name(l: Layout, names: &Names, raw: &[u8]) -> Option<Name>
    requires layout { IsLayout l }
    requires size { length raw.now ≡ l.size }
    ensures value { SomeIff result (IsTrue (is_new_name l (stored_files names.now) raw.now)) (name_in l raw.now) }
    ensures new { IfSome result (λ n. file_named n names.now.files ≡ None) }
{
    let name = name_in(l, raw)?;
    if !are_zero(raw.split_at(l.name_at + raw[8] as usize).1) {
        return None;
    }
    if names.find(&name).is_some() {
        return None;
    }
    Some(name)
}

// Adds a file.
fn add_file(names: &mut Names, id: u32, name: Name, len: u32, sealed: bool)
    requires id { (1 ≤ id) × (id < 2 ^ 32 - 1) }
    requires len { len ≤ 2 ^ 28 }
    requires room { length names.old.files < 4096 }
    requires above { IdsBelow id names.old.files }
    requires new { file_named name names.old.files ≡ None }
    ensures { names.new ≡ with_file names.old id name len sealed }
{
    names.place(id, name);
    names.set_len(id, len);
    if sealed {
        names.seal(id);
    }
}

#[tactic(auto, unfolding(crate::specs::Records::unused_record))]
fn unused_record(at: u64, so_far: &mut Listed, raw: &[u8]) -> Result<(), MountErr>
    ensures names { so_far.new.names ≡ so_far.old.names }
    ensures last { so_far.new.last ≡ so_far.old.last }
    ensures value { Gives (λ _. listing so_far.new) result (unused_record at (listing so_far.old) raw.now) }
{
    demand(are_zero(raw), ImageKind::RecordForm, at)?;
    so_far.ended = true;
    Ok(())
}

#[tactic(auto, unfolding(crate::specs::Records::used_record))]
fn used_record(
    l: Layout,
    next: u32,
    at: u64,
    so_far: &mut Listed,
    raw: &[u8],
) -> Result<(), MountErr>
    requires layout { IsLayout l }
    requires size { length raw.now ≡ l.size }
    requires room { length so_far.old.names.files < 4096 }
    requires ids { IdsBelow (so_far.old.last + 1) so_far.old.names.files }
    ensures ids { IdsBelow (so_far.new.last + 1) so_far.new.names.files }
    ensures below { IdsBelow next so_far.old.names.files → IdsBelow next so_far.new.names.files }
    ensures room { length so_far.new.names.files ≤ length so_far.old.names.files + 1 }
    ensures value { Gives (λ _. listing so_far.new) result (used_record l next at (listing so_far.old) raw.now) }
{
    let id = u32_at(raw, 0);
    demand(fits(l, next, so_far, id, raw), ImageKind::RecordForm, at)?;
    let len = u32_at(raw, 4);
    demand(len <= 268_435_456, ImageKind::FileLength, at)?;
    let Some(name) = new_name(l, &so_far.names, raw) else {
        return Err(MountErr::Image(ImageFault {
            kind: ImageKind::Name,
            place: at,
        }));
    };
    add_file(&mut so_far.names, id, name, len, raw[9] == 1);
    so_far.last = id;
    Ok(())
}

#[tactic(auto, unfolding(crate::specs::Records::one_record))]
fn one_record(
    l: Layout,
    next: u32,
    at: u64,
    so_far: &mut Listed,
    raw: &[u8],
) -> Result<(), MountErr>
    requires layout { IsLayout l }
    requires size { length raw.now ≡ l.size }
    requires room { length so_far.old.names.files < 4096 }
    requires ids { IdsBelow (so_far.old.last + 1) so_far.old.names.files }
    ensures ids { IdsBelow (so_far.new.last + 1) so_far.new.names.files }
    ensures below { IdsBelow next so_far.old.names.files → IdsBelow next so_far.new.names.files }
    ensures room { length so_far.new.names.files ≤ length so_far.old.names.files + 1 }
    ensures value { Gives (λ _. listing so_far.new) result (one_record l next at (listing so_far.old) raw.now) }
{
    if u32_at(raw, 0) == 0 {
        unused_record(at, so_far, raw)
    } else {
        used_record(l, next, at, so_far, raw)
    }
}

/// Reads the records.
pub fn records(l: Layout, next: u32, so_far: &mut Listed, bytes: &[u8]) -> Result<(), MountErr>
    requires layout { IsLayout l }
    requires size { length bytes.now ≡ l.records * l.size }
    requires empty { so_far.old.names.files ≡ [] }
    ensures below { IdsBelow next so_far.new.names.files }
    ensures value { Gives (λ _. listing so_far.new) result (records l next l.records 4096 (listing so_far.old) bytes.now) }
{
    let mut rest = bytes;
    let mut at = 4096;
    for _ in 0..l.records {
        let (raw, after) = rest.split_at(l.size);
        one_record(l, next, at, so_far, raw)?;
        rest = after;
        at += l.size as u64;
    }
    Ok(())
}
