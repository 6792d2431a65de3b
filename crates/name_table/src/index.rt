//! The ids of files by a hash of their names, so that a look-up reads few names.
ghost use Rattle.std.specs.Prelude.{◌≡◌, ◌≢◌, ℕ, ◌+◌, ◌*◌, ◌%◌, ◌<◌, ◌≤◌, ◌^◌, ◌==◌, ◌++◌, [], ◌∷◌, length, fold, remove, IfOk, true};
ghost use Rattle.std.specs.List.{list_any};
ghost use Rattle.std.specs.Vec.{vec_capacity};
ghost use Rattle.name_table.specs.Hashes.{hash_of, entry, of_hash, before, without_id, RisesFrom};

use std::alloc::{AllocError, Global};
use std::marker::Model;

/// A file's id under the hash of its name.
#[derive(Clone, Copy, Debug)]
pub struct Hashed {
    pub hash: u32,
    pub id: u32,
}

/// The ids of files by rising hash, and by the order in which they came where hashes are equal.
#[derive(Drop)]
pub struct NameIndex {
    entries: Vec<Hashed>,
}

impl Model for NameIndex {
    ghost use Rattle.std.specs.Vec.{vec_capacity};
    ghost use Rattle.name_table.specs.Hashes.{Indexed, RisesFrom};

    ghost Value = { Indexed };

    ghost view = { λ i. record { entries = i.entries.items; room = vec_capacity i.entries } };

    ghost invariant = { λ i. RisesFrom 0 i.entries.items };
}

/// The hash of a name.
#[tactic(auto, unfolding(crate::specs::Hashes::hash_of))]
pub fn hash_of(name: &[u8]) -> u32
    ensures { result ≡ hash_of name.now }
{
    name.iter().fold(0, |hash: u32, byte| {
        ((u64::from(hash) * 31 + u64::from(*byte)) % 4_294_967_296) as u32
    })
}

// How many entries have a lower hash.
fn before(entries: &[Hashed], hash: u64) -> usize
    requires { RisesFrom 0 entries.now }
    ensures within { result ≤ length entries.now }
    ensures value { result ≡ before hash entries.now }
{
    let mut low = 0;
    let mut high = entries.len();
    while low < high {
        let middle = low + (high - low) / 2;
        if (entries[middle].hash as u64) < hash {
            low = middle + 1;
        } else {
            high = middle;
        }
    }
    low
}

// The entries with a hash.
fn with_hash(entries: &[Hashed], hash: u32) -> &[Hashed]
    requires { RisesFrom 0 entries.now }
    ensures { result.now ≡ of_hash hash entries.now }
{
    let from = before(entries, hash as u64);
    let to = before(entries, hash as u64 + 1);
    &entries[from..to]
}

// Where the first entry of an id stands.
fn place_of(entries: &[Hashed], id: u32) -> usize
    requires { list_any (λ e. e.id == id) entries.now ≡ true }
    ensures within { result < length entries.now }
    ensures gone { remove entries.now result ≡ without_id id entries.now }
{
    for (i, entry) in entries.iter().enumerate() {
        if entry.id == id {
            return i;
        }
    }
    entries.len()
}

impl NameIndex {
    /// No entries, with room for so many.
    pub fn new(alloc: Global, room: usize) -> Result<NameIndex, AllocError>
        ensures empty { IfOk result (λ i. i.entries ≡ []) }
        ensures room { IfOk result (λ i. room ≤ i.room) }
    {
        let entries = Vec::with_capacity(alloc, room)?;
        Ok(NameIndex { entries })
    }

    /// The entries with a hash, in the order in which they came.
    pub fn with_hash(&self, hash: u32) -> &[Hashed]
        ensures { result.now ≡ of_hash hash self.now.entries }
    {
        with_hash(&self.entries, hash)
    }

    /// Adds an entry behind those with its hash, where there is room.
    pub fn add(&mut self, hash: u32, id: u32)
        requires { length self.old.entries < self.old.room }
        ensures classes { (q : ℕ) → of_hash q self.new.entries ≡ of_hash q (self.old.entries ++ entry hash id ∷ []) }
        ensures count { length self.new.entries ≡ length self.old.entries + 1 }
        ensures room { self.old.room ≤ self.new.room }
    {
        let at = before(&self.entries, hash as u64 + 1);
        let _ = self.entries.insert(at, Hashed { hash, id });
    }

    /// Removes an entry that is there.
    pub fn remove(&mut self, hash: u32, id: u32)
        requires { list_any (λ e. e.id == id) (of_hash hash self.old.entries) ≡ true }
        ensures gone { of_hash hash self.new.entries ≡ without_id id (of_hash hash self.old.entries) }
        ensures others { (q : ℕ) → q ≢ hash → of_hash q self.new.entries ≡ of_hash q self.old.entries }
        ensures count { length self.new.entries + 1 ≡ length self.old.entries }
        ensures room { self.new.room ≡ self.old.room }
    {
        let from = before(&self.entries, hash as u64);
        let at = place_of(with_hash(&self.entries, hash), id);
        let _ = self.entries.remove(from + at);
    }
}
