//! The owner of each block: looking for used and for free ones, and marking them.
ghost use Rattle.std.specs.Prelude.{ℕ, ◌≡◌, ◌≤◌, ◌<◌, ◌+◌, ◌^◌, ◌++◌, List, None, false, true, length, take, drop, is_none, slice_index_or, if◌then◌else◌};
ghost use Rattle.std.specs.Vec.{vec_capacity};
ghost use Rattle.std.specs.List.{find, range_with_len, AllByRecursion};
ghost use Rattle.extent_map.specs.Places.{owner_of, blocks_in, is_used, pages_on};
ghost use Rattle.extent_map.specs.Owners.{or_else, TellsOwners, unowned, HaveOwners};
ghost use Rattle.extent_map.specs.declared.places.Place.{Place};

use crate::places::{Extent, Place};

/// The first of so many blocks that has an owner.
pub fn first_owned(owners: &[Option<(u32, u32)>], from: u32, count: u32) -> Option<u32>
    requires within { from + count ≤ length owners.now }
    requires small { length owners.now < 2 ^ 32 }
    ensures { (blocks : ℕ) (ps : List Place) → TellsOwners owners.now blocks ps → result ≡ find (λ b. is_used b ps) (range_with_len from count) }
{
    for k in 0..count {
        let block = from + k;
        if owners[block as usize].is_some() {
            return Some(block);
        }
    }
    None
}

/// Adds the pages of an extent at the end, and marks their blocks.
pub fn push_run(placed: &mut Vec<Place>, owners: &mut Vec<Option<(u32, u32)>>, e: Extent)
    requires room { length placed.old.items + e.count ≤ vec_capacity placed.old }
    requires within { e.block + e.count ≤ length owners.old.items }
    requires small { (length owners.old.items < 2 ^ 32) × (e.page + e.count < 2 ^ 32) }
    ensures placed { placed.new.items ≡ placed.old.items ++ pages_on e.file e.page (blocks_in e) }
    ensures owners { (b : ℕ) → slice_index_or owners.new.items b None ≡ or_else (owner_of b (pages_on e.file e.page (blocks_in e))) (slice_index_or owners.old.items b None) }
    ensures len { length owners.new.items ≡ length owners.old.items }
    ensures capacity { vec_capacity placed.old ≤ vec_capacity placed.new }
{
    for k in 0..e.count {
        let page = e.page + k;
        let block = e.block + k;
        let _ = placed.push(Place {
            file: e.file,
            page,
            block,
        });
        owners[block as usize] = Some((e.file, page));
    }
}

// The first block without an owner, from one on; the number of blocks where there is none.
fn next_free(owners: &[Option<(u32, u32)>], from: u32) -> u32
    requires within { from ≤ length owners.now }
    requires small { length owners.now < 2 ^ 32 }
    ensures within { result ≤ length owners.now }
    ensures same { unowned result (drop result owners.now) ≡ unowned from (drop from owners.now) }
    ensures free { result < length owners.now → is_none (slice_index_or owners.now result None) ≡ true }
    ensures full { HaveOwners from owners.now → HaveOwners result owners.now }
{
    let mut block = from;
    while (block as usize) < owners.len() {
        if owners[block as usize].is_none() {
            return block;
        }
        block += 1;
    }
    block
}

/// Adds so many pages of a file at the end, on the first blocks without an owner from one on, and marks them.
/// All blocks before the answer have an owner then.
pub fn push_free(
    placed: &mut Vec<Place>,
    owners: &mut Vec<Option<(u32, u32)>>,
    lowest: u32,
    file: u32,
    page: u32,
    n: u32,
) -> u32
    requires room { length placed.old.items + n ≤ vec_capacity placed.old }
    requires enough { n ≤ length (unowned lowest (drop lowest owners.old.items)) }
    requires small { (length owners.old.items < 2 ^ 32) × (page + n < 2 ^ 32) }
    requires full { (lowest ≤ length owners.old.items) × HaveOwners lowest owners.old.items }
    ensures placed { placed.new.items ≡ placed.old.items ++ pages_on file page (take n (unowned lowest (drop lowest owners.old.items))) }
    ensures owners { (b : ℕ) → slice_index_or owners.new.items b None ≡ or_else (owner_of b (pages_on file page (take n (unowned lowest (drop lowest owners.old.items))))) (slice_index_or owners.old.items b None) }
    ensures len { length owners.new.items ≡ length owners.old.items }
    ensures capacity { vec_capacity placed.old ≤ vec_capacity placed.new }
    ensures full { (result ≤ length owners.new.items) × HaveOwners result owners.new.items }
{
    let mut block = lowest;
    for k in 0..n {
        let free = next_free(owners, block);
        let at = page + k;
        let _ = placed.push(Place {
            file,
            page: at,
            block: free,
        });
        owners[free as usize] = Some((file, at));
        block = free + 1;
    }
    block
}

/// Takes the owners of some places' blocks away. The answer is a block before which all have an owner.
pub fn give_up(owners: &mut Vec<Option<(u32, u32)>>, gone: &[Place], lowest: u32) -> u32
    requires { AllByRecursion (λ p. p.block < length owners.old.items) gone.now }
    ensures owners { (b : ℕ) → slice_index_or owners.new.items b None ≡ (if is_used b gone.now then None else slice_index_or owners.old.items b None) }
    ensures len { length owners.new.items ≡ length owners.old.items }
    ensures low { result ≤ lowest }
    ensures below { (b : ℕ) → b < result → is_used b gone.now ≡ false }
{
    let mut low = lowest;
    for place in gone {
        owners[place.block as usize] = None;
        low = low.min(place.block);
    }
    low
}
