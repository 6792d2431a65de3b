// Where the pages of the die lie, and the state of each erase block.
ghost use Rattle.std.specs.Prelude.{◌≡◌, ◌+◌, ◌*◌, ◌/◌, ◌<◌, ◌≤◌, ◌^◌, ℕ, length, nat_lt, set, get_or, replicate, Some, None, IfOk, IfSome, IfNone};
ghost use Rattle.std.specs.List.{IsFirstBest};
ghost use Rattle.std.proofs.Props.{props};
ghost use Rattle.ftl_die.specs.Places.{live_in, held_in, vacated};
ghost use Rattle.ftl_die.specs.Layouts.{IsLayout};
ghost use Rattle.ftl_die.specs.declared.place.Place.TheVariants.{Unwritten, At, Held};

use crate::place::Place;
use page_base::NoMemory;
use std::alloc::Global;

/// How many pages an erase block has, and how many slots the buffer.
pub const BLOCK_PAGES: u32 = 64;

/// Where each page of the die lies; of each erase block, how many of its pages are programmed and
/// how many pages of the die lie in it; and of each slot of the buffer, which page of the die it has.
#[derive(Drop)]
pub struct Layout {
    places: Vec<Place>,
    used: Vec<u32>,
    live: Vec<u32>,
    owners: Vec<Option<u32>>,
    ghost laid: { IsLayout places.items used.items live.items owners.items } by { Prim.hlevel props },
}

impl Layout {
    /// So many pages that were never written, and so many erase blocks with no page programmed,
    /// which are at least two more than the pages fill; or `NoMemory`.
    pub fn new(alloc: Global, pages: u32, blocks: u32) -> Result<Layout, NoMemory>
        requires roomy { pages + 128 ≤ 64 * blocks }
        requires few { blocks < 2 ^ 26 }
        ensures places { IfOk result (λ layout. layout.places.items ≡ replicate pages Unwritten) }
        ensures used { IfOk result (λ layout. layout.used.items ≡ replicate blocks 0) }
        ensures owners { IfOk result (λ layout. layout.owners.items ≡ replicate 64 None) }
    {
        Ok(Layout {
            places: vec![in alloc; Place::Unwritten; pages as usize]?,
            used: vec![in alloc; 0; blocks as usize]?,
            live: vec![in alloc; 0; blocks as usize]?,
            owners: free_slots(alloc)?,
        })
    }

    /// How many pages the die has.
    pub fn pages(&self) -> u32
        ensures value { result ≡ length self.now.places.items }
        ensures laid { IsLayout self.now.places.items self.now.used.items self.now.live.items self.now.owners.items }
    {
        self.places.len() as u32
    }

    /// Where a page of the die lies.
    pub fn place(&self, page: u32) -> Place
        requires { page < length self.now.places.items }
        ensures { result ≡ get_or self.now.places.items page Unwritten }
    {
        self.places[page as usize]
    }

    /// How many pages of an erase block are programmed.
    pub fn used(&self, block: u32) -> u32
        requires { block < length self.now.used.items }
        ensures value { result ≡ get_or self.now.used.items block 0 }
        ensures most { result ≤ 64 }
    {
        self.used[block as usize]
    }

    /// The page of the die in a slot.
    pub fn owner(&self, slot: u32) -> Option<u32>
        requires { slot < 64 }
        ensures { result ≡ get_or self.now.owners.items slot None }
    {
        self.owners[slot as usize]
    }

    /// A slot that has no page, where not all have one.
    pub fn free_slot(&self) -> u32
        requires { held_in self.now.owners.items < 64 }
        ensures slot { result < 64 }
        ensures free { get_or self.now.owners.items result None ≡ None }
    {
        for slot in 0..BLOCK_PAGES {
            if self.owners[slot as usize].is_none() {
                return slot;
            }
        }
        unreachable!()
    }

    /// The first erase block with an erased page; `None` exactly where there is none.
    pub fn first_open(&self) -> Option<u32>
        ensures some { IfSome result
            (λ block. (block < length self.now.used.items) × (get_or self.now.used.items block 0 < 64)) }
        ensures none { IfNone result ((block : ℕ) → block < length self.now.used.items
            → get_or self.now.used.items block 0 ≡ 64) }
    {
        for block in 0..self.used.len() {
            if self.used[block] < BLOCK_PAGES {
                return Some(block as u32);
            }
        }
        None
    }

    /// The first of the erase blocks with the fewest live pages.
    pub fn fewest(&self) -> u32
        ensures within { result < length self.now.used.items }
        ensures fewest { (block : ℕ) → block < length self.now.used.items
            → live_in result self.now.places.items ≤ live_in block self.now.places.items }
        ensures some_dead { live_in result self.now.places.items < 64 }
    {
        least(&self.live) as u32
    }

    /// Counts one more programmed page of an erase block, which has an erased one.
    pub fn count_program(&mut self, block: u32)
        requires within { block < length self.old.used.items }
        requires open { get_or self.old.used.items block 0 < 64 }
        ensures used { self.new.used.items
            ≡ set self.old.used.items block (get_or self.old.used.items block 0 + 1) }
        ensures places { self.new.places.items ≡ self.old.places.items }
        ensures owners { self.new.owners.items ≡ self.old.owners.items }
    {
        self.used[block as usize] += 1;
    }

    /// Counts no programmed page of an erase block.
    pub fn count_erase(&mut self, block: u32)
        requires { block < length self.old.used.items }
        ensures used { self.new.used.items ≡ set self.old.used.items block 0 }
        ensures places { self.new.places.items ≡ self.old.places.items }
        ensures owners { self.new.owners.items ≡ self.old.owners.items }
    {
        self.used[block as usize] = 0;
    }

    /// Lays a page of the die at a page of raw flash.
    pub fn lay(&mut self, page: u32, raw: u32)
        requires page { page < length self.old.places.items }
        requires raw { raw / 64 < length self.old.used.items }
        ensures places { self.new.places.items ≡ set self.old.places.items page (At raw) }
        ensures used { self.new.used.items ≡ self.old.used.items }
        ensures owners { self.new.owners.items
            ≡ vacated (get_or self.old.places.items page Unwritten) self.old.owners.items }
    {
        self.release(page);
        self.live[(raw / BLOCK_PAGES) as usize] += 1;
        self.places[page as usize] = Place::At(raw);
    }

    /// Lays a page of the die into a slot that is free once the page has left its place.
    pub fn hold(&mut self, page: u32, slot: u32)
        requires page { page < length self.old.places.items }
        requires slot { slot < 64 }
        requires free { get_or (vacated
            (get_or self.old.places.items page Unwritten) self.old.owners.items) slot None ≡ None }
        ensures places { self.new.places.items ≡ set self.old.places.items page (Held slot) }
        ensures used { self.new.used.items ≡ self.old.used.items }
        ensures owners { self.new.owners.items
            ≡ set (vacated (get_or self.old.places.items page Unwritten) self.old.owners.items) slot (Some page) }
    {
        self.release(page);
        self.owners[slot as usize] = Some(page);
        self.places[page as usize] = Place::Held(slot);
    }

    // A page leaves its place.
    fn release(&mut self, page: u32)
        requires { page < length self.old.places.items }
        ensures places { self.new.places.items ≡ set self.old.places.items page Unwritten }
        ensures used { self.new.used.items ≡ self.old.used.items }
        ensures owners { self.new.owners.items
            ≡ vacated (get_or self.old.places.items page Unwritten) self.old.owners.items }
    {
        match self.place(page) {
            Place::Unwritten => {}
            Place::At(raw) => self.leave_raw(page, raw),
            Place::Held(slot) => self.leave_slot(page, slot),
        }
    }

    // A page leaves raw flash.
    fn leave_raw(&mut self, page: u32, raw: u32)
        requires page { page < length self.old.places.items }
        requires there { get_or self.old.places.items page Unwritten ≡ At raw }
        ensures places { self.new.places.items ≡ set self.old.places.items page Unwritten }
        ensures used { self.new.used.items ≡ self.old.used.items }
        ensures owners { self.new.owners.items ≡ self.old.owners.items }
    {
        self.live[(raw / BLOCK_PAGES) as usize] -= 1;
        self.places[page as usize] = Place::Unwritten;
    }

    // A page leaves the buffer.
    fn leave_slot(&mut self, page: u32, slot: u32)
        requires page { page < length self.old.places.items }
        requires there { get_or self.old.places.items page Unwritten ≡ Held slot }
        ensures places { self.new.places.items ≡ set self.old.places.items page Unwritten }
        ensures used { self.new.used.items ≡ self.old.used.items }
        ensures owners { self.new.owners.items ≡ set self.old.owners.items slot None }
    {
        self.owners[slot as usize] = None;
        self.places[page as usize] = Place::Unwritten;
    }
}

// The slots of the buffer, none of which has a page.
fn free_slots(alloc: Global) -> Result<Vec<Option<u32>>, NoMemory>
    ensures { IfOk result (λ owners. owners.items ≡ replicate 64 None) }
{
    let mut owners = Vec::with_capacity(alloc, BLOCK_PAGES as usize)?;
    for _ in 0..BLOCK_PAGES {
        owners.push(None)?;
    }
    Ok(owners)
}

// The place of the first of the least numbers.
fn least(numbers: &[u32]) -> usize
    requires { 0 < length numbers.now }
    ensures { IsFirstBest nat_lt numbers.now (length numbers.now) result }
{
    let mut best = 0;
    for i in 1..numbers.len() {
        if numbers[i] < numbers[best] {
            best = i;
        }
    }
    best
}
