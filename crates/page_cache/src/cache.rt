ghost use Rattle.std.specs.Prelude.{◌≡◌, ℕ, ◌<◌, ◌≤◌, ◌^◌, [], length, replicate, Some, None, IfOk, is_some, true};
ghost use Rattle.index_lists.specs.Words.{one_if, count, first, after};
ghost use Rattle.page_cache.specs.Pool.{FreeBelow};
ghost use Rattle.page_cache.specs.Cached.{copy_at, with_page, without_page, used_now};

use index_lists::Links;
use page_base::{NoMemory, Page};
use std::alloc::Global;
use std::marker::Model;
use std::mem;

/// The list of the frames in use, the one used last at its end.
const USED: u32 = 0;

/// The list of the free frames.
const FREE: u32 = 1;

/// The place of a block without a copy.
const NOWHERE: u32 = u32::MAX;

/// A pool of frames that have the copies of blocks, and the order in which these were used.
///
/// Pages are exchanged for pages, so only the making takes memory, and every other call links or unlinks a node or two.
#[derive(Drop)]
pub struct Cache {
    pages: Vec<Page>,
    owners: Vec<u32>,
    places: Vec<u32>,
    links: Links,
    used: u32,
}

impl Model for Cache {
    ghost use Rattle.page_cache.specs.Pool.{FreeBelow};
    ghost use Rattle.page_cache.specs.Cached.{Cached};
    ghost use Rattle.page_cache.specs.Pool.{cached, IsPool};

    ghost Value = { Cached };

    ghost view = { λ s. cached s.pages.items s.owners.items s.places.items s.links };

    ghost invariant = { λ s. IsPool s.pages.items s.owners.items s.places.items s.links s.used };
}

/// So many pages of zeros.
fn empty_pages(alloc: Global, frames: u32) -> Result<Vec<Page>, NoMemory>
    ensures { IfOk result (λ v. length v.items ≡ frames) }
{
    let mut pages = Vec::with_capacity(alloc, frames as usize)?;
    for _ in 0..frames {
        pages.push(Page::zero(alloc)?)?;
    }
    Ok(pages)
}

/// The two lists of the frames, which are all free.
fn free_frames(alloc: Global, frames: u32) -> Result<Links, NoMemory>
    requires some_frames { 1 ≤ frames }
    requires most_frames { frames ≤ 2 ^ 19 }
    ensures { IfOk result (FreeBelow frames frames) }
{
    let mut links = Links::with_lists(alloc, frames, 2)?;
    for frame in 0..frames {
        links.push_back(FREE, frame);
    }
    Ok(links)
}

impl Cache {
    /// A cache of so many frames for so many blocks, without a copy yet; or `NoMemory`.
    pub fn new(alloc: Global, frames: u32, blocks: u32) -> Result<Cache, NoMemory>
        requires some_frames { 1 ≤ frames }
        requires most_frames { frames ≤ 2 ^ 19 }
        requires some_blocks { 1 ≤ blocks }
        requires most_blocks { blocks ≤ 2 ^ 20 }
        ensures { IfOk result (λ s. s ≡ record { frames = frames; copies = replicate blocks None; order = [] }) }
    {
        let pages = empty_pages(alloc, frames)?;
        let owners = vec![in alloc; 0; frames as usize]?;
        let places = vec![in alloc; NOWHERE; blocks as usize]?;
        let links = free_frames(alloc, frames)?;
        Ok(Cache {
            pages,
            owners,
            places,
            links,
            used: 0,
        })
    }

    /// Puts the page into a free frame, as the block's copy, which goes last in the order of use.
    ///
    /// The caller gets the frame's old page, whatever it has.
    pub fn put(&mut self, block: u32, page: &mut Page)
        requires block { block < length self.old.copies }
        requires absent { copy_at self.old block ≡ None }
        requires room { length self.old.order < self.old.frames }
        ensures { self.new ≡ with_page self.old block page.old }
    {
        let Some(frame) = self.links.front(FREE) else {
            return;
        };
        self.links.remove(FREE, frame);
        self.links.push_back(USED, frame);
        self.owners[frame as usize] = block;
        self.places[block as usize] = frame;
        self.used += 1;
        mem::swap(&mut self.pages[frame as usize], page);
    }

    /// Hands the block's copy to the caller, in exchange for the page that is passed.
    pub fn take(&mut self, block: u32, page: &mut Page)
        requires block { block < length self.old.copies }
        requires there { is_some (copy_at self.old block) ≡ true }
        ensures value { self.new ≡ without_page self.old block }
        ensures page { copy_at self.old block ≡ Some page.new }
    {
        let frame = self.places[block as usize];
        self.links.remove(USED, frame);
        self.links.push_back(FREE, frame);
        self.places[block as usize] = NOWHERE;
        self.used -= 1;
        mem::swap(&mut self.pages[frame as usize], page);
    }

    /// Copies the block's copy into a page. The order of use stays.
    pub fn copy(&self, block: u32, into: &mut Page)
        requires block { block < length self.now.copies }
        requires there { is_some (copy_at self.now block) ≡ true }
        ensures { copy_at self.now block ≡ Some into.new }
    {
        let frame = self.places[block as usize];
        into.copy_from(&self.pages[frame as usize]);
    }

    /// Moves the block to the end of the order of use.
    pub fn touch(&mut self, block: u32)
        requires block { block < length self.old.copies }
        requires there { is_some (copy_at self.old block) ≡ true }
        ensures { self.new ≡ used_now self.old block }
    {
        let frame = self.places[block as usize];
        self.links.move_to_back(USED, frame);
    }

    /// Gives the frame of the block's copy back.
    pub fn forget(&mut self, block: u32)
        requires block { block < length self.old.copies }
        requires there { is_some (copy_at self.old block) ≡ true }
        ensures { self.new ≡ without_page self.old block }
    {
        let frame = self.places[block as usize];
        self.links.remove(USED, frame);
        self.links.push_back(FREE, frame);
        self.places[block as usize] = NOWHERE;
        self.used -= 1;
    }

    /// Whether the block has a copy.
    pub fn has(&self, block: u32) -> bool
        requires { block < length self.now.copies }
        ensures value { result ≡ is_some (copy_at self.now block) }
        ensures listed { count block self.now.order ≡ one_if result }
        ensures room { length self.now.order ≤ self.now.frames }
    {
        (self.places[block as usize] as usize) < self.pages.len()
    }

    /// How many copies there are.
    pub fn used(&self) -> u32
        ensures value { result ≡ length self.now.order }
        ensures room { length self.now.order ≤ self.now.frames }
    {
        self.used
    }

    /// The block whose copy was used longest ago; `None` exactly where there is no copy.
    pub fn oldest(&self) -> Option<u32>
        ensures { result ≡ first self.now.order }
    {
        let frame = self.links.front(USED)?;
        Some(self.owners[frame as usize])
    }

    /// The block that stands after this one in the order of use; `None` exactly at the last.
    pub fn newer(&self, block: u32) -> Option<u32>
        requires block { block < length self.now.copies }
        requires there { is_some (copy_at self.now block) ≡ true }
        ensures { result ≡ after block self.now.order }
    {
        let frame = self.links.next(USED, self.places[block as usize])?;
        Some(self.owners[frame as usize])
    }
}

#[cfg(test)]
mod tests {
    use super::*;

    #[test]
    #[tactic(auto, unfolding(index_lists::specs::Words::count, index_lists::specs::Words::without, index_lists::specs::Words::after))]
    fn copies_stand_in_their_order_of_use(rt: HostRuntime) -> Result<(), NoMemory> {
        let mut page = Page::zero(rt.alloc())?;
        let mut cache = Cache::new(rt.alloc(), 3, 100)?;
        cache.put(7, &mut page);
        cache.put(50, &mut page);
        cache.put(9, &mut page);
        cache.touch(7);
        cache.take(50, &mut page);
        cache.put(8, &mut page);
        assert_eq!(rt; cache.oldest(), Some(9));
        assert_eq!(rt; cache.newer(9), Some(7));
        assert_eq!(rt; cache.newer(7), Some(8));
        assert_eq!(rt; cache.newer(8), None);
        assert_eq!(rt; cache.used(), 3);
        Ok(())
    }
}
