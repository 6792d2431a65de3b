ghost use Rattle.std.specs.Prelude.{◌≡◌, ℕ, ◌+◌, ◌<◌, ◌≤◌, ◌^◌, ◌⊎◌, List, [], length, Some, None, IfOk, is_some, true, false};
ghost use Rattle.index_lists.specs.Words.{count, first, after};
ghost use Rattle.page_cache.specs.Cached.{copy_at};
ghost use Rattle.coherence.specs.Paired.{cache_at, flags_at, other, none_yet, HasRoom, HasCopy, HasNoCopy, IsReady, IsMissing};
ghost use Rattle.coherence.specs.Changes.{copy_of, copied, taken, installed, put_back_at, evicted, demoted, filled, flushed_in, released, started};

use crate::caches::{clear, read_at, replace, take_from};
use crate::flags::Flags;
use crate::order::{UNCLEAN, put_last, take_out};
use dispatcher::Side;
use index_lists::Links;
use page_base::{NoMemory, Page};
use page_cache::Cache;
use std::alloc::Global;
use std::marker::Model;

/// The caches of both sides, each block's flags, and the order of the unclean blocks.
///
/// Each method is one change of these. Only the making takes memory.
#[derive(Drop)]
pub struct Pair {
    host: Cache,
    drive: Cache,
    flags: Vec<Flags>,
    unclean: Links,
    /// A page to exchange for the one that is demoted; what it has means nothing.
    spare: Page,
}

impl Model for Pair {
    ghost use Rattle.std.specs.Prelude.{length};
    ghost use Rattle.index_lists.specs.Lists.{list_at};
    ghost use Rattle.coherence.specs.Paired.{Paired, AreOf};

    ghost Value = { Paired };

    ghost view = { λ s. record { host = s.host; drive = s.drive; flags = s.flags.items; unclean = list_at s.unclean 0 } };

    ghost invariant = { λ s. AreOf (length s.flags.items) s.host s.drive s.unclean.nodes s.unclean.lists };
}

impl Pair {
    /// Two caches of so many frames without a copy, where every block is clean and unwritten at version 0; or
    /// `NoMemory`.
    pub fn new(alloc: Global, host: u32, drive: u32, blocks: u32) -> Result<Pair, NoMemory>
        requires some_host { 1 ≤ host }
        requires most_host { host ≤ 2 ^ 19 }
        requires some_drive { 1 ≤ drive }
        requires most_drive { drive ≤ 2 ^ 19 }
        requires some_blocks { 1 ≤ blocks }
        requires most_blocks { blocks ≤ 2 ^ 20 }
        ensures { IfOk result (λ s. s ≡ none_yet host drive blocks) }
    {
        let fresh = Flags {
            clean: true,
            written: false,
            version: 0,
        };
        let host = Cache::new(alloc, host, blocks)?;
        let drive = Cache::new(alloc, drive, blocks)?;
        let flags = vec![in alloc; fresh; blocks as usize]?;
        let unclean = Links::with_lists(alloc, blocks, 1)?;
        let spare = Page::zero(alloc)?;
        Ok(Pair {
            host,
            drive,
            flags,
            unclean,
            spare,
        })
    }

    /// Copies the block's page for a call at a side: the copy there, else that of the other side, which is then put in
    /// at this side too, else zeros.
    ///
    /// The copy that was read goes last in its side's order, and so does a copy that is put in.
    pub fn copy_shared(&mut self, side: Side, block: u32, into: &mut Page)
        requires block { block < length self.old.flags }
        requires ready { IsReady self.old block }
        requires room { copy_at (cache_at side self.old) block ≡ None →
            is_some (copy_at (cache_at (other side) self.old) block) ≡ true → HasRoom side self.old }
        ensures value { self.new ≡ copied side self.old block }
        ensures page { into.new ≡ copy_of side self.old block }
    {
        match side {
            Side::Host => read_at(&mut self.host, &mut self.drive, block, into),
            Side::Drive => read_at(&mut self.drive, &mut self.host, block, into),
        }
    }

    /// Lends the block's page to the caller: neither cache has a copy any more. A blank block gives zeros.
    pub fn take_exclusive(&mut self, block: u32, page: &mut Page)
        requires block { block < length self.old.flags }
        requires ready { IsReady self.old block }
        ensures value { self.new ≡ taken self.old block }
        ensures page { page.new ≡ copy_of Side.Host self.old block }
    {
        take_from(&mut self.host, &mut self.drive, block, page);
        take_out(&mut self.unclean, block);
    }

    /// Puts a page that was written in at a side, as the block's only copy. The block is unclean and goes last in the
    /// unclean order, and its version rises by one.
    ///
    /// The caller gets another page, whatever it has.
    pub fn install(&mut self, side: Side, block: u32, page: &mut Page)
        requires block { block < length self.old.flags }
        requires room { copy_at (cache_at side self.old) block ≡ None → HasRoom side self.old }
        requires version { (flags_at self.old block).version + 1 < 2 ^ 64 }
        ensures { self.new ≡ installed side self.old block page.old }
    {
        match side {
            Side::Host => replace(&mut self.host, &mut self.drive, block, page),
            Side::Drive => replace(&mut self.drive, &mut self.host, block, page),
        }
        let flags = &mut self.flags[block as usize];
        flags.clean = false;
        flags.version += 1;
        put_last(&mut self.unclean, block);
    }

    /// Puts a lent page back at a side. An unclean block goes last in the unclean order.
    pub fn put_back(&mut self, side: Side, block: u32, page: &mut Page)
        requires block { block < length self.old.flags }
        requires lent { HasNoCopy self.old block }
        requires room { HasRoom side self.old }
        ensures { self.new ≡ put_back_at side self.old block page.old }
    {
        match side {
            Side::Host => self.host.put(block, page),
            Side::Drive => self.drive.put(block, page),
        }
        if !self.flags[block as usize].clean {
            put_last(&mut self.unclean, block);
        }
    }

    /// Drops the copy at a side, of a block that is clean or has its other copy.
    pub fn evict(&mut self, side: Side, block: u32)
        requires block { block < length self.old.flags }
        requires there { is_some (copy_at (cache_at side self.old) block) ≡ true }
        requires spare { ((flags_at self.old block).clean ≡ true) ⊎ (is_some (copy_at (cache_at (other side) self.old) block) ≡ true) }
        ensures { self.new ≡ evicted side self.old block }
    {
        match side {
            Side::Host => self.host.forget(block),
            Side::Drive => self.drive.forget(block),
        }
    }

    /// Moves the host's copy to the drive, where it goes last.
    pub fn demote(&mut self, block: u32)
        requires block { block < length self.old.flags }
        requires there { is_some (copy_at self.old.host block) ≡ true }
        requires absent { copy_at self.old.drive block ≡ None }
        requires room { HasRoom Side.Drive self.old }
        ensures { (page : List ℕ) → copy_at self.old.host block ≡ Some page → self.new ≡ demoted self.old block page }
    {
        self.host.take(block, &mut self.spare);
        self.drive.put(block, &mut self.spare);
    }

    /// Copies the page of an unclean block that has a copy, and tells its version. The orders stay.
    pub fn flush_out(&mut self, block: u32, into: &mut Page) -> u64
        requires block { block < length self.old.flags }
        requires unclean { (flags_at self.old block).clean ≡ false }
        requires there { HasCopy self.old block }
        ensures same { self.new ≡ self.old }
        ensures version { result ≡ (flags_at self.old block).version }
        ensures page { into.new ≡ copy_of Side.Host self.old block }
    {
        if self.host.has(block) {
            self.host.copy(block, into);
        } else {
            self.drive.copy(block, into);
        }
        self.flags[block as usize].version
    }

    /// Takes note of a write of the page that was copied at this version: where it succeeded and the version is
    /// unchanged, the block is written and clean; else nothing changes.
    pub fn flush_in(&mut self, block: u32, version: u64, written: bool)
        requires { block < length self.old.flags }
        ensures { self.new ≡ flushed_in self.old block version written }
    {
        if !written || self.flags[block as usize].version != version {
            return;
        }
        let flags = &mut self.flags[block as usize];
        flags.clean = true;
        flags.written = true;
        take_out(&mut self.unclean, block);
    }

    /// Puts in a page that was read from flash, for a block that is written and had no copy.
    pub fn fill_in(&mut self, side: Side, block: u32, page: &mut Page)
        requires block { block < length self.old.flags }
        requires missing { IsMissing self.old block }
        requires room { HasRoom side self.old }
        ensures { self.new ≡ filled side self.old block page.old }
    {
        match side {
            Side::Host => self.host.put(block, page),
            Side::Drive => self.drive.put(block, page),
        }
    }

    /// Releases or allocates the block: its copies go and it leaves the orders, it is clean and unwritten, and its
    /// version rises by one.
    pub fn release(&mut self, block: u32)
        requires block { block < length self.old.flags }
        requires version { (flags_at self.old block).version + 1 < 2 ^ 64 }
        ensures { self.new ≡ released self.old block }
    {
        clear(&mut self.host, block);
        clear(&mut self.drive, block);
        let flags = &mut self.flags[block as usize];
        flags.clean = true;
        flags.written = false;
        flags.version += 1;
        take_out(&mut self.unclean, block);
    }

    /// Takes note that flash has content of the block, before any copy is put in.
    pub fn start_written(&mut self, block: u32)
        requires block { block < length self.old.flags }
        requires host { self.old.host.order ≡ [] }
        requires drive { self.old.drive.order ≡ [] }
        ensures { self.new ≡ started self.old block }
    {
        let flags = &mut self.flags[block as usize];
        flags.written = true;
    }

    /// Whether a side has a copy of the block.
    pub fn has(&self, side: Side, block: u32) -> bool
        requires { block < length self.now.flags }
        ensures { result ≡ is_some (copy_at (cache_at side self.now) block) }
    {
        match side {
            Side::Host => self.host.has(block),
            Side::Drive => self.drive.has(block),
        }
    }

    /// Whether the block is clean: flash has its content, or it is unwritten and its content is zeros.
    pub fn is_clean(&self, block: u32) -> bool
        requires { block < length self.now.flags }
        ensures { result ≡ (flags_at self.now block).clean }
    {
        self.flags[block as usize].clean
    }

    /// Whether flash has content of the block.
    pub fn is_written(&self, block: u32) -> bool
        requires { block < length self.now.flags }
        ensures { result ≡ (flags_at self.now block).written }
    {
        self.flags[block as usize].written
    }

    /// How often the block was written, released or allocated.
    pub fn version(&self, block: u32) -> u64
        requires { block < length self.now.flags }
        ensures { result ≡ (flags_at self.now block).version }
    {
        self.flags[block as usize].version
    }

    /// How many copies a side has.
    pub fn used(&self, side: Side) -> u32
        ensures { result ≡ length (cache_at side self.now).order }
    {
        match side {
            Side::Host => self.host.used(),
            Side::Drive => self.drive.used(),
        }
    }

    /// The first block of a side's order, used longest ago; `None` exactly where the side has no copy.
    pub fn oldest(&self, side: Side) -> Option<u32>
        ensures { result ≡ first (cache_at side self.now).order }
    {
        match side {
            Side::Host => self.host.oldest(),
            Side::Drive => self.drive.oldest(),
        }
    }

    /// The block after this one in a side's order; `None` exactly at the last.
    pub fn newer(&self, side: Side, block: u32) -> Option<u32>
        requires block { block < length self.now.flags }
        requires there { is_some (copy_at (cache_at side self.now) block) ≡ true }
        ensures { result ≡ after block (cache_at side self.now).order }
    {
        match side {
            Side::Host => self.host.newer(block),
            Side::Drive => self.drive.newer(block),
        }
    }

    /// The first block of the unclean order; `None` exactly where there is none.
    pub fn first_unclean(&self) -> Option<u32>
        ensures { result ≡ first self.now.unclean }
    {
        self.unclean.front(UNCLEAN)
    }

    /// The block after this one in the unclean order; `None` exactly at the last.
    pub fn next_unclean(&self, block: u32) -> Option<u32>
        requires { 0 < count block self.now.unclean }
        ensures { result ≡ after block self.now.unclean }
    {
        self.unclean.next(UNCLEAN, block)
    }
}

#[cfg(test)]
mod tests {
    use super::*;

    #[test]
    fn an_installed_page_is_the_only_copy_and_unclean(rt: HostRuntime) -> Result<(), NoMemory> {
        let mut page = Page::zero(rt.alloc())?;
        let mut pair = Pair::new(rt.alloc(), 2, 2, 4)?;
        pair.start_written(3);
        pair.install(Side::Drive, 1, &mut page);
        assert_eq!(rt;
            (pair.has(Side::Host, 1), pair.has(Side::Drive, 1)),
            (false, true)
        );
        assert_eq!(rt;
            (pair.is_clean(1), pair.is_written(1), pair.version(1)),
            (false, false, 1)
        );
        assert_eq!(rt;
            (pair.is_clean(3), pair.is_written(3), pair.version(3)),
            (true, true, 0)
        );
        assert_eq!(rt; (pair.used(Side::Host), pair.used(Side::Drive)), (0, 1));
        assert_eq!(rt;
            (pair.oldest(Side::Host), pair.oldest(Side::Drive)),
            (None, Some(1))
        );
        assert_eq!(rt; pair.first_unclean(), Some(1));
        Ok(())
    }
}
