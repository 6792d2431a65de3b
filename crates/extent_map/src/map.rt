//! The map of blocks.
ghost use Rattle.std.specs.Prelude.{◌≡◌, ◌≤◌, ◌<◌, ◌+◌, ◌∷◌, ◌^◌, [], length, drop, IfOk, IfErr, OnOk, None, Some, slice_get};
ghost use Rattle.extent_map.specs.Places.{Places, IsSound, count_of, block_of, owner_of, free_blocks, allocated, with_blocks, blocks_in, first_used, released, runs};

use crate::order::{before, cut_out, end_of, is_at, run_from, turn_in};
use crate::owners::{first_owned, give_up, push_free, push_run};
use crate::places::{Extent, NoSpace, Place, Taken};
use std::alloc::{AllocError, Global};
use std::marker::Model;

/// The blocks of the files' pages, by file and page. After its making nothing takes memory.
#[derive(Drop)]
pub struct ExtentMap {
    blocks: u32,
    placed: Vec<Place>,
    /// The file and the page that have each block.
    owners: Vec<Option<(u32, u32)>>,
    /// A block before which none is free.
    lowest: u32,
}

impl Model for ExtentMap {
    ghost use Rattle.extent_map.specs.Places.{Places};

    ghost Value = { Places };

    ghost use Rattle.std.specs.Prelude.{◌≤◌, length};
    ghost use Rattle.std.specs.Vec.{vec_capacity};
    ghost use Rattle.extent_map.specs.Places.{IsSound};
    ghost use Rattle.extent_map.specs.Owners.{TellsOwners, HaveOwners};

    ghost view = { λ m. record { blocks = m.blocks; placed = m.placed.items } };

    ghost invariant = { λ m. IsSound (record { blocks = m.blocks; placed = m.placed.items }) × TellsOwners m.owners.items m.blocks m.placed.items × (m.blocks ≤ vec_capacity m.placed) × ((m.lowest ≤ length m.owners.items) × HaveOwners m.lowest m.owners.items) };
}

impl ExtentMap {
    /// No pages on so many blocks.
    pub fn new(alloc: Global, blocks: u32) -> Result<ExtentMap, AllocError>
        ensures { IfOk result (λ m. m ≡ record { blocks = blocks; placed = [] }) }
    {
        let placed = Vec::with_capacity(alloc, blocks as usize)?;
        let owners = vec![in alloc; None; blocks as usize]?;
        Ok(ExtentMap {
            blocks,
            placed,
            owners,
            lowest: 0,
        })
    }

    /// How many blocks there are.
    pub fn blocks(&self) -> u32
        ensures value { result ≡ self.now.blocks }
        ensures sound { IsSound self.now }
    {
        self.blocks
    }

    /// How many blocks no page has.
    pub fn free(&self) -> u32
        ensures value { result ≡ length (free_blocks self.now) }
        ensures rest { result + length self.now.placed ≡ self.now.blocks }
        ensures sound { IsSound self.now }
    {
        self.blocks - self.placed.len() as u32
    }

    /// The file and the page that have a block.
    pub fn owner_of(&self, block: u32) -> Option<(u32, u32)>
        ensures { result ≡ owner_of block self.now.placed }
    {
        if block < self.blocks {
            self.owners[block as usize]
        } else {
            None
        }
    }

    /// The block of a page of a file.
    pub fn block_of(&self, file: u32, page: u32) -> Option<u32>
        ensures { result ≡ block_of file page self.now.placed }
    {
        let i = before(&self.placed, file, page);
        if i >= self.placed.len() {
            return None;
        }
        let p = self.placed[i];
        if !is_at(file, page, &p) {
            return None;
        }
        Some(p.block)
    }

    /// The i-th place by file and page, from 0.
    pub fn place_at(&self, i: u32) -> Option<Place>
        ensures { result ≡ slice_get self.now.placed i }
    {
        self.placed.get(i as usize).copied()
    }

    /// So many pages at a file's end, from the lowest free blocks.
    pub fn allocate(&mut self, file: u32, n: u32) -> Result<(), NoSpace>
        ensures ok { OnOk result ((n ≤ length (free_blocks self.old)) × (self.new ≡ allocated self.old file n)) }
        ensures err { IfErr result (λ e. (e.free ≡ length (free_blocks self.old)) × (e.free < n) × (self.new ≡ self.old)) }
    {
        let free = self.free();
        if free < n {
            return Err(NoSpace { free });
        }
        self.allocate_free(file, n);
        Ok(())
    }

    // The same, where so many blocks are free.
    fn allocate_free(&mut self, file: u32, n: u32)
        requires { n ≤ length (free_blocks self.old) }
        ensures { self.new ≡ allocated self.old file n }
    {
        let first = before(&self.placed, file, 0);
        let at = end_of(&self.placed, file);
        let page = (at - first) as u32;
        self.lowest = push_free(
            &mut self.placed,
            &mut self.owners,
            self.lowest,
            file,
            page,
            n,
        );
        turn_in(&mut self.placed, at, n as usize);
    }

    /// An extent at a file's end.
    pub fn place(&mut self, extent: Extent) -> Result<(), Taken>
        requires within { extent.block + extent.count ≤ self.old.blocks }
        requires next { extent.page ≡ count_of extent.file self.old.placed }
        ensures ok { OnOk result ((first_used extent self.old.placed ≡ None) × (self.new ≡ with_blocks self.old extent.file (blocks_in extent))) }
        ensures err { IfErr result (λ e. (first_used extent self.old.placed ≡ Some e.block) × (self.new ≡ self.old)) }
    {
        let _blocks = self.blocks;
        match first_owned(&self.owners, extent.block, extent.count) {
            Some(block) => Err(Taken { block }),
            None => {
                let at = end_of(&self.placed, extent.file);
                push_run(&mut self.placed, &mut self.owners, extent);
                turn_in(&mut self.placed, at, extent.count as usize);
                Ok(())
            }
        }
    }

    /// Takes the blocks of a file's pages from one on.
    pub fn release_from(&mut self, file: u32, page: u32)
        ensures { self.new ≡ released self.old file page }
    {
        let from = before(&self.placed, file, page);
        let to = end_of(&self.placed, file);
        self.lowest = give_up(&mut self.owners, &self.placed[from..to], self.lowest);
        cut_out(&mut self.placed, from, to);
    }

    /// The longest run that begins with the place of a number below the number of places.
    pub fn run_at(&self, at: u32) -> Extent
        requires { at < length self.now.placed }
        ensures some { 1 ≤ result.count }
        ensures within { at + result.count ≤ length self.now.placed }
        ensures run { runs (drop at self.now.placed) ≡ result ∷ runs (drop (at + result.count) self.now.placed) }
        ensures sound { IsSound self.now }
    {
        let _blocks = self.blocks;
        run_from(&self.placed, at as usize)
    }

    /// The i-th maximal run by file and page, from 0.
    pub fn extent(&self, i: u32) -> Option<Extent>
        ensures { result ≡ slice_get (runs self.now.placed) i }
    {
        let mut left = i;
        let mut at = 0;
        while at < self.placed.len() {
            let run = run_from(&self.placed, at);
            if left == 0 {
                return Some(run);
            }
            left -= 1;
            at += run.count as usize;
        }
        None
    }
}
