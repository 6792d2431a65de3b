// The die over raw flash.
ghost use Rattle.std.specs.Prelude.{◌≡◌, ◌+◌, ◌/◌, ◌<◌, ◌≤◌, ℕ, length, get_or, IfOk};
ghost use Rattle.ftl_die.specs.Places.{live_in, held_in};
ghost use Rattle.std.proofs.Props.{props};
ghost use Rattle.flash_die.specs.Dies.{AreWhole};
ghost use Rattle.ftl_die.specs.Stored.{IsStored, contents};

use crate::collection::{hold_live, settle_all};
use crate::layout::{BLOCK_PAGES, Layout};
use crate::loading::{blocks_for, load_pages};
use crate::place::Place;
use crate::steps::{erase_block, program_next};
use flash_die::{Die, Plan};
use flash_raw::{RawFlash, RawMem};
use page_base::{DieFault, NoMemory, Page};
use std::alloc::{AllocError, Global};

/// Why no die was made.
#[derive(Drop)]
pub enum FtlErr<R> {
    /// Want of memory. The raw flash comes back.
    NoMemory(R),
}

/// A die over raw flash. Each write programs the next erased page, and a map says where each page of
/// the die lies. Where no erased page is left, the live pages of the erase block with the fewest are
/// read into a buffer, the block is erased, and they are programmed again. A page whose programming
/// fails stays in the buffer and is read from there, so no failure loses a page.
#[derive(Drop)]
pub struct FtlDie<R: RawFlash> {
    raw: R,
    layout: Layout,
    slots: Vec<Page>,
    // The erase block that pages are programmed into.
    head: u32,
    // An erase block with at least as many dead pages as there are pages in the buffer.
    spare: u32,
    ghost stored: { IsStored (R.seen raw) layout.places.items layout.used.items },
    ghost each_whole: { AreWhole (contents (R.seen raw) slots.items layout.places.items) } by { Prim.hlevel props },
    ghost buffer: { length slots.items ≡ 64 },
    ghost head_in: { head < length layout.used.items },
    ghost spare_in: { spare < length layout.used.items },
    ghost spared: { held_in layout.owners.items + live_in spare layout.places.items ≤ get_or layout.used.items spare 0 },
}

impl<R: RawFlash> FtlDie<R> {
    ghost use Rattle.std.specs.Prelude.{true, false, is_ok, replicate, Some, None, All, IfOk, IfErr, OnOk};
    ghost use Rattle.page_base.specs.Bytes.{zero_page};
    ghost use Rattle.ftl_die.specs.Ftl.{view_of, raw_of, KeepsPages};

    /// A die of so many pages of zeros over raw flash of which all is erased, and which has at least
    /// two erase blocks more than the pages fill. All its memory is taken here; without it the raw
    /// flash comes back.
    pub fn new(alloc: Global, raw: R, pages: u32) -> Result<FtlDie<R>, FtlErr<R>>
        requires erased { All (λ page. page ≡ None) (R.seen raw).pages }
        requires room { (pages + 63) / 64 + 2 ≤ (R.seen raw).blocks }
        ensures ok { IfOk result (λ die. view_of die ≡ record {
          pages = Some (replicate pages zero_page);
          size = pages;
          faults = (R.seen raw).faults;
          most = (R.seen raw).most;
          plan = None;
        }) }
        ensures raw { IfOk result (λ die. raw_of die ≡ raw) }
        ensures err { IfErr result (λ e. e ≡ FtlErr.NoMemory raw) }
    {
        let blocks = raw.blocks();
        let (Ok(layout), Ok(slots)) = (Layout::new(alloc, pages, blocks), buffer(alloc)) else {
            return Err(FtlErr::NoMemory(raw));
        };
        Ok(FtlDie {
            raw,
            layout,
            slots,
            head: 0,
            spare: 0,
        })
    }

    // Sees to an erased page in the erase block at the head.
    fn make_room(&mut self) -> Result<(), DieFault>
        ensures moves { KeepsPages self.old (is_ok result) self.new }
        ensures room { OnOk result (get_or self.new.layout.used.items self.new.head 0 < 64) }
    {
        if self.find_room() {
            return Ok(());
        }
        self.collect()?;
        if self.find_room() {
            return Ok(());
        }
        self.collect()
    }

    // Takes an erase block that has an erased page, if there is one, as the head.
    fn find_room(&mut self) -> bool
        ensures raw { self.new.raw ≡ self.old.raw }
        ensures layout { self.new.layout ≡ self.old.layout }
        ensures slots { self.new.slots ≡ self.old.slots }
        ensures room { result ≡ true → get_or self.new.layout.used.items self.new.head 0 < 64 }
        ensures full { result ≡ false → (block : ℕ) → block < length self.new.layout.used.items
            → get_or self.new.layout.used.items block 0 ≡ 64 }
    {
        if self.layout.used(self.head) < BLOCK_PAGES {
            return true;
        }
        match self.layout.first_open() {
            Some(block) => {
                self.head = block;
                true
            }
            None => false,
        }
    }

    // Collects the erase block with the fewest live pages, where no erased page is left.
    fn collect(&mut self) -> Result<(), DieFault>
        requires { (block : ℕ) → block < length self.old.layout.used.items
            → get_or self.old.layout.used.items block 0 ≡ 64 }
        ensures moves { KeepsPages self.old (is_ok result) self.new }
        ensures free { OnOk result (held_in self.new.layout.owners.items ≡ 0) }
        ensures room { held_in self.old.layout.owners.items ≡ 0
            → OnOk result (get_or self.new.layout.used.items self.new.head 0 < 64) }
    {
        let block = self.layout.fewest();
        self.hold_all(block)?;
        erase_block(&mut self.raw, &mut self.layout, block)?;
        settle_all(&mut self.raw, &mut self.layout, &self.slots, block)
    }

    // Reads the live pages of an erase block, of which all pages are programmed, into the buffer.
    fn hold_all(&mut self, block: u32) -> Result<(), DieFault>
        requires block { block < length self.old.layout.used.items }
        requires full { get_or self.old.layout.used.items block 0 ≡ 64 }
        requires room { held_in self.old.layout.owners.items + live_in block self.old.layout.places.items ≤ 64 }
        ensures moves { KeepsPages self.old (is_ok result) self.new }
        ensures used { self.new.layout.used.items ≡ self.old.layout.used.items }
        ensures sum { held_in self.new.layout.owners.items + live_in block self.new.layout.places.items
            ≡ held_in self.old.layout.owners.items + live_in block self.old.layout.places.items }
        ensures dead { OnOk result (live_in block self.new.layout.places.items ≡ 0) }
        ensures head { self.new.head ≡ block }
        ensures spare { self.new.spare ≡ block }
    {
        self.head = block;
        self.spare = block;
        hold_live(&mut self.raw, &mut self.layout, &mut self.slots, block)
    }
}

impl<R: RawFlash> Die for FtlDie<R> {
    ghost use Rattle.std.specs.Prelude.{is_ok, OnErr};
    ghost use Rattle.flash_die.specs.Dies.{WentWrite};
    ghost use Rattle.ftl_die.specs.Ftl.{view_of};
    ghost use Rattle.ftl_die.specs.Laws.{sound_ftl};

    ghost seen = { view_of };

    fn pages(&self) -> u32 {
        self.layout.pages()
    }

    fn read(&mut self, page: u32, into: &mut Page) -> Result<(), DieFault> {
        match self.layout.place(page) {
            Place::Unwritten => {
                into.clear_from(0);
                Ok(())
            }
            Place::At(at) => self.raw.read(at, into),
            Place::Held(slot) => {
                into.copy_from(&self.slots[slot as usize]);
                Ok(())
            }
        }
    }

    fn write(&mut self, page: u32, from: &Page) -> Result<(), DieFault>
        requires { page < (view_of self.old).size }
        ensures went { WentWrite (view_of self.old) page (is_ok result) from.now (view_of self.new) }
        ensures err { OnErr result ((view_of self.new).pages ≡ (view_of self.old).pages) }
    {
        self.make_room()?;
        let at = program_next(&mut self.raw, &mut self.layout, self.head, from)?;
        self.layout.lay(page, at);
        Ok(())
    }

    ghost sound = { λ die. sound_ftl (R.seen die.raw) die.slots.items die.layout.places.items (R.sound die.raw) die.each_whole };
}

impl FtlDie<RawMem> {
    ghost use Rattle.std.specs.Prelude.{Some, []};
    ghost use Rattle.flash_raw.specs.Calls.{first_calls};
    ghost use Rattle.flash_raw.specs.Memory.{plan_of};
    ghost use Rattle.ftl_die.specs.Ftl.{view_of, raw_of};

    /// A die of these pages over raw flash in memory, which has an eighth more erase blocks than they
    /// fill, and two. Of the reads and programs of the flash from then on, those fail that the plan
    /// lists as reads and as writes. More than 2^31 pages are too many for any memory.
    pub fn loaded(alloc: Global, pages: Vec<Page>, plan: Plan) -> Result<FtlDie<RawMem>, NoMemory>
        ensures pages { IfOk result (λ die. (view_of die).pages ≡ Some pages.items) }
        ensures faults { IfOk result (λ die. (view_of die).faults ≡ 0) }
        ensures most { IfOk result (λ die. (view_of die).most ≡ Some (length plan.reads + length plan.writes)) }
        ensures plan { IfOk result (λ die. plan_of (raw_of die) ≡ record {
          earlier = 0;
          reads = first_calls plan.reads;
          programs = first_calls plan.writes;
          erases = first_calls [];
        }) }
    {
        let Some(blocks) = blocks_for(pages.len()) else {
            return Err(AllocError);
        };
        let raw = RawMem::new(
            alloc,
            blocks,
            Vec::new(alloc),
            Vec::new(alloc),
            Vec::new(alloc),
        )?;
        let mut die = match FtlDie::new(alloc, raw, pages.len() as u32) {
            Ok(die) => die,
            Err(FtlErr::NoMemory(_)) => return Err(AllocError),
        };
        load_pages(&mut die, &pages);
        die.raw.arm(
            plan.reads.into_vec(),
            plan.writes.into_vec(),
            Vec::new(alloc),
        );
        Ok(die)
    }
}

// The slots of the buffer.
fn buffer(alloc: Global) -> Result<Vec<Page>, NoMemory>
    ensures { IfOk result (λ slots. length slots.items ≡ 64) }
{
    let mut slots = Vec::with_capacity(alloc, BLOCK_PAGES as usize)?;
    for _ in 0..BLOCK_PAGES {
        slots.push(Page::zero(alloc)?)?;
    }
    Ok(slots)
}
