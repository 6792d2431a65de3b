// The collection of an erase block: its live pages go to the buffer, and come back once it is erased.
ghost use Rattle.std.specs.Prelude.{◌≡◌, ◌+◌, ◌<◌, ◌≤◌, ℕ, length, set, get_or, is_ok, OnOk};
ghost use Rattle.ftl_die.specs.Places.{one_in, live_in, held_in};
ghost use Rattle.ftl_die.specs.Stored.{IsStored, Moves};
ghost use Rattle.ftl_die.specs.declared.place.Place.TheVariants.{Unwritten};

use crate::layout::{BLOCK_PAGES, Layout};
use crate::place::Place;
use crate::steps::{hold_page, settle};
use flash_raw::RawFlash;
use page_base::{DieFault, Page};

// Reads a page of the die into the buffer where it lies in this erase block.
fn hold_if_in<R: RawFlash>(
    raw: &mut R,
    layout: &mut Layout,
    slots: &mut [Page],
    block: u32,
    page: u32,
) -> Result<(), DieFault>
    requires stored { IsStored (R.seen raw.old) layout.old.places.items layout.old.used.items }
    requires slots { length slots.old ≡ 64 }
    requires page { page < length layout.old.places.items }
    requires room { held_in layout.old.owners.items + live_in block layout.old.places.items ≤ 64 }
    ensures moves { Moves (R.seen raw.old) slots.old layout.old.places.items (is_ok result)
        (R.seen raw.new) slots.new layout.new.places.items }
    ensures stored { IsStored (R.seen raw.new) layout.new.places.items layout.new.used.items }
    ensures used { layout.new.used.items ≡ layout.old.used.items }
    ensures sum { held_in layout.new.owners.items + live_in block layout.new.places.items
        ≡ held_in layout.old.owners.items + live_in block layout.old.places.items }
    ensures gone { OnOk result (one_in block (get_or layout.new.places.items page Unwritten) ≡ 0) }
    ensures others { (other : ℕ) → other < page
        → get_or layout.new.places.items other Unwritten ≡ get_or layout.old.places.items other Unwritten }
{
    match layout.place(page) {
        Place::At(at) if at / BLOCK_PAGES == block => hold_page(raw, layout, slots, page, at),
        _ => Ok(()),
    }
}

/// Reads the live pages of an erase block into the buffer, which has room for them.
pub fn hold_live<R: RawFlash>(
    raw: &mut R,
    layout: &mut Layout,
    slots: &mut [Page],
    block: u32,
) -> Result<(), DieFault>
    requires stored { IsStored (R.seen raw.old) layout.old.places.items layout.old.used.items }
    requires slots { length slots.old ≡ 64 }
    requires room { held_in layout.old.owners.items + live_in block layout.old.places.items ≤ 64 }
    ensures moves { Moves (R.seen raw.old) slots.old layout.old.places.items (is_ok result)
        (R.seen raw.new) slots.new layout.new.places.items }
    ensures stored { IsStored (R.seen raw.new) layout.new.places.items layout.new.used.items }
    ensures used { layout.new.used.items ≡ layout.old.used.items }
    ensures sum { held_in layout.new.owners.items + live_in block layout.new.places.items
        ≡ held_in layout.old.owners.items + live_in block layout.old.places.items }
    ensures dead { OnOk result (live_in block layout.new.places.items ≡ 0) }
{
    for page in 0..layout.pages() {
        hold_if_in(raw, layout, slots, block, page)?;
    }
    Ok(())
}

/// Programs the pages in the buffer into an erase block of which no page is programmed; those whose
/// programming fails stay in the buffer.
pub fn settle_all<R: RawFlash>(
    raw: &mut R,
    layout: &mut Layout,
    slots: &[Page],
    block: u32,
) -> Result<(), DieFault>
    requires stored { IsStored (R.seen raw.old) layout.old.places.items layout.old.used.items }
    requires slots { length slots.now ≡ 64 }
    requires block { block < length layout.old.used.items }
    requires empty { get_or layout.old.used.items block 0 ≡ 0 }
    ensures moves { Moves (R.seen raw.old) slots.now layout.old.places.items (is_ok result)
        (R.seen raw.new) slots.now layout.new.places.items }
    ensures stored { IsStored (R.seen raw.new) layout.new.places.items layout.new.used.items }
    ensures used { layout.new.used.items
        ≡ set layout.old.used.items block (held_in layout.old.owners.items) }
    ensures sum { held_in layout.new.owners.items + live_in block layout.new.places.items
        ≤ held_in layout.old.owners.items + live_in block layout.old.places.items }
    ensures free { OnOk result (held_in layout.new.owners.items ≡ 0) }
{
    let mut good = true;
    for slot in 0..BLOCK_PAGES {
        good &= settle(raw, layout, slots, block, slot).is_ok();
    }
    if good { Ok(()) } else { Err(DieFault) }
}
