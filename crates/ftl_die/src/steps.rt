// The steps over raw flash: a page goes to flash, to the buffer, or out of it.
ghost use Rattle.std.specs.Prelude.{◌≡◌, ◌+◌, ◌/◌, ◌<◌, ◌≤◌, ℕ, List, length, set, get_or, is_ok, if◌then◌else◌, Some, None, IfOk, OnOk};
ghost use Rattle.flash_raw.specs.Raw.{RawCounts};
ghost use Rattle.ftl_die.specs.Places.{one_in, live_in, one_held, held_in};
ghost use Rattle.ftl_die.specs.Stored.{IsStored, KeepsProgrammed, Moves};
ghost use Rattle.ftl_die.specs.declared.place.Place.TheVariants.{Unwritten, At};

use crate::layout::{BLOCK_PAGES, Layout};
use crate::place::Place;
use flash_raw::RawFlash;
use page_base::{DieFault, Page};

/// Programs the lowest erased page of an erase block, which has one, and says which it is.
pub fn program_next<R: RawFlash>(
    raw: &mut R,
    layout: &mut Layout,
    block: u32,
    from: &Page,
) -> Result<u32, DieFault>
    requires stored { IsStored (R.seen raw.old) layout.old.places.items layout.old.used.items }
    requires block { block < length layout.old.used.items }
    requires open { get_or layout.old.used.items block 0 < 64 }
    ensures counts { RawCounts (R.seen raw.old) (is_ok result) (R.seen raw.new) }
    ensures stored { IsStored (R.seen raw.new) layout.new.places.items layout.new.used.items }
    ensures kept { KeepsProgrammed (R.seen raw.old).pages (R.seen raw.new).pages }
    ensures places { layout.new.places.items ≡ layout.old.places.items }
    ensures owners { layout.new.owners.items ≡ layout.old.owners.items }
    ensures used { layout.new.used.items
        ≡ set layout.old.used.items block (get_or layout.old.used.items block 0 + 1) }
    ensures at { IfOk result (λ at. (at / 64 ≡ block)
        × (get_or (R.seen raw.new).pages at None ≡ Some from.now)) }
{
    let at = BLOCK_PAGES * block + layout.used(block);
    layout.count_program(block);
    raw.program(at, from)?;
    Ok(at)
}

/// Reads a page of the die from raw flash into a free slot, where it then lies.
pub fn hold_page<R: RawFlash>(
    raw: &mut R,
    layout: &mut Layout,
    slots: &mut [Page],
    page: u32,
    at: u32,
) -> Result<(), DieFault>
    requires stored { IsStored (R.seen raw.old) layout.old.places.items layout.old.used.items }
    requires slots { length slots.old ≡ 64 }
    requires page { page < length layout.old.places.items }
    requires at { get_or layout.old.places.items page Unwritten ≡ At at }
    requires room { held_in layout.old.owners.items < 64 }
    ensures moves { Moves (R.seen raw.old) slots.old layout.old.places.items (is_ok result)
        (R.seen raw.new) slots.new layout.new.places.items }
    ensures stored { IsStored (R.seen raw.new) layout.new.places.items layout.new.used.items }
    ensures used { layout.new.used.items ≡ layout.old.used.items }
    ensures sum { held_in layout.new.owners.items + live_in (at / 64) layout.new.places.items
        ≡ held_in layout.old.owners.items + live_in (at / 64) layout.old.places.items }
    ensures gone { OnOk result
        (one_in (at / 64) (get_or layout.new.places.items page Unwritten) ≡ 0) }
    ensures others { (other : ℕ) → other < page
        → get_or layout.new.places.items other Unwritten ≡ get_or layout.old.places.items other Unwritten }
{
    let slot = layout.free_slot();
    raw.read(at, &mut slots[slot as usize])?;
    layout.hold(page, slot);
    Ok(())
}

/// Erases an erase block in which no page of the die lies.
pub fn erase_block<R: RawFlash>(
    raw: &mut R,
    layout: &mut Layout,
    block: u32,
) -> Result<(), DieFault>
    requires stored { IsStored (R.seen raw.old) layout.old.places.items layout.old.used.items }
    requires block { block < length layout.old.used.items }
    requires dead { live_in block layout.old.places.items ≡ 0 }
    ensures moves { (slots : List (List ℕ)) → Moves (R.seen raw.old) slots layout.old.places.items
        (is_ok result) (R.seen raw.new) slots layout.new.places.items }
    ensures stored { IsStored (R.seen raw.new) layout.new.places.items layout.new.used.items }
    ensures places { layout.new.places.items ≡ layout.old.places.items }
    ensures owners { layout.new.owners.items ≡ layout.old.owners.items }
    ensures used { layout.new.used.items
        ≡ (if is_ok result then set layout.old.used.items block 0 else layout.old.used.items) }
{
    raw.erase(block)?;
    layout.count_erase(block);
    Ok(())
}

/// Programs the page of the die in a slot, if there is one, into an erase block. It stays in the
/// slot where that fails.
pub fn settle<R: RawFlash>(
    raw: &mut R,
    layout: &mut Layout,
    slots: &[Page],
    block: u32,
    slot: u32,
) -> Result<(), DieFault>
    requires stored { IsStored (R.seen raw.old) layout.old.places.items layout.old.used.items }
    requires slots { length slots.now ≡ 64 }
    requires slot { slot < 64 }
    requires block { block < length layout.old.used.items }
    requires open { get_or layout.old.used.items block 0
        + one_held (get_or layout.old.owners.items slot None) ≤ 64 }
    ensures moves { Moves (R.seen raw.old) slots.now layout.old.places.items (is_ok result)
        (R.seen raw.new) slots.now layout.new.places.items }
    ensures stored { IsStored (R.seen raw.new) layout.new.places.items layout.new.used.items }
    ensures used { layout.new.used.items
        ≡ set layout.old.used.items block (get_or layout.old.used.items block 0
        + one_held (get_or layout.old.owners.items slot None)) }
    ensures owners { layout.new.owners.items
        ≡ (if is_ok result then set layout.old.owners.items slot None else layout.old.owners.items) }
    ensures sum { held_in layout.new.owners.items + live_in block layout.new.places.items
        ≤ held_in layout.old.owners.items + live_in block layout.old.places.items }
{
    match layout.owner(slot) {
        None => Ok(()),
        Some(page) => {
            let at = program_next(raw, layout, block, &slots[slot as usize])?;
            layout.lay(page, at);
            Ok(())
        }
    }
}
