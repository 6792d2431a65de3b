// What raw flash is.
ghost use Rattle.std.specs.Prelude.{◌≡◌, ◌<◌, is_ok};
ghost use Rattle.flash_raw.specs.Raw.{RawView, IsProgrammed, IsNextErased, RawRead, RawProgram, RawErase, IsRaw};

use page_base::{DieFault, Page};

/// A device of erase blocks with 64 pages each, whose reads, programs and erases may fail. Page p
/// lies in erase block p / 64. A page is erased, or programmed with its bytes; the pages of a block
/// are programmed in rising order, and erased together.
pub trait RawFlash: Drop {
    /// What is told of it: the pages, the number of erase blocks, the count of faults, and perhaps a
    /// number that this count never passes. No call changes whether that number is told.
    ghost seen: { Self → RawView };

    /// How many erase blocks it has: below 2^26. No call changes that.
    fn blocks(&self) -> u32
        ensures { result ≡ (seen self.now).blocks };

    /// Reads a programmed page. `DieFault`: the count of faults has risen, and all else is as before.
    fn read(&mut self, page: u32, into: &mut Page) -> Result<(), DieFault>
        requires { IsProgrammed (seen self.old).pages page }
        ensures { RawRead (seen self.old) page (is_ok result) into.old into.new (seen self.new) };

    /// Programs the lowest erased page of its block. `DieFault`: the count of faults has risen, and
    /// the page is programmed with any bytes.
    fn program(&mut self, page: u32, from: &Page) -> Result<(), DieFault>
        requires { IsNextErased (seen self.old).pages page }
        ensures { RawProgram (seen self.old) page (is_ok result) from.now (seen self.new) };

    /// Erases the pages of a block. `DieFault`: the count of faults has risen, and all else is as before.
    fn erase(&mut self, block: u32) -> Result<(), DieFault>
        requires { block < (seen self.old).blocks }
        ensures { RawErase (seen self.old) block (is_ok result) (seen self.new) };

    /// What holds of all raw flash: there are 64 pages for each block, and fewer than 2^26 blocks,
    /// a programmed page has 4,096 bytes, and the count never passes its bound.
    ghost sound: { (raw : Self) → IsRaw (seen raw) };
}
