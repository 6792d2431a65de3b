// What a die is.
ghost use Rattle.std.specs.Prelude.{◌≡◌, ◌<◌, is_ok};
ghost use Rattle.flash_die.specs.Dies.{DieView, WentRead, WentWrite, IsDie};

use page_base::{DieFault, Page};

/// A device of whole pages, whose reads and writes may fail. It tells its pages, a bound of its
/// faults and a plan, or doesn't, and no call changes which of these it tells.
pub trait Die: Drop {
    /// What is told of it: the pages, their number, the count of faults, a number that this count
    /// never passes, and the plan of its failures. The number of pages and the count are always told.
    ghost seen: { Self → DieView };

    /// How many pages it has. No call changes that.
    fn pages(&self) -> u32
        ensures { result ≡ (seen self.now).size };

    /// Reads a page. `DieFault`: the count of faults has risen, and pages and `into` are as before.
    fn read(&mut self, page: u32, into: &mut Page) -> Result<(), DieFault>
        requires { page < (seen self.old).size }
        ensures { WentRead (seen self.old) page (is_ok result) into.old into.new (seen self.new) };

    /// Writes a page. `DieFault`: the count of faults has risen, and the page may have any bytes.
    fn write(&mut self, page: u32, from: &Page) -> Result<(), DieFault>
        requires { page < (seen self.old).size }
        ensures { WentWrite (seen self.old) page (is_ok result) from.now (seen self.new) };

    /// What holds of every die: the number of pages is that of the pages told, each page told has
    /// 4,096 bytes, the count never passes its bound, and numbers of calls are of 32 bits.
    ghost sound: { (die : Self) → IsDie (seen die) };
}
