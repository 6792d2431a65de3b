// A page of raw flash in memory.
ghost use Rattle.std.specs.Prelude.{◌≡◌, length, Some, None, IfOk};

use page_base::{NoMemory, Page};
use std::alloc::Global;

/// A page, and whether it is programmed; what an erased page has is not told.
#[derive(Drop)]
pub struct RawPage {
    bytes: Page,
    programmed: bool,
    ghost whole: { length bytes ≡ 4096 },
}

impl RawPage {
    ghost use Rattle.flash_die.specs.Failures.{spoilt_page};
    ghost use Rattle.flash_raw.specs.Memory.{shown};

    /// An erased page.
    pub fn erased(alloc: Global) -> Result<RawPage, NoMemory>
        ensures { IfOk result (λ page. shown page ≡ None) }
    {
        Ok(RawPage {
            bytes: Page::zero(alloc)?,
            programmed: false,
        })
    }

    /// Its bytes.
    pub fn bytes(&self) -> &Page
        ensures { result.now ≡ self.now.bytes }
    {
        &self.bytes
    }

    /// Programs it with these bytes.
    pub fn program(&mut self, from: &Page)
        ensures { shown self.new ≡ Some from.now }
    {
        self.bytes.copy_from(from);
        self.programmed = true;
    }

    /// Programs it with the bytes that a program leaves where it fails.
    pub fn spoil(&mut self)
        ensures { shown self.new ≡ Some spoilt_page }
    {
        self.bytes.patch(0, &[0xa5; 4096]);
        self.programmed = true;
    }

    /// Erases it.
    pub fn erase(&mut self)
        ensures { shown self.new ≡ None }
    {
        self.programmed = false;
    }
}
