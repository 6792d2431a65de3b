// A die's share of the pages of an image.
ghost use Rattle.std.specs.Prelude.{◌≡◌, ◌+◌, ◌<◌, ◌^◌, ◌∷◌, ◌++◌, [], length, IfOk, OnOk};

use flash_die::{DieMem, Plan};
use flash_raw::RawMem;
use ftl_die::FtlDie;
use page_base::{NoMemory, Page};
use std::alloc::Global;

/// The pages that lie on a die so far, and the plan of its failures.
#[derive(Drop)]
pub struct Share {
    pages: Vec<Page>,
    plan: Plan,
    ghost few: { length pages.items < 2 ^ 32 },
}

impl Share {
    ghost use Rattle.flash_die.specs.Failures.{told_die};
    ghost use Rattle.flash_die.specs.Memory.{view_of};
    ghost use Rattle.drive_array.specs.Shares.{start_plan, loaded_die, armed};
    ghost use Rattle.ftl_die.specs.Ftl.{view_of as ftl_view_of, raw_of};
    ghost use Rattle.flash_raw.specs.Memory.{plan_of as raw_plan_of};
    ghost use Rattle.drive_array.specs.Parts.{pages_of, plan_of};

    /// No pages, with a plan.
    pub fn new(alloc: Global, plan: Plan) -> Share
        ensures pages { pages_of result ≡ [] }
        ensures plan { plan_of result ≡ plan }
    {
        Share {
            pages: Vec::new(alloc),
            plan,
        }
    }

    /// Adds a page at the end.
    pub fn add(&mut self, page: Page) -> Result<(), NoMemory>
        requires { length (pages_of self.old) + 1 < 2 ^ 32 }
        ensures pages { OnOk result (pages_of self.new ≡ pages_of self.old ++ page ∷ []) }
        ensures plan { plan_of self.new ≡ plan_of self.old }
    {
        self.pages.push(page)?;
        Ok(())
    }

    /// The die of these pages, which fails by the plan.
    pub fn into_die(self) -> DieMem
        ensures { view_of result ≡ told_die (pages_of self) (start_plan (plan_of self)) }
    {
        DieMem::new(self.pages, self.plan)
    }

    /// The die of these pages over raw flash, which fails by the plan.
    pub fn into_ftl(self, alloc: Global) -> Result<FtlDie<RawMem>, NoMemory>
        ensures die { IfOk result (λ die. ftl_view_of die ≡ loaded_die (pages_of self) (plan_of self)) }
        ensures plan { IfOk result (λ die. raw_plan_of (raw_of die) ≡ armed (plan_of self)) }
    {
        FtlDie::loaded(alloc, self.pages, self.plan)
    }
}
