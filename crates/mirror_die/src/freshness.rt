// On which copies of a mirror each page is fresh.
ghost use Rattle.std.specs.Prelude.{◌≡◌, ◌<◌, ◌≤◌, ◌^◌, length, get_or, set, replicate, IfOk};
ghost use Rattle.mirror_die.specs.Freshness.{is_on_first, is_on_second, after_write, alone, stale_of};

use page_base::NoMemory;
use std::alloc::Global;
use std::marker::Model;

/// Where a page of a mirror is fresh: on both copies, or on one of them alone.
#[derive(Clone, Copy, Debug, PartialEq, Eq)]
pub enum Fresh {
    /// On both copies.
    OnBoth,
    /// On the first copy alone.
    OnFirst,
    /// On the second copy alone.
    OnSecond,
}

impl Fresh {
    /// Whether the page is fresh on the first copy.
    pub fn is_on_first(self) -> bool
        ensures { result ≡ is_on_first self }
    {
        match self {
            Fresh::OnBoth | Fresh::OnFirst => true,
            Fresh::OnSecond => false,
        }
    }

    /// Whether the page is fresh on the second copy.
    pub fn is_on_second(self) -> bool
        ensures { result ≡ is_on_second self }
    {
        match self {
            Fresh::OnBoth | Fresh::OnSecond => true,
            Fresh::OnFirst => false,
        }
    }

    /// Where a page is fresh after a write that these copies took, the first and the second.
    pub fn after_write(first: bool, second: bool) -> Fresh
        ensures { result ≡ after_write first second }
    {
        match (first, second) {
            (true, true) => Fresh::OnBoth,
            (false, true) => Fresh::OnSecond,
            (_, false) => Fresh::OnFirst,
        }
    }

    // How much a page adds to the count of those that are fresh on one copy alone.
    fn alone(self) -> u32
        ensures { result ≡ alone self }
    {
        match self {
            Fresh::OnBoth => 0,
            Fresh::OnFirst | Fresh::OnSecond => 1,
        }
    }
}

/// Where each page is fresh, and how many are fresh on one copy alone. Seen as the list by page.
#[derive(Drop)]
pub struct FreshMap {
    pages: Vec<Fresh>,
    stale: u32,
}

impl Model for FreshMap {
    ghost use Rattle.std.specs.Prelude.{◌≡◌, ◌<◌, ◌^◌, List, length};
    ghost use Rattle.mirror_die.specs.declared.freshness.Fresh.{Fresh};
    ghost use Rattle.mirror_die.specs.Freshness.{stale_of};

    ghost Value = { List Fresh };

    ghost view = { λ m. m.pages.items };

    ghost invariant = { λ m. (m.stale ≡ stale_of m.pages.items) × (length m.pages.items < 2 ^ 32) };
}

impl FreshMap {
    /// So many pages, each fresh on both copies.
    pub fn all_fresh(alloc: Global, pages: u32) -> Result<FreshMap, NoMemory>
        ensures { IfOk result (λ m. m ≡ replicate pages Fresh.OnBoth) }
    {
        Ok(FreshMap {
            pages: vec![in alloc; Fresh::OnBoth; pages as usize]?,
            stale: 0,
        })
    }

    /// Where a page is fresh.
    pub fn get(&self, page: u32) -> Fresh
        requires { page < length self.now }
        ensures { result ≡ get_or self.now page Fresh.OnBoth }
    {
        self.pages[page as usize]
    }

    /// Says where a page is fresh from now on.
    pub fn set(&mut self, page: u32, fresh: Fresh)
        requires { page < length self.old }
        ensures { self.new ≡ set self.old page fresh }
    {
        let place = page as usize;
        self.stale = self.stale - self.pages[place].alone() + fresh.alone();
        self.pages[place] = fresh;
    }

    /// How many pages are fresh on one copy alone.
    pub fn stale(&self) -> u32
        ensures { result ≡ stale_of self.now }
    {
        self.stale
    }
}
