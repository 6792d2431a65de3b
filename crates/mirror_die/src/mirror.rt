// A mirror of two dies.
ghost use Rattle.std.specs.Prelude.{◌≡◌};
ghost use Rattle.std.proofs.Props.{props};
ghost use Rattle.mirror_die.specs.Mirror.{IsMirror};

use crate::copies::{Copied, any_took, copy_page, count_fault, read_fresh};
use crate::freshness::{Fresh, FreshMap};
use flash_die::Die;
use page_base::{DieFault, Page};
use std::alloc::Global;

/// Two dies that hold the same pages and stand for one.
///
/// Each page is fresh on one copy or on both, and its bytes are those of each fresh copy. Only the
/// making takes memory.
#[derive(Drop)]
pub struct MirrorDie<A: Die, B: Die> {
    first: A,
    second: B,
    fresh: FreshMap,
    faults: u64,
    ghost mirrors: { IsMirror (record {
      first = A.seen first;
      second = B.seen second;
      fresh = fresh;
      faults = faults;
    }) } by { Prim.hlevel props },
}

/// Why a mirror was not made.
#[derive(Debug, Drop)]
pub enum MirrorErr<A, B> {
    /// There was no memory; the two dies are handed back.
    NoMemory(A, B),
}

/// The copy at which a rebuild stopped.
#[derive(Clone, Copy, Debug, PartialEq, Eq, Drop)]
pub enum RebuildErr {
    /// The first copy failed.
    First,
    /// The second copy failed.
    Second,
}

impl<A: Die, B: Die> MirrorDie<A, B> {
    ghost use Rattle.std.specs.Prelude.{◌≡◌, ◌<◌, replicate, IfOk, OnOk, OnErr, Err};
    ghost use Rattle.mirror_die.specs.Freshness.{stale_of};
    ghost use Rattle.mirror_die.specs.Mirror.{AreEqual, TellsMost, made_of, seen_of};
    ghost use Rattle.mirror_die.specs.Rebuild.{Restores, RestoresFirst, RestoresSecond, Rebuilds, IsRestored, LosesByFaults, failed_copy, fresh_at};
    ghost use Rattle.mirror_die.specs.Views.{view_of};

    /// A mirror of two dies with the same pages, each page fresh on both; its count of faults begins
    /// at 0. `NoMemory` hands both dies back.
    pub fn new(alloc: Global, first: A, second: B) -> Result<MirrorDie<A, B>, MirrorErr<A, B>>
        requires sizes { (A.seen first).size ≡ (B.seen second).size }
        requires same { AreEqual (A.seen first).pages (B.seen second).pages }
        requires first_most { TellsMost (A.seen first) }
        requires second_most { TellsMost (B.seen second) }
        ensures ok { IfOk result (λ mirror. view_of mirror ≡ record {
          first = A.seen first;
          second = B.seen second;
          fresh = replicate (A.seen first).size Fresh.OnBoth;
          faults = 0;
        }) }
        ensures seen { IfOk result (λ mirror. seen_of (view_of mirror) ≡ made_of (A.seen first) (B.seen second)) }
        ensures whole { IfOk result (λ mirror. stale_of (view_of mirror).fresh ≡ 0) }
        ensures err { OnErr result (result ≡ Err (MirrorErr.NoMemory first second)) }
    {
        match FreshMap::all_fresh(alloc, first.pages()) {
            Ok(fresh) => Ok(MirrorDie {
                first,
                second,
                fresh,
                faults: 0,
            }),
            Err(_) => Err(MirrorErr::NoMemory(first, second)),
        }
    }

    /// How many pages are fresh on one copy alone.
    pub fn stale(&self) -> u32
        ensures { result ≡ stale_of (view_of self.now).fresh }
    {
        self.fresh.stale()
    }

    /// Copies each page that is fresh on one copy alone to the other, by rising page and through a
    /// page of the caller, up to the first failure. The pages and the mirror's own count of faults
    /// stay. `Ok`: no page is stale. An error names the copy that failed, whose count has risen.
    pub fn rebuild(&mut self, page: &mut Page) -> Result<(), RebuildErr>
        ensures steps { Rebuilds (view_of self.old).first.size 0 (view_of self.old) (failed_copy result) page.old page.new (view_of self.new) }
        ensures same { seen_of (view_of self.new) ≡ seen_of (view_of self.old) }
        ensures ok { OnOk result (stale_of (view_of self.new).fresh ≡ 0) }
        ensures err { OnErr result (0 < stale_of (view_of self.new).fresh) }
        ensures first { result ≡ Err RebuildErr.First → (view_of self.old).first.faults < (view_of self.new).first.faults }
        ensures second { result ≡ Err RebuildErr.Second → (view_of self.old).second.faults < (view_of self.new).second.faults }
        ensures loses { LosesByFaults (view_of self.old) (view_of self.new) }
    {
        for number in 0..self.first.pages() {
            self.restore(number, page)?;
        }
        Ok(())
    }

    // Makes a page fresh on both copies, if it isn't.
    fn restore(&mut self, page: u32, buffer: &mut Page) -> Result<(), RebuildErr>
        requires { page < (view_of self.old).first.size }
        ensures step { Restores (fresh_at (view_of self.old) page) (view_of self.old) page (failed_copy result) buffer.old buffer.new (view_of self.new) }
        ensures after { IsRestored (view_of self.old) page (failed_copy result) (view_of self.new) }
    {
        match self.fresh.get(page) {
            Fresh::OnBoth => Ok(()),
            Fresh::OnFirst => self.restore_second(page, buffer),
            Fresh::OnSecond => self.restore_first(page, buffer),
        }
    }

    // Makes the second copy of a page fresh from the first, where the page is fresh on that alone.
    fn restore_second(&mut self, page: u32, buffer: &mut Page) -> Result<(), RebuildErr>
        requires within { page < (view_of self.old).first.size }
        requires on_first { fresh_at (view_of self.old) page ≡ Fresh.OnFirst }
        ensures step { RestoresSecond (view_of self.old) page (failed_copy result) buffer.old buffer.new (view_of self.new) }
        ensures after { IsRestored (view_of self.old) page (failed_copy result) (view_of self.new) }
    {
        match copy_page(&mut self.first, &mut self.second, page, buffer) {
            Copied::Done => {
                self.fresh.set(page, Fresh::OnBoth);
                Ok(())
            }
            Copied::ReadFailed => Err(RebuildErr::First),
            Copied::WriteFailed => Err(RebuildErr::Second),
        }
    }

    // Makes the first copy of a page fresh from the second, where the page is fresh on that alone.
    fn restore_first(&mut self, page: u32, buffer: &mut Page) -> Result<(), RebuildErr>
        requires within { page < (view_of self.old).first.size }
        requires on_second { fresh_at (view_of self.old) page ≡ Fresh.OnSecond }
        ensures step { RestoresFirst (view_of self.old) page (failed_copy result) buffer.old buffer.new (view_of self.new) }
        ensures after { IsRestored (view_of self.old) page (failed_copy result) (view_of self.new) }
    {
        match copy_page(&mut self.second, &mut self.first, page, buffer) {
            Copied::Done => {
                self.fresh.set(page, Fresh::OnBoth);
                Ok(())
            }
            Copied::ReadFailed => Err(RebuildErr::Second),
            Copied::WriteFailed => Err(RebuildErr::First),
        }
    }
}

impl<A: Die, B: Die> Die for MirrorDie<A, B> {
    ghost use Rattle.std.specs.Prelude.{◌≡◌, ◌<◌, is_ok};
    ghost use Rattle.flash_die.specs.Dies.{WentRead, WentWrite};
    ghost use Rattle.mirror_die.specs.Mirror.{seen_of};
    ghost use Rattle.mirror_die.specs.Calls.{MirrorRead, MirrorWrite};
    ghost use Rattle.mirror_die.specs.Rebuild.{LosesByFaults};
    ghost use Rattle.mirror_die.specs.Views.{view_of};
    ghost use Rattle.mirror_die.specs.Laws.{sound_mirror};

    ghost seen = { λ mirror. seen_of (view_of mirror) };

    fn pages(&self) -> u32 {
        self.first.pages()
    }

    fn read(&mut self, page: u32, into: &mut Page) -> Result<(), DieFault>
        requires { page < (seen_of (view_of self.old)).size }
        ensures went { WentRead (seen_of (view_of self.old)) page (is_ok result) into.old into.new (seen_of (view_of self.new)) }
        ensures tries { MirrorRead (view_of self.old) page (is_ok result) into.old into.new (view_of self.new) }
    {
        let fresh = self.fresh.get(page);
        let outcome = read_fresh(&mut self.first, &mut self.second, fresh, page, into);
        count_fault(outcome, &mut self.faults)
    }

    fn write(&mut self, page: u32, from: &Page) -> Result<(), DieFault>
        requires { page < (seen_of (view_of self.old)).size }
        ensures went { WentWrite (seen_of (view_of self.old)) page (is_ok result) from.now (seen_of (view_of self.new)) }
        ensures both { MirrorWrite (view_of self.old) page (is_ok result) from.now (view_of self.new) }
        ensures loses { LosesByFaults (view_of self.old) (view_of self.new) }
    {
        let first_took = self.first.write(page, from).is_ok();
        let second_took = self.second.write(page, from).is_ok();
        self.fresh
            .set(page, Fresh::after_write(first_took, second_took));
        count_fault(any_took(first_took, second_took), &mut self.faults)
    }

    ghost sound = { λ mirror. sound_mirror (view_of mirror) (A.sound mirror.first) (B.sound mirror.second) mirror.mirrors };
}
