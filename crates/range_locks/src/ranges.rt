ghost use Rattle.std.specs.Prelude.{◌≡◌, ℕ, ◌+◌, ◌*◌, ◌<◌, ◌≤◌, ◌^◌, length, replicate, max, Some, None, IfOk, IfErr, OnOk, is_some, true};
ghost use Rattle.range_locks.specs.Held.{held_by, with_held, range_of, least_conflict, least_on};
ghost use Rattle.range_locks.specs.Locks.{list_for};

use crate::range::{Conflict, Mode, Range};
use crate::walks::{insert, least_hit, least_node, lesser};
use index_lists::{Links, NoMemory};
use std::alloc::Global;
use std::marker::Model;

/// What each call holds: pages of a file, or an empty range of it, which still holds the file.
///
/// Only the making takes memory.
#[derive(Drop)]
pub struct Ranges {
    files: u32,
    held: Vec<Option<Range>>,
    links: Links,
}

impl Model for Ranges {
    ghost use Rattle.range_locks.specs.Held.{Ranged};
    ghost use Rattle.range_locks.specs.Locks.{AreLocks};

    ghost Value = { Ranged };

    ghost view = { λ s. record { files = s.files; held = s.held.items } };

    ghost invariant = { λ s. AreLocks s.files s.held.items s.links };
}

/// The list of the ranges of this file, with a page or without one.
fn list_for(range: &Range) -> u32
    requires { range.now.file ≤ 2 ^ 20 }
    ensures { result ≡ list_for range.now }
{
    if range.from < range.to {
        2 * range.file
    } else {
        2 * range.file + 1
    }
}

impl Ranges {
    /// So many calls that hold nothing, over so many files; or `NoMemory`.
    pub fn new(alloc: Global, calls: u32, files: u32) -> Result<Ranges, NoMemory>
        requires some_files { 1 ≤ files }
        requires product { 2 * (max calls 1 * files) ≤ 2 ^ 20 }
        ensures { IfOk result (λ s. s ≡ record { files = files; held = replicate calls None }) }
    {
        let mut held = Vec::with_capacity(alloc, calls as usize)?;
        for _ in 0..calls {
            held.push(None)?;
        }
        let links = Links::with_lists(alloc, calls.max(1), 2 * files)?;
        Ok(Ranges { files, held, links })
    }

    /// Lets the call hold the pages of a file from `from` up to below `to`.
    ///
    /// `Conflict` comes exactly where a held range of the file has a page in common with these and one of the two is
    /// exclusive, and names the least call with such a range. Nothing has changed then.
    pub fn try_lock(
        &mut self,
        call: u32,
        file: u32,
        from: u32,
        to: u32,
        mode: Mode,
    ) -> Result<(), Conflict>
        requires call { call < length self.old.held }
        requires file { file < self.old.files }
        requires free { held_by self.old call ≡ None }
        requires order { from ≤ to }
        ensures ok { OnOk result ((least_conflict (range_of file from to mode) self.old ≡ None) × (self.new ≡ with_held self.old call (Some (range_of file from to mode)))) }
        ensures conflict { IfErr result (λ e. (least_conflict (range_of file from to mode) self.old ≡ Some e.call) × (self.new ≡ self.old)) }
    {
        let range = Range {
            file,
            from,
            to,
            mode,
        };
        if let Some(call) = least_hit(&self.links, &self.held, 2 * file, &range) {
            return Err(Conflict { call });
        }
        self.held[call as usize] = Some(range);
        if from < to {
            insert(&mut self.links, &self.held, 2 * file, call);
        } else {
            self.links.push_back(2 * file + 1, call);
        }
        Ok(())
    }

    /// Gives back what the call holds.
    pub fn unlock(&mut self, call: u32)
        requires call { call < length self.old.held }
        requires holds { is_some (held_by self.old call) ≡ true }
        ensures { self.new ≡ with_held self.old call None }
    {
        let Some(range) = self.held[call as usize] else {
            return;
        };
        self.links.remove(list_for(&range), call);
        self.held[call as usize] = None;
    }

    /// The least call that holds the file, with an empty range too; `None` where no call does.
    pub fn any_on(&self, file: u32) -> Option<u32>
        requires { file < self.now.files }
        ensures { result ≡ least_on file self.now }
    {
        lesser(
            least_node(&self.links, 2 * file),
            least_node(&self.links, 2 * file + 1),
        )
    }
}

#[cfg(test)]
mod tests {
    use super::*;

    #[test]
    fn the_least_call_in_the_way_is_named(rt: HostRuntime) -> Result<(), NoMemory> {
        let mut ranges = Ranges::new(rt.alloc(), 3, 1)?;
        assert!(rt; ranges.try_lock(0, 0, 0, 4, Mode::Shared).is_ok());
        assert!(rt; ranges.try_lock(1, 0, 3, 5, Mode::Shared).is_ok());
        let third = ranges.try_lock(2, 0, 4, 5, Mode::Exclusive);
        assert!(rt; third == Err(Conflict { call: 1 }));
        ranges.unlock(1);
        assert!(rt; ranges.try_lock(2, 0, 4, 5, Mode::Exclusive).is_ok());
        assert_eq!(rt; ranges.any_on(0), Some(0));
        ranges.unlock(0);
        ranges.unlock(2);
        assert!(rt; ranges.try_lock(1, 0, 7, 7, Mode::Exclusive).is_ok());
        assert!(rt; ranges.try_lock(2, 0, 0, 9, Mode::Exclusive).is_ok());
        assert_eq!(rt; ranges.any_on(0), Some(1));
        Ok(())
    }
}
