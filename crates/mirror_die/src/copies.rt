// Steps over the two copies of a mirror.
ghost use Rattle.std.specs.Prelude.{◌≡◌, ◌<◌, ◌-◌, ◌^◌, ◌||◌, is_ok};
ghost use Rattle.mirror_die.specs.Calls.{Tries, ReadsFresh, counted};
ghost use Rattle.mirror_die.specs.Rebuild.{Copies};

use crate::freshness::Fresh;
use flash_die::Die;
use page_base::{DieFault, Page};

/// How the copying of a page went.
#[derive(Clone, Copy, Debug, PartialEq, Eq)]
pub enum Copied {
    /// The page was read and written.
    Done,
    /// The die that the page is on failed to give it.
    ReadFailed,
    /// The die that the page was to go to failed to take it.
    WriteFailed,
}

// Reads a page of a copy, if it is to be tried; else the answer is `DieFault`, and nothing is done.
fn try_read<D: Die>(copy: &mut D, tried: bool, page: u32, into: &mut Page) -> Result<(), DieFault>
    requires { page < (D.seen copy.old).size }
    ensures { Tries tried (D.seen copy.old) page (is_ok result) into.old into.new (D.seen copy.new) }
{
    if tried {
        copy.read(page, into)
    } else {
        Err(DieFault)
    }
}

/// Reads a page from the copies that are fresh there, the first before the second.
pub fn read_fresh<A: Die, B: Die>(
    first: &mut A,
    second: &mut B,
    fresh: Fresh,
    page: u32,
    into: &mut Page,
) -> Result<(), DieFault>
    requires on_first { page < (A.seen first.old).size }
    requires on_second { page < (B.seen second.old).size }
    ensures { ReadsFresh fresh (A.seen first.old) (B.seen second.old) page (is_ok result) into.old into.new (A.seen first.new) (B.seen second.new) }
{
    match try_read(first, fresh.is_on_first(), page, into) {
        Ok(()) => Ok(()),
        Err(DieFault) => try_read(second, fresh.is_on_second(), page, into),
    }
}

/// Counts a fault where a call has failed, and answers as the call did.
pub fn count_fault(outcome: Result<(), DieFault>, faults: &mut u64) -> Result<(), DieFault>
    requires { faults.old < 2 ^ 64 - 1 }
    ensures answer { is_ok result ≡ is_ok outcome }
    ensures count { faults.new ≡ counted (is_ok outcome) faults.old }
{
    if outcome.is_err() {
        *faults += 1;
    }
    outcome
}

/// The answer of a write that these copies took, the first and the second.
pub fn any_took(first: bool, second: bool) -> Result<(), DieFault>
    ensures { is_ok result ≡ (first || second) }
{
    if first || second {
        Ok(())
    } else {
        Err(DieFault)
    }
}

/// Reads a page from one die and writes it to the other.
pub fn copy_page<S: Die, T: Die>(
    source: &mut S,
    target: &mut T,
    page: u32,
    buffer: &mut Page,
) -> Copied
    requires on_source { page < (S.seen source.old).size }
    requires on_target { page < (T.seen target.old).size }
    ensures { Copies result (S.seen source.old) (T.seen target.old) page buffer.old buffer.new (S.seen source.new) (T.seen target.new) }
{
    if source.read(page, buffer).is_err() {
        return Copied::ReadFailed;
    }
    match target.write(page, buffer) {
        Ok(()) => Copied::Done,
        Err(DieFault) => Copied::WriteFailed,
    }
}
