//! Places by file and page: searches in them, and edits that keep their order.
ghost use Rattle.std.specs.Prelude.{◌≡◌, ◌≤◌, ◌+◌, ◌-◌, ◌==◌, ◌&&◌, ◌++◌, ◌<◌, ◌∷◌, ◌^◌, List, ℕ, length, take, drop, slice_get, IsTrue};
ghost use Rattle.std.specs.Vec.{vec_capacity};
ghost use Rattle.extent_map.specs.Places.{AreInOrder, runs};
ghost use Rattle.extent_map.specs.Owners.{is_before, before_of, end_of, joins};
ghost use Rattle.extent_map.specs.declared.places.Place.{Place};

use crate::places::{Extent, Place};

fn is_before(file: u32, page: u32, place: &Place) -> bool
    ensures { result ≡ is_before file page place.now }
{
    place.file < file || (place.file == file && place.page < page)
}

/// Whether a place is that of a page of a file.
pub fn is_at(file: u32, page: u32, place: &Place) -> bool
    ensures { result ≡ (place.now.file == file && place.now.page == page) }
{
    place.file == file && place.page == page
}

/// How many places come before a page of a file.
pub fn before(placed: &[Place], file: u32, page: u32) -> usize
    requires { AreInOrder placed.now }
    ensures within { result ≤ length placed.now }
    ensures value { result ≡ before_of file page placed.now }
{
    let mut low = 0;
    let mut high = placed.len();
    while low < high {
        let middle = low + (high - low) / 2;
        if is_before(file, page, &placed[middle]) {
            low = middle + 1;
        } else {
            high = middle;
        }
    }
    low
}

/// How many places come before those of later files.
pub fn end_of(placed: &[Place], file: u32) -> usize
    requires { AreInOrder placed.now }
    ensures within { result ≤ length placed.now }
    ensures value { result ≡ end_of file placed.now }
{
    let mut low = 0;
    let mut high = placed.len();
    while low < high {
        let middle = low + (high - low) / 2;
        if placed[middle].file <= file {
            low = middle + 1;
        } else {
            high = middle;
        }
    }
    low
}

// Moves the last n places to a place before.
fn turn(placed: &mut [Place], at: usize, n: usize)
    requires { at + n ≤ length placed.old }
    ensures len { length placed.new ≡ length placed.old }
    ensures turned { (old new : List Place) → placed.old ≡ old ++ new → n ≡ length new → at ≤ length old → placed.new ≡ take at old ++ new ++ drop at old }
{
    placed[at..].rotate_right(n);
}

/// The same in a vector.
pub fn turn_in(placed: &mut Vec<Place>, at: usize, n: usize)
    requires { at + n ≤ length placed.old.items }
    ensures turned { (old new : List Place) → placed.old.items ≡ old ++ new → n ≡ length new → at ≤ length old → placed.new.items ≡ take at old ++ new ++ drop at old }
    ensures capacity { vec_capacity placed.new ≡ vec_capacity placed.old }
{
    turn(placed.as_mut_slice(), at, n);
}

// Moves n places from a place on to the end.
fn turn_out(placed: &mut [Place], at: usize, n: usize)
    requires { at + n ≤ length placed.old }
    ensures len { length placed.new ≡ length placed.old }
    ensures turned { take (length placed.old - n) placed.new ≡ take at placed.old ++ drop (at + n) placed.old }
{
    placed[at..].rotate_left(n);
}

/// Takes the places from one on and up to another out.
pub fn cut_out(placed: &mut Vec<Place>, from: usize, to: usize)
    requires order { from ≤ to }
    requires within { to ≤ length placed.old.items }
    ensures items { placed.new.items ≡ take from placed.old.items ++ drop to placed.old.items }
    ensures capacity { vec_capacity placed.new ≡ vec_capacity placed.old }
{
    let len = placed.len();
    let n = to - from;
    turn_out(placed.as_mut_slice(), from, n);
    placed.truncate(len - n);
}

// Whether the place behind so many goes on with the run that begins with another.
fn joins(placed: &[Place], at: usize, first: Place, count: u32) -> bool
    requires { at + count ≤ length placed.now }
    ensures value { result ≡ joins first count (slice_get placed.now (at + count)) }
    ensures within { IsTrue result → at + count < length placed.now }
{
    match placed.get(at + count as usize) {
        None => false,
        Some(next) => {
            next.file == first.file
                && next.page as u64 == first.page as u64 + count as u64
                && next.block as u64 == first.block as u64 + count as u64
        }
    }
}

/// The longest run that begins with a place.
pub fn run_from(placed: &[Place], at: usize) -> Extent
    requires within { at < length placed.now }
    requires small { length placed.now < 2 ^ 32 }
    ensures some { 1 ≤ result.count }
    ensures within { at + result.count ≤ length placed.now }
    ensures run { runs (drop at placed.now) ≡ result ∷ runs (drop (at + result.count) placed.now) }
{
    let first = placed[at];
    let mut count: u32 = 1;
    while joins(placed, at, first, count) {
        count += 1;
    }
    Extent {
        file: first.file,
        page: first.page,
        block: first.block,
        count,
    }
}
