//! What the words of the contracts mean: they hold for all ranges, and the functions here do nothing.
ghost use Rattle.std.specs.Prelude.{◌≡◌, ◌↔◌, ℕ, Option, Some, true};
ghost use Rattle.range_locks.specs.declared.range.Range.{Range};
ghost use Rattle.range_locks.specs.Held.{Ranged, Conflicts, IsFirst, hits, is_on, least_conflict, least_on};

/// A held range is hit by another exactly where the two are of one file, have a page in common, and one of them is
/// exclusive.
pub fn a_hit_is_a_conflict()
    ensures { (range held : Range) → (hits range (Some held) ≡ true) ↔ Conflicts range held }
{}

/// The call that a conflict names is the least: its range is hit, and no lower call's is. None is named exactly where
/// none is hit.
pub fn least_conflict_is_the_first()
    ensures { (range : Range) (ranges : Ranged) (call : Option ℕ) → (least_conflict range ranges ≡ call) ↔ IsFirst (hits range) ranges.held call }
{}

/// The call that is found on a file is the least that holds it, with an empty range too.
pub fn least_on_is_the_first()
    ensures { (file : ℕ) (ranges : Ranged) (call : Option ℕ) → (least_on file ranges ≡ call) ↔ IsFirst (is_on file) ranges.held call }
{}
