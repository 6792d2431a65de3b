//! A loop over a desk of either kind.
ghost use Rattle.std.specs.Prelude.{◌≡◌, ◌≤◌, ◌<◌, ◌+◌, true, false, IfOk, IfErr};
ghost use Rattle.turn_cell.specs.Desks.{IsFreeAlone, view_alone, opening_alone, table_alone};
ghost use Rattle.turn_cell.specs.History.{MayMake};
ghost use Rattle.turn_cell.specs.Steps.{IsWorn};
ghost use Rattle.turn_example.specs.Counting.{ActsAs, adding, start_of, total_at};
ghost use Rattle.turn_example.specs.Raising.{MadeOnes, Raises, SamePass};

use crate::counter::Counter;
use std::sync::Wait;
use turn_cell::{Alone, Desk, Seated, Worn};

/// Adds 1 unless the total is `least` or more, and tells whether it was.
pub fn raise_once<K: Desk<Counter>>(desk: &mut K, actor: u64, least: u64) -> Result<bool, Worn>
    requires free { K.is_free desk.old }
    requires may { MayMake ActsAs (K.view desk.old).alone (K.opening desk.old) (K.view desk.old).number (adding actor 1) }
    ensures free { K.is_free desk.new }
    ensures turn { (K.table desk.new ≡ K.table desk.old) × (K.opening desk.new ≡ K.opening desk.old) }
    ensures pass { SamePass (K.view desk.old) (K.view desk.new) }
    ensures worn { IfErr result (λ w. IsWorn w.count (K.view desk.new)) }
    ensures reached { IfOk result (λ t. t ≡ true → least ≤ total_at (K.opening desk.old) (K.view desk.new).seen) }
    ensures made { IfOk result (λ _. MadeOnes actor (K.view desk.old) (K.view desk.new)) }
    ensures nearer { IfOk result (λ t. t ≡ false → (K.view desk.old).alone ≡ true → (total_at (K.opening desk.old) (K.view desk.old).seen < least) × (total_at (K.opening desk.old) (K.view desk.new).seen ≡ total_at (K.opening desk.old) (K.view desk.old).seen + 1)) }
{
    let mut counter = desk.take()?;
    if counter.total >= least {
        desk.give(counter);
        return Ok(true);
    }
    counter.add(actor, 1);
    desk.give(counter);
    Ok(false)
}

/// Raises the total to `least` by the only pass. The distance falls with each turn, so it ends.
pub fn raise_alone(alone: &mut Alone<Counter>, actor: u64, least: u64) -> Result<(), Worn>
    requires free { IsFreeAlone start_of alone.old }
    ensures free { IsFreeAlone start_of alone.new }
    ensures turn { (table_alone alone.new ≡ table_alone alone.old) × (opening_alone start_of alone.new ≡ opening_alone start_of alone.old) }
    ensures pass { SamePass (view_alone alone.old) (view_alone alone.new) }
    ensures worn { IfErr result (λ w. IsWorn w.count (view_alone alone.new)) }
    ensures raised { IfOk result (λ _. Raises (opening_alone start_of alone.old) actor least (view_alone alone.old) (view_alone alone.new)) }
{
    loop {
        if raise_once(alone, actor, least)? {
            return Ok(());
        }
    }
}

/// The same by a pass among others, which may wait.
pub fn raise_seated<'a, R: Wait>(
    desk: &mut Seated<'a, Counter, R>,
    actor: u64,
    least: u64,
) -> Result<(), Worn>
    requires free { ⟦<Seated<'a, Counter, R> as Desk<Counter>>⟧.is_free desk.old }
    requires may { MayMake ActsAs (⟦<Seated<'a, Counter, R> as Desk<Counter>>⟧.view desk.old).alone (⟦<Seated<'a, Counter, R> as Desk<Counter>>⟧.opening desk.old) (⟦<Seated<'a, Counter, R> as Desk<Counter>>⟧.view desk.old).number (adding actor 1) }
    ensures free { ⟦<Seated<'a, Counter, R> as Desk<Counter>>⟧.is_free desk.new }
    ensures turn { (⟦<Seated<'a, Counter, R> as Desk<Counter>>⟧.table desk.new ≡ ⟦<Seated<'a, Counter, R> as Desk<Counter>>⟧.table desk.old) × (⟦<Seated<'a, Counter, R> as Desk<Counter>>⟧.opening desk.new ≡ ⟦<Seated<'a, Counter, R> as Desk<Counter>>⟧.opening desk.old) }
    ensures pass { SamePass (⟦<Seated<'a, Counter, R> as Desk<Counter>>⟧.view desk.old) (⟦<Seated<'a, Counter, R> as Desk<Counter>>⟧.view desk.new) }
    ensures worn { IfErr result (λ w. IsWorn w.count (⟦<Seated<'a, Counter, R> as Desk<Counter>>⟧.view desk.new)) }
    ensures raised { IfOk result (λ _. Raises (⟦<Seated<'a, Counter, R> as Desk<Counter>>⟧.opening desk.old) actor least (⟦<Seated<'a, Counter, R> as Desk<Counter>>⟧.view desk.old) (⟦<Seated<'a, Counter, R> as Desk<Counter>>⟧.view desk.new)) }
{
    let rt = desk.runtime();
    for _ in rt.forever() {
        if raise_once(desk, actor, least)? {
            return Ok(());
        }
        desk.pause();
    }
    unreachable!()
}
