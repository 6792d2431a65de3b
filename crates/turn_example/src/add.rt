//! Work over a desk.
ghost use Rattle.std.specs.Prelude.{◌≡◌, ◌++◌, ◌∷◌, [], false, IfOk, IfErr, List};
ghost use Rattle.turn_cell.specs.History.{entry, MayMake};
ghost use Rattle.turn_cell.specs.Steps.{IsWorn};
ghost use Rattle.turn_cell.specs.Passes.{view, opening_of, IsPassOf, IsFree};
ghost use Rattle.turn_cell.specs.declared.book.Entry.{Entry};
ghost use Rattle.turn_example.specs.Counting.{ActsAs, AddsOne, adding, start_of, total_at};
ghost use Rattle.turn_example.specs.declared.counter.Add.{Add};

use crate::counter::Counter;
use std::sync::Wait;
use turn_cell::{Desk, Pass, Seated, Turn, Worn};

/// Adds once, and answers the total after it. `Worn` exactly where the turn is.
pub fn add_once<K: Desk<Counter>>(desk: &mut K, actor: u64, amount: u64) -> Result<u64, Worn>
    requires free { K.is_free desk.old }
    requires may { MayMake ActsAs (K.view desk.old).alone (K.opening desk.old) (K.view desk.old).number (adding actor amount) }
    ensures free { K.is_free desk.new }
    ensures turn { (K.table desk.new ≡ K.table desk.old) × (K.opening desk.new ≡ K.opening desk.old) }
    ensures first { (K.view desk.new).first ≡ (K.view desk.old).first }
    ensures made { IfOk result (λ _. AddsOne (K.view desk.old) (K.view desk.new) (adding actor amount)) }
    ensures worn { IfErr result (λ w. IsWorn w.count (K.view desk.new)) }
    ensures total { IfOk result (λ t. t ≡ total_at (K.opening desk.old) (K.view desk.new).seen) }
{
    let mut counter = desk.take()?;
    counter.add(actor, amount);
    let total = counter.total;
    desk.give(counter);
    Ok(total)
}

/// The same, by a pass among others.
pub fn add_seated<R: Wait>(
    rt: &R,
    turn: &Turn<Counter>,
    pass: Pass<Counter>,
    actor: u64,
    amount: u64,
) -> (Pass<Counter>, Result<u64, Worn>)
    requires pass { IsPassOf start_of turn.now pass × IsFree pass × ((view pass).alone ≡ false) }
    requires may { (view pass).number ≡ actor }
    ensures pass { IsPassOf start_of turn.entry.now result.0 × IsFree result.0 }
    ensures first { (view result.0).first ≡ (view pass).first }
    ensures made { IfOk result.1 (λ _. AddsOne (view pass) (view result.0) (adding actor amount)) }
    ensures worn { IfErr result.1 (λ w. IsWorn w.count (view result.0)) }
    ensures total { IfOk result.1 (λ t. t ≡ total_at (opening_of start_of turn.entry.now) (view result.0).seen) }
{
    let mut desk = Seated::new(rt, turn, pass);
    let answer = add_once(&mut desk, actor, amount);
    (desk.into_pass(), answer)
}
