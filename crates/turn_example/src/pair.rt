//! Two threads, each with a pass.
ghost use Rattle.std.specs.Prelude.{◌≡◌, ◌∷◌, [], false, IfOk, IfErr, map};
ghost use Rattle.turn_cell.specs.History.{entry};
ghost use Rattle.turn_cell.specs.Passes.{view, IsPassOf, IsFree};
ghost use Rattle.turn_cell.specs.Rule.{numbers_of};
ghost use Rattle.turn_cell.specs.Teams.{IsWhole};
ghost use Rattle.turn_example.specs.Ends.{IsSpent, HadTo};
ghost use Rattle.turn_example.specs.Counting.{AddsOne, Stands, adding, start_of};

use crate::add::add_seated;
use crate::counter::Counter;
use crate::ends::GiveUp;
use std::alloc::Global;
use std::sync::Wait;
use std::thread::{Threads, join};
use turn_cell::{Closed, Pass, Turn, Worn};

/// Two threads add once each. In the end there is one history, of which these are all entries. It gives up only where
/// memory ran out, or where a pass found the turn worn, which is handed out then.
pub fn two<R: Threads + Wait + Sync>(
    rt: &R,
    alloc: Global,
    counter: Counter,
    a: u64,
    b: u64,
) -> Result<Closed<Counter>, GiveUp>
    requires { Stands counter (start_of counter) [] }
    ensures gave_up { IfErr result (HadTo (start_of counter)) }
    ensures book { IfOk result (λ c. Stands c.book (start_of counter) (view c.front.pass.value).seen) }
    ensures whole { IfOk result (λ c. IsWhole (view c.front.pass.value)) }
    ensures numbers { IfOk result (λ c. numbers_of (view c.front.pass.value).joined ≡ 1 ∷ 2 ∷ []) }
    ensures entries { IfOk result (λ c. (map (λ x. x.entries) (view c.front.pass.value).joined ≡ (entry 1 (adding 1 a) ∷ []) ∷ (entry 2 (adding 2 b) ∷ []) ∷ []) × ((view c.front.pass.value).own ≡ [])) }
{
    let Ok((turn, mut root)) = Turn::new(alloc, counter, 0) else {
        return Err(GiveUp::NoMemory);
    };
    let first = turn.split(&mut root);
    let second = turn.split(&mut root);
    let shared = &turn;
    let ((first, x), (second, y)) = join(
        rt,
        || -> (Pass<Counter>, Result<u64, Worn>)
            requires { (IsPassOf start_of shared.now first × IsFree first × ((view first).alone ≡ false)) × ((view first).number ≡ 1) × ((view first).first ≡ 0) }
            ensures pass { IsPassOf start_of shared.entry.now result.0 × IsFree result.0 }
            ensures first { (view result.0).first ≡ 0 }
            ensures worn { IfErr result.1 (λ _. IsSpent result.0) }
            ensures made { IfOk result.1 (λ t. AddsOne (view first) (view result.0) (adding 1 a)) }
        { add_seated(rt, shared, first, 1, a) },
        || -> (Pass<Counter>, Result<u64, Worn>)
            requires { (IsPassOf start_of shared.now second × IsFree second × ((view second).alone ≡ false)) × ((view second).number ≡ 2) × ((view second).first ≡ 0) }
            ensures pass { IsPassOf start_of shared.entry.now result.0 × IsFree result.0 }
            ensures first { (view result.0).first ≡ 0 }
            ensures worn { IfErr result.1 (λ _. IsSpent result.0) }
            ensures made { IfOk result.1 (λ t. AddsOne (view second) (view result.0) (adding 2 b)) }
        { add_seated(rt, shared, second, 2, b) },
    );
    if x.is_err() {
        return Err(GiveUp::Worn(first));
    }
    if y.is_err() {
        return Err(GiveUp::Worn(second));
    }
    turn.join(&mut root, first);
    turn.join(&mut root, second);
    Ok(turn.close(root))
}
