//! The turn in which the next write of the last sync goes out.
ghost use Rattle.std.specs.Prelude.{◌≡◌, ℕ, ◌+◌, [], Ok, IfOk, IfErr};
ghost use Rattle.turn_cell.specs.Steps.{IsWorn};
ghost use Rattle.core_state.specs.declared.actor.Actor.TheVariants.{Closer};
ghost use Rattle.core_state.specs.State.{ToFlush, ToMeta};
ghost use Rattle.core_state.specs.Coherent.{Coherent};
ghost use Rattle.system_state.specs.Cores.{core_of};
ghost use Rattle.system_state.specs.Errands.{IsFresh};
ghost use Rattle.system_state.specs.declared.errand.Errand.{Errand};
ghost use Rattle.desk_turns.specs.Passing.{ActsFor, core_seen, Turn, Went};
ghost use Rattle.page_steps.specs.Flushing.{IsInHand};
ghost use Rattle.core_closing.specs.Kept.{MaySettle};
ghost use Rattle.settling.specs.Next.{NextSays};
ghost use Rattle.settling.specs.declared.next.Next.TheVariants.{Block, Meta};

use crate::next::{Next, try_next};
use flash_die::Die;
use page_base::Page;
use page_steps::System;
use system_state::CallJob;
use turn_cell::{Desk, Worn};

/// The die of the next write of the last sync goes out, in one turn. At `Worn` nothing was done.
pub fn turn_next<D: Die, J: CallJob, K: Desk<System<D, J>>>(
    desk: &mut K,
    into: &mut Page,
) -> Result<Next<D>, Worn>
    requires free { K.is_free desk.old }
    requires acts { ActsFor (core_of D.seen) (K.opening desk.old) (K.view desk.old) Closer }
    requires may { MaySettle (core_seen (core_of D.seen) (K.opening desk.old) (K.view desk.old)) }
    ensures free { K.is_free desk.new }
    ensures worn { IfErr result (λ x. IsWorn x.count (K.view desk.new)) }
    ensures turn { (K.table desk.new ≡ K.table desk.old) × (K.opening desk.new ≡ K.opening desk.old) }
    ensures went { IfErr result (λ _. Went (K.view desk.old) (K.view desk.new) []) }
    ensures coherent { IfOk result (λ _. Coherent (core_of D.seen (K.opening desk.old).value)) }
    ensures did { IfOk result (λ x. Turn (core_of D.seen) (K.opening desk.old) (K.view desk.old) (K.view desk.new) (NextSays into.new x)) }
    ensures block { (e : Errand D) → result ≡ Ok (Block e) → IsFresh D.seen e × ((version : ℕ) × IsInHand D.seen (K.opening desk.old) (K.view desk.new).seen Closer (ToFlush e.subject version into.new) ((K.opening desk.old).value.sizes.meta + e.subject) e) }
    ensures page { (e : Errand D) → result ≡ Ok (Meta e) → IsFresh D.seen e × IsInHand D.seen (K.opening desk.old) (K.view desk.new).seen Closer (ToMeta e.subject into.new) e.subject e }
{
    let mut system = desk.take()?;
    let next = try_next(&mut system.state, into);
    desk.give(system);
    Ok(next)
}
