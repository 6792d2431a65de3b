//! Turns that write a page of the meta data: its die goes out, and comes home.
ghost use Rattle.std.specs.Prelude.{◌≡◌, ℕ, ◌∷◌, ◌<◌, ◌≤◌, ◌^◌, [], Bool, Ok, IfOk, IfErr, is_some, ◌==◌, ◌&&◌};
ghost use Rattle.turn_cell.specs.Steps.{IsWorn};
ghost use Rattle.page_base.specs.Drive.{meta_pages};
ghost use Rattle.index_lists.specs.Words.{first};
ghost use Rattle.core_state.specs.declared.actor.Actor.TheVariants.{Closer};
ghost use Rattle.core_state.specs.State.{ToMeta};
ghost use Rattle.core_state.specs.DieEvents.{MayWriteMeta};
ghost use Rattle.core_state.specs.Happens.{HoldsNone, IsClosing};
ghost use Rattle.system_state.specs.Cores.{core_of};
ghost use Rattle.system_state.specs.Stands.{IsStanding};
ghost use Rattle.system_state.specs.Errands.{IsFresh};
ghost use Rattle.system_state.specs.declared.errand.Errand.{Errand};
ghost use Rattle.system_metas.specs.Coming.{meta_in_event};
ghost use Rattle.desk_turns.specs.Passing.{ActsFor, IsItsOwn, core_seen, Turn, Went};
ghost use Rattle.flushes.specs.Flushing.{IsInHand};
ghost use Rattle.event_turns.specs.declared.metas.MetaOut.TheVariants.{Sent};
ghost use Rattle.event_turns.specs.Words.{StillHolds};
ghost use Rattle.event_turns.specs.MetaTurns.{MayStore, MetaDid, MetaSays, IsMetaWritten, told};

use coherence::Pair;
use core_state::Actor;
use flash_die::Die;
use flushes::System;
use page_base::Page;
use system_metas::{meta_in, try_meta_out};
use system_state::{CallJob, Errand, NotYet, State};
use turn_cell::{Desk, Worn};

/// What a turn for a page of the meta data answers.
#[derive(Drop)]
pub enum MetaOut<D> {
    /// The page's die went out.
    Sent { errand: Errand<D> },
    /// It is out already.
    Busy { die: u32 },
    /// It is the first page, and a block is unclean: that one is to be flushed first.
    Unclean,
}

fn told<D>(answer: Result<Errand<D>, NotYet>) -> MetaOut<D>
    ensures { result ≡ told answer }
{
    match answer {
        Ok(errand) => MetaOut::Sent { errand },
        Err(NotYet::DieBusy { die }) => MetaOut::Busy { die },
        Err(_) => MetaOut::Unclean,
    }
}

/// Whether it is the first page, and a block is unclean.
fn must_wait(pair: &Pair, i: u32) -> bool
    ensures { result ≡ (i == 0 && is_some (first pair.now.unclean)) }
{
    i == 0 && pair.first_unclean().is_some()
}

/// The die of a page of the meta data goes out, with the bytes of the page, which are encoded now, unless it is the first page and a block
/// is unclean.
fn try_meta<D: Die, J: CallJob>(
    state: &mut State<D, J>,
    actor: Actor,
    i: u32,
    into: &mut Page,
) -> MetaOut<D>
    requires standing { IsStanding D.seen J.suits state.old }
    requires hands { HoldsNone (core_of D.seen state.old) actor }
    requires closing { actor ≡ Closer → IsClosing (core_of D.seen state.old) }
    requires writes { MayWriteMeta (core_of D.seen state.old) actor i }
    requires below { i < meta_pages state.old.sizes.blocks }
    ensures { MetaDid D.seen J.suits state.old actor i into.new result state.new }
{
    if must_wait(&state.pair, i) {
        return MetaOut::Unclean;
    }
    let answer = try_meta_out(state, actor, i, into);
    told(answer)
}

/// The die of page `i` of the meta data goes out, with the bytes of the page, which are encoded in this turn. The actor is a lane with a `sync`
/// in flight, or the closer, and the page is the next one that it writes. `Unclean`: others have made a block unclean before the first page
/// went out. At `Worn` nothing was done, and the actor holds what it held.
pub fn turn_meta_out<D: Die, J: CallJob, K: Desk<System<D, J>>>(
    desk: &mut K,
    actor: Actor,
    i: u32,
    into: &mut Page,
) -> Result<MetaOut<D>, Worn>
    requires free { K.is_free desk.old }
    requires acts { ActsFor (core_of D.seen) (K.opening desk.old) (K.view desk.old) actor }
    requires may { MayStore (core_seen (core_of D.seen) (K.opening desk.old) (K.view desk.old)) actor i }
    requires below { i < meta_pages (K.opening desk.old).value.sizes.blocks }
    ensures free { K.is_free desk.new }
    ensures worn { IfErr result (λ x. IsWorn x.count (K.view desk.new)) }
    ensures turn { (K.table desk.new ≡ K.table desk.old) × (K.opening desk.new ≡ K.opening desk.old) }
    ensures went { IfErr result (λ _. Went (K.view desk.old) (K.view desk.new) []) }
    ensures kept { IfErr result (λ _. StillHolds (core_of D.seen) (K.opening desk.old) (K.view desk.old) (K.view desk.new) actor) }
    ensures did { IfOk result (λ x. Turn (core_of D.seen) (K.opening desk.old) (K.view desk.old) (K.view desk.new) (MetaSays actor i into.new x)) }
    ensures out { (e : Errand D) → result ≡ Ok (Sent e) → IsFresh D.seen e × IsInHand D.seen (K.opening desk.old) (K.view desk.new).seen actor (ToMeta e.subject into.new) e.subject e }
{
    let mut system = desk.take()?;
    let answer = try_meta(&mut system.state, actor, i, into);
    desk.give(system);
    Ok(answer)
}

/// A die that was used to write a page of the meta data comes home. At `Worn` nothing was done, and the die is still out.
pub fn turn_meta_in<D: Die, J: CallJob, K: Desk<System<D, J>>>(
    desk: &mut K,
    actor: Actor,
    errand: Errand<D>,
) -> Result<(), Worn>
    requires free { K.is_free desk.old }
    requires acts { ActsFor (core_of D.seen) (K.opening desk.old) (K.view desk.old) actor }
    requires own { IsItsOwn (core_seen (core_of D.seen) (K.opening desk.old) (K.view desk.old)) actor }
    requires closing { actor ≡ Closer → IsClosing (core_seen (core_of D.seen) (K.opening desk.old) (K.view desk.old)) }
    requires small { (K.opening desk.old).value.places.writes ≤ 2 ^ 62 }
    requires errand { (good : Bool) × IsMetaWritten D.seen (K.opening desk.old) (K.view desk.old).seen actor good errand }
    ensures free { K.is_free desk.new }
    ensures worn { IfErr result (λ x. IsWorn x.count (K.view desk.new)) }
    ensures turn { (K.table desk.new ≡ K.table desk.old) × (K.opening desk.new ≡ K.opening desk.old) }
    ensures went { IfErr result (λ _. Went (K.view desk.old) (K.view desk.new) []) }
    ensures kept { IfErr result (λ _. StillHolds (core_of D.seen) (K.opening desk.old) (K.view desk.old) (K.view desk.new) actor) }
    ensures did { IfOk result (λ _. Turn (core_of D.seen) (K.opening desk.old) (K.view desk.old) (K.view desk.new) (λ c es. es ≡ meta_in_event D.seen actor errand ∷ [])) }
{
    let mut system = desk.take()?;
    meta_in(&mut system.state, actor, errand);
    desk.give(system);
    Ok(())
}
