//! The turn in which a `sync` ends.
ghost use Rattle.std.specs.Prelude.{◌≡◌, ◌≤◌, ◌<◌, ◌+◌, ◌-◌, ◌^◌, ◌∷◌, ◌++◌, [], ℕ, List, Ok, IfOk, IfErr};
ghost use Rattle.coherence.specs.Paired.{flags_at};
ghost use Rattle.turn_cell.specs.declared.book.Entry.{Entry};
ghost use Rattle.turn_cell.specs.Events.{events_of};
ghost use Rattle.turn_cell.specs.History.{entry};
ghost use Rattle.turn_cell.specs.Steps.{IsWorn};
ghost use Rattle.plain_files.specs.declared.calls.Numbered.{Numbered};
ghost use Rattle.core_state.specs.declared.actor.Actor.TheVariants.{Lane};
ghost use Rattle.core_state.specs.declared.event.Event.{Event};
ghost use Rattle.core_state.specs.declared.event.Event.TheVariants.{End};
ghost use Rattle.core_state.specs.Happens.{HoldsNone};
ghost use Rattle.core_state.specs.History.{calls_of};
ghost use Rattle.system_state.specs.Cores.{core_of};
ghost use Rattle.system_state.specs.Stands.{IsStanding, Stands};
ghost use Rattle.system_state.specs.declared.state.State.{State};
ghost use Rattle.desk_turns.specs.Passing.{ActsFor, core_seen, Turn, Went};
ghost use Rattle.page_steps.specs.Words.{StillHolds, IsNumbered, IsSmall};
ghost use Rattle.call_turns.specs.Ending.{EndsSync, EndSays, sync_reply};

use core_state::Event;
use flash_die::Die;
use page_base::Page;
use page_steps::System;
use plain_files::{Numbered, Reply, Request};
use system_ends::{Ending, end_call, jobs_held};
use system_state::{CallJob, State};
use turn_cell::{Desk, Entry, Worn};

/// The reply of a `sync`.
fn sync_reply(fault: bool) -> Reply
    ensures { result ≡ sync_reply fault }
{
    if fault { Reply::Fault } else { Reply::Done }
}

/// A `sync` ends. It has no pages, so that these stay the caller's.
fn end_sync<D: Die, J: CallJob>(
    state: &mut State<D, J>,
    lane: u32,
    request: &Request,
    fault: bool,
    pages: &mut Vec<Page>,
) -> Numbered
    requires standing { IsStanding D.seen J.suits state.old }
    requires hands { HoldsNone (core_of D.seen state.old) (Lane lane) }
    requires ends { EndsSync (core_of D.seen state.old) lane request.now fault }
    requires last { state.old.last ≤ 2 ^ 64 - 3 }
    requires versions { (b : ℕ) → b < state.old.sizes.blocks → (flags_at state.old.pair b).version ≤ 2 ^ 64 - 3 }
    ensures number { result.number ≡ state.old.last + 1 }
    ensures reply { result.reply ≡ sync_reply fault }
    ensures stands { (o : State D J) (h : List (Entry Event)) (n : ℕ) → Stands D.seen J.suits state.old o h →
        Stands D.seen J.suits state.new o (h ++ entry n (End lane request.now result.reply) ∷ []) }
{
    let jobs = jobs_held(state, lane);
    let ending = Ending {
        reply: sync_reply(fault),
        used: 0,
    };
    end_call(state, jobs, lane, request, ending, 0, pages)
}

/// A `sync` ends that has written all pages of the meta data, with `done`, or whose lane has a mark, with `fault`. `pages` are any, and none of
/// them is used. At `Worn` nothing was done, and the lane holds what it held.
pub fn turn_end_sync<D: Die, J: CallJob, K: Desk<System<D, J>>>(
    desk: &mut K,
    lane: u32,
    request: &Request,
    fault: bool,
    pages: &mut Vec<Page>,
) -> Result<Numbered, Worn>
    requires free { K.is_free desk.old }
    requires acts { ActsFor (core_of D.seen) (K.opening desk.old) (K.view desk.old) (Lane lane) }
    requires hands { HoldsNone (core_seen (core_of D.seen) (K.opening desk.old) (K.view desk.old)) (Lane lane) }
    requires ends { EndsSync (core_seen (core_of D.seen) (K.opening desk.old) (K.view desk.old)) lane request.now fault }
    requires small { IsSmall (K.opening desk.old).value }
    ensures free { K.is_free desk.new }
    ensures worn { IfErr result (λ x. IsWorn x.count (K.view desk.new)) }
    ensures turn { (K.table desk.new ≡ K.table desk.old) × (K.opening desk.new ≡ K.opening desk.old) }
    ensures went { IfErr result (λ _. Went (K.view desk.old) (K.view desk.new) []) }
    ensures kept { IfErr result (λ _. StillHolds (core_of D.seen) (K.opening desk.old) (K.view desk.old) (K.view desk.new) (Lane lane)) }
    ensures did { IfOk result (λ n. Turn (core_of D.seen) (K.opening desk.old) (K.view desk.old) (K.view desk.new) (EndSays lane request.now fault n)) }
    ensures numbered { (n : Numbered) → result ≡ Ok n → IsNumbered (K.opening desk.old).value.last (calls_of (events_of (K.view desk.new).seen)) n.number (record { lane = lane; call = request.now.call; reply = n.reply }) }
{
    let mut system = desk.take()?;
    let answer = end_sync(&mut system.state, lane, request, fault, pages);
    desk.give(system);
    Ok(answer)
}
