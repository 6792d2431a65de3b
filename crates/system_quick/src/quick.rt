//! A call that needs no page is answered at once.
ghost use Rattle.std.specs.Prelude.{◌≡◌, ◌≤◌, ◌<◌, ◌-◌, ◌+◌, ◌^◌, ◌∷◌, ◌++◌, [], ℕ, List, IfOk, IfErr, Some, None, false, true};
ghost use Rattle.coherence.specs.Paired.{flags_at};
ghost use Rattle.turn_cell.specs.declared.book.Entry.{Entry};
ghost use Rattle.turn_cell.specs.History.{entry};
ghost use Rattle.plain_files.specs.Plain.{answer};
ghost use Rattle.core_state.specs.declared.actor.Actor.TheVariants.{Lane};
ghost use Rattle.core_state.specs.declared.event.Event.{Event};
ghost use Rattle.core_state.specs.declared.event.Event.TheVariants.{Quick};
ghost use Rattle.core_state.specs.PlainOf.{plain};
ghost use Rattle.core_state.specs.LaneEvents.{IsIdle, is_quick};
ghost use Rattle.core_state.specs.Happens.{HoldsNone};
ghost use Rattle.system_state.specs.Cores.{core_of};
ghost use Rattle.system_state.specs.Made.{Made};
ghost use Rattle.system_state.specs.Stands.{IsStanding, Stands};
ghost use Rattle.system_state.specs.declared.state.State.{State};
ghost use Rattle.system_quick.specs.Replied.{Asked, IsAnswered};
ghost use Rattle.system_quick.specs.Tables.{IsDecoded};
ghost use Rattle.system_quick.specs.Waits.{in_the_way, quick_waits};

use crate::calls::{
    create_file, load_function, open_file, remove_file_of, seal_file, stat_file, unload_function,
};
use crate::functions::Loading;
use crate::holders::in_the_way;
use call_checks::early;
use flash_die::Die;
use plain_files::{Call, Numbered, Request};
use system_lanes::{awaited_still, refuse};
use system_state::{CallJob, NotYet, State};
use turn_cell::Entry;

/// The answer to a call that nothing refuses early, and that no call in flight is in the way of.
fn answer_call<D: Die, J: CallJob>(
    state: &mut State<D, J>,
    lane: u32,
    request: &Request,
    loading: &mut Loading,
) -> Numbered
    requires asked { Asked D.seen J.suits state.old lane request.now }
    requires kind { is_quick request.now.call ≡ true }
    requires way { in_the_way (core_of D.seen state.old) request.now.call ≡ None }
    requires decoded { IsDecoded request.now.call loading.old }
    requires versions { (b : ℕ) → b < state.old.sizes.blocks → (flags_at state.old.pair b).version ≤ 2 ^ 64 - 3 }
    ensures { IsAnswered D.seen J.suits state.old lane request.now result state.new }
{
    match &request.call {
        Call::Create(word) => create_file(state, lane, request, word),
        Call::OpenFile(word) => open_file(state, lane, request, word),
        Call::Stat(word) => stat_file(state, lane, request, word),
        Call::Remove(word) => remove_file_of(state, lane, request, word),
        Call::Seal(word) => seal_file(state, lane, request, word),
        Call::Load(word, bytes) => load_function(state, lane, request, word, bytes, loading),
        Call::Unload(word) => unload_function(state, lane, request, word),
        _ => unreachable!(),
    }
}

/// A call that needs no page is answered at once, with the next number. In this order: it waits for the call that it awaits (`Awaited`),
/// is refused, or waits for the least call in flight that is in its way: one that holds the file of a `remove`, or of a `seal` that changes
/// the state (`Conflict`), or that uses the function of an `unload` (`FnInUse`). Nothing has changed where it waits. `loading` is what
/// the bytes of a `load` spell; it takes no memory.
pub fn try_quick<D: Die, J: CallJob>(
    state: &mut State<D, J>,
    lane: u32,
    request: &Request,
    loading: &mut Loading,
) -> Result<Numbered, NotYet>
    requires standing { IsStanding D.seen J.suits state.old }
    requires hands { HoldsNone (core_of D.seen state.old) (Lane lane) }
    requires idle { IsIdle (core_of D.seen state.old) lane }
    requires unmarked { ((core_of D.seen state.old).lanes lane).mark ≡ false }
    requires kind { is_quick request.now.call ≡ true }
    requires decoded { IsDecoded request.now.call loading.old }
    requires last { state.old.last ≤ 2 ^ 64 - 3 }
    requires versions { (b : ℕ) → b < state.old.sizes.blocks → (flags_at state.old.pair b).version ≤ 2 ^ 64 - 3 }
    ensures clear { IfOk result (λ x. quick_waits (core_of D.seen state.old) request.now ≡ None) }
    ensures number { IfOk result (λ x. x.number ≡ state.old.last + 1) }
    ensures reply { IfOk result (λ x. x.reply ≡ (answer (plain (core_of D.seen state.old)) request.now.call).reply) }
    ensures made { IfOk result (λ x. Made D.seen J.suits state.old (Quick lane request.now x.reply) state.new) }
    ensures stands { IfOk result (λ x. (o : State D J) (h : List (Entry Event)) (n : ℕ) → Stands D.seen J.suits state.old o h →
        Stands D.seen J.suits state.new o (h ++ entry n (Quick lane request.now x.reply) ∷ [])) }
    ensures not_yet { IfErr result (λ y. quick_waits (core_of D.seen state.old) request.now ≡ Some y) }
    ensures same { IfErr result (λ y. (state.new ≡ state.old) × (loading.new ≡ loading.old)) }
{
    if let Some(y) = awaited_still(&state.lanes, request.awaits) {
        return Err(y);
    }
    if let Some(reply) = early(&state.meta.names, &state.functions, &request.call) {
        let number = refuse(state, lane, request, &reply);
        return Ok(Numbered { number, reply });
    }
    if let Some(y) = in_the_way(state, &request.call) {
        return Err(y);
    }
    Ok(answer_call(state, lane, request, loading))
}
