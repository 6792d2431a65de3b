//! The end of a call, whatever it has done.
ghost use Rattle.std.specs.Prelude.{◌≡◌, ◌≤◌, ◌<◌, ◌+◌, ◌-◌, ◌^◌, ◌∷◌, ◌++◌, [], ℕ, List, length, get_or, set, Some, None, true, false};
ghost use Rattle.coherence.specs.Paired.{flags_at};
ghost use Rattle.turn_cell.specs.declared.book.Entry.{Entry};
ghost use Rattle.turn_cell.specs.History.{entry};
ghost use Rattle.core_state.specs.declared.actor.Actor.TheVariants.{Lane};
ghost use Rattle.core_state.specs.declared.event.Event.{Event};
ghost use Rattle.core_state.specs.declared.event.Event.TheVariants.{End};
ghost use Rattle.core_state.specs.PlainOf.{has_stored};
ghost use Rattle.core_state.specs.PageEvents.{flight_at};
ghost use Rattle.core_state.specs.EndEvent.{MayEnd, has_changed};
ghost use Rattle.core_state.specs.Happens.{HoldsNone};
ghost use Rattle.core_ends.specs.Stores.{StoresNothing};
ghost use Rattle.system_state.specs.Cores.{core_of, lanes_of};
ghost use Rattle.system_state.specs.Made.{Made};
ghost use Rattle.system_state.specs.Stands.{IsStanding, Stands};
ghost use Rattle.system_state.specs.declared.state.State.{State};
ghost use Rattle.system_blocks.specs.Spans.{page_in};
ghost use Rattle.system_ends.specs.Landed.{Stores, HasUsed, reply_at, exclusive_row, stored_row};

use crate::landing::Ending;
use crate::stores::{end_returning, end_storing};
use flash_die::Die;
use page_base::Page;
use plain_files::{Numbered, Reply, Request};
use range_locks::Mode;
use std::snapshot::Snapshot;
use system_state::{Call, CallJob, Lane as LaneRow, State};
use turn_cell::Entry;

/// Whether a reply says that bytes were stored.
fn has_stored(reply: &Reply) -> bool
    ensures { result ≡ has_stored reply.now }
{
    matches!(reply, Reply::Done | Reply::At(_) | Reply::Val(_))
}

/// Whether a lane's call has its range alone.
fn is_exclusive(calls: &[Option<Call>], lane: u32) -> bool
    requires { lane < length calls.now }
    ensures { result ≡ exclusive_row (get_or calls.now lane None) }
{
    match &calls[lane as usize] {
        None => false,
        Some(call) => matches!(call.claim.reach.mode, Mode::Exclusive),
    }
}

/// Whether a lane's call has stored something: it has no mark, its range is its own, and its reply says so.
fn has_changed(lanes: &[LaneRow], calls: &[Option<Call>], lane: u32, reply: &Reply) -> bool
    requires lanes { lane < length lanes.now }
    requires calls { lane < length calls.now }
    ensures { result ≡ stored_row (lanes_of lanes.now lane).mark (exclusive_row (get_or calls.now lane None)) (has_stored reply.now) }
{
    if lanes[lane as usize].mark {
        return false;
    }
    if !is_exclusive(calls, lane) {
        return false;
    }
    has_stored(reply)
}

/// A call ends. Where it stored, its file has this length now and these pages are those of its span; else the lent ones among these pages go
/// back. The caller gets other pages. The call is held, or reported and its job was taken out of these jobs.
pub fn end_call<D: Die, J: CallJob>(
    state: &mut State<D, J>,
    jobs: Snapshot<Vec<Option<J>>>,
    lane: u32,
    request: &Request,
    ending: Ending,
    len: u32,
    pages: &mut Vec<Page>,
) -> Numbered
    requires standing { IsStanding D.seen J.suits (record state.old { jobs = jobs.value }) }
    requires out { state.old.jobs.items ≡ set jobs.value.items lane None }
    requires hands { HoldsNone (core_of D.seen state.old) (Lane lane) }
    requires may { MayEnd (core_of D.seen state.old) lane request.now ending.reply }
    requires stores { ((core_of D.seen state.old).lanes lane).mark ≡ false → has_changed (flight_at (core_of D.seen state.old).calls lane) ending.reply ≡ true → Stores (core_of D.seen state.old) lane ending.reply len pages.old.items }
    requires many { (flight_at (core_of D.seen state.old).calls lane).claim.reach.pages ≤ length pages.old.items }
    requires pages { StoresNothing (core_of D.seen state.old) lane ending.reply →
        (i : ℕ) (p : List ℕ) → i < (flight_at (core_of D.seen state.old).calls lane).claim.reach.pages → (flight_at (core_of D.seen state.old).calls lane).gathered i ≡ Some p → page_in pages.old.items i ≡ p }
    requires used { HasUsed (core_of D.seen state.old) lane ending.used }
    requires last { state.old.last ≤ 2 ^ 64 - 3 }
    requires versions { (b : ℕ) → b < state.old.sizes.blocks → (flags_at state.old.pair b).version ≤ 2 ^ 64 - 3 }
    ensures number { result.number ≡ state.old.last + 1 }
    ensures reply { result.reply ≡ reply_at (core_of D.seen state.old) lane request.now }
    ensures made { Made D.seen J.suits (record state.old { jobs = jobs.value }) (End lane request.now result.reply) state.new }
    ensures stands { (o : State D J) (h : List (Entry Event)) (n : ℕ) → Stands D.seen J.suits (record state.old { jobs = jobs.value }) o h →
        Stands D.seen J.suits state.new o (h ++ entry n (End lane request.now result.reply) ∷ []) }
{
    if has_changed(&state.lanes, &state.calls, lane, &ending.reply) {
        return end_storing(state, jobs, lane, request, ending, len, pages);
    }
    end_returning(state, jobs, lane, request, ending, pages)
}
