//! A call that nothing refuses begins at its side.
ghost use Rattle.std.specs.Prelude.{◌≡◌, ◌≤◌, ◌-◌, ◌+◌, ◌^◌, ◌∷◌, ◌++◌, ◌⊎◌, [], ℕ, List, IfOk, IfErr, Some, None, true};
ghost use Rattle.turn_cell.specs.declared.book.Entry.{Entry};
ghost use Rattle.turn_cell.specs.History.{entry};
ghost use Rattle.plain_files.specs.Plain.{early};
ghost use Rattle.core_state.specs.declared.actor.Actor.TheVariants.{Lane};
ghost use Rattle.core_state.specs.declared.event.Event.{Event};
ghost use Rattle.core_state.specs.declared.event.Event.TheVariants.{Begin};
ghost use Rattle.core_state.specs.Reach.{is_data, is_sync};
ghost use Rattle.core_state.specs.PlainOf.{plain};
ghost use Rattle.core_state.specs.LaneEvents.{IsReady};
ghost use Rattle.core_state.specs.Happens.{HoldsNone};
ghost use Rattle.system_state.specs.Cores.{core_of, claim_of};
ghost use Rattle.system_state.specs.Made.{Made};
ghost use Rattle.system_state.specs.Stands.{IsStanding, Stands};
ghost use Rattle.system_state.specs.declared.state.State.{State};
ghost use Rattle.system_begin.specs.Begun.{begin_waits, side_of, claim_at_side, Asks};

use crate::beginning::begin;
use crate::sides::{is_data, is_lambda, side_for};
use call_checks::claim_for;
use dispatcher::Side;
use flash_die::Die;
use plain_files::Request;
use system_state::{CallJob, Claim, NotYet, State};
use turn_cell::Entry;

/// What a request that nothing refuses fixes when it begins: its side, its lock and its span.
fn claim_of_request<D: Die, J: CallJob>(state: &State<D, J>, lane: u32, request: &Request) -> Claim
    requires standing { IsStanding D.seen J.suits state.now }
    requires ready { IsReady (core_of D.seen state.now) lane request.now }
    requires kind { (is_data request.now.call ≡ true) ⊎ (is_sync request.now.call ≡ true) }
    requires not_early { early (plain (core_of D.seen state.now)) request.now.call ≡ None }
    ensures asks { Asks (core_of D.seen state.now) lane request.now result }
    ensures side { result.side ≡ side_of (core_of D.seen state.now) request.now }
{
    let _files = state.meta.names.len();
    let mut claim = claim_for(&state.meta.names, &state.functions, request, Side::Host);
    claim.side = side_for(
        &state.pair,
        &state.meta.extents,
        &state.functions,
        state.sizes.place,
        claim.file,
        &claim.reach,
        &request.call,
    );
    claim
}

/// A call that nothing refuses begins at its side, and has a span of so many pages. `NotYet` names the least call in the way, or else
/// tells that there is no room; nothing has changed then. `picked` is the side in either case.
pub fn start<D: Die, J: CallJob>(
    state: &mut State<D, J>,
    lane: u32,
    request: &Request,
    picked: &mut Side,
) -> Result<u32, NotYet>
    requires standing { IsStanding D.seen J.suits state.old }
    requires hands { HoldsNone (core_of D.seen state.old) (Lane lane) }
    requires ready { IsReady (core_of D.seen state.old) lane request.now }
    requires kind { (is_data request.now.call ≡ true) ⊎ (is_sync request.now.call ≡ true) }
    requires not_early { early (plain (core_of D.seen state.old)) request.now.call ≡ None }
    requires host { state.old.places.host ≤ 2 ^ 64 - 3 }
    requires drive { state.old.places.drive ≤ 2 ^ 64 - 3 }
    ensures picked { picked.new ≡ side_of (core_of D.seen state.old) request.now }
    ensures begins { IfOk result (λ x. begin_waits (core_of D.seen state.old) (claim_at_side (core_of D.seen state.old) request.now) ≡ None) }
    ensures span { IfOk result (λ x. x ≡ (claim_at_side (core_of D.seen state.old) request.now).reach.pages) }
    ensures made { IfOk result (λ x. Made D.seen J.suits state.old (Begin lane request.now (side_of (core_of D.seen state.old) request.now)) state.new) }
    ensures stands { IfOk result (λ x. (o : State D J) (h : List (Entry Event)) (n : ℕ) → Stands D.seen J.suits state.old o h →
        Stands D.seen J.suits state.new o (h ++ entry n (Begin lane request.now (side_of (core_of D.seen state.old) request.now)) ∷ [])) }
    ensures not_yet { IfErr result (λ y. begin_waits (core_of D.seen state.old) (claim_at_side (core_of D.seen state.old) request.now) ≡ Some y) }
    ensures same { IfErr result (λ y. state.new ≡ state.old) }
{
    let claim = claim_of_request(state, lane, request);
    let span = claim.reach.pages;
    *picked = claim.side;
    let locks = is_data(&request.call);
    let lambda = is_lambda(&request.call);
    match begin(state, lane, request, claim, locks, lambda) {
        Ok(()) => Ok(span),
        Err(e) => Err(e),
    }
}
