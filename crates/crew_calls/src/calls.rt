//! The calls of a lane, by their kinds.
ghost use Rattle.std.specs.Prelude.{◌≡◌, true, false, Ok, IfErr};
ghost use Rattle.turn_cell.specs.Events.{events_of};
ghost use Rattle.turn_cell.specs.Steps.{IsWorn};
ghost use Rattle.plain_files.specs.declared.calls.Numbered.{Numbered};
ghost use Rattle.core_state.specs.declared.actor.Actor.TheVariants.{Lane};
ghost use Rattle.core_state.specs.History.{calls_of};
ghost use Rattle.core_state.specs.LaneEvents.{is_quick};
ghost use Rattle.core_state.specs.Reach.{is_data, is_lambda, is_sync};
ghost use Rattle.system_state.specs.Cores.{core_of};
ghost use Rattle.desk_turns.specs.Passing.{ActsFor, core_seen, Does};
ghost use Rattle.lambda_calls.specs.Making.{IsFree};
ghost use Rattle.lambda_calls.specs.Words.{IsNumbered, IsSmall};
ghost use Rattle.crews.specs.Calls.{CallSays};
ghost use Rattle.crews.specs.Seats.{view_at, opening_at, table_at, IsFreeSeat};

use call_job::Job;
use flash_die::Die;
use gates::Gate;
use lambda_calls::{
    System, append_call, read_call, read_lambda, trunc_call, write_call, write_lambda,
};
use load_decoding::loading_of;
use page_base::Page;
use plain_files::{Call, Numbered, Request};
use std::alloc::Global;
use std::sync::Wait;
use sync_calls::{quick_call, skip_call, sync_call};
use system_state::CallJob;
use turn_cell::{Seated, Worn};

/// Answers a call that needs no page, of a lane that is free. The code of a `load` is decoded first; where memory for that runs out the reply is
/// `nomemory`. At `Worn` it made no event.
pub fn quick_answer<'a, D: Die, J: CallJob, R: Wait>(
    alloc: Global,
    desk: &mut Seated<'a, System<D, J>, R>,
    lane: u32,
    request: &Request,
) -> Result<Numbered, Worn>
    requires free { IsFreeSeat desk.old }
    requires acts { ActsFor (core_of D.seen) (opening_at desk.old) (view_at desk.old) (Lane lane) }
    requires lane { IsFree (core_seen (core_of D.seen) (opening_at desk.old) (view_at desk.old)) lane }
    requires kind { is_quick request.now.call ≡ true }
    requires small { IsSmall (opening_at desk.old).value }
    ensures free { IsFreeSeat desk.new }
    ensures worn { IfErr result (λ x. IsWorn x.count (view_at desk.new)) }
    ensures turn { (table_at desk.new ≡ table_at desk.old) × (opening_at desk.new ≡ opening_at desk.old) }
    ensures did { Does (view_at desk.old) (view_at desk.new) (CallSays (core_of D.seen) (opening_at desk.old) (view_at desk.new) lane request.now result) }
    ensures numbered { (n : Numbered) → result ≡ Ok n → IsNumbered (opening_at desk.old).value.last (calls_of (events_of (view_at desk.new).seen)) n.number (record { lane = lane; call = request.now.call; reply = n.reply }) }
{
    match loading_of(alloc, &request.call) {
        Ok(loading) => {
            let mut loading = loading;
            quick_call(desk, lane, request, &mut loading)
        }
        Err(_) => skip_call(desk, lane, request),
    }
}

/// Answers a `sync` of a lane that is free, by way of `page`, which may change. The reply is `fault` where a write of it failed. At `Worn` it
/// hasn't ended.
pub fn sync_answer<'a, D: Die, J: CallJob, R: Wait>(
    alloc: Global,
    desk: &mut Seated<'a, System<D, J>, R>,
    lane: u32,
    request: &Request,
    page: &mut Page,
) -> Result<Numbered, Worn>
    requires free { IsFreeSeat desk.old }
    requires acts { ActsFor (core_of D.seen) (opening_at desk.old) (view_at desk.old) (Lane lane) }
    requires lane { IsFree (core_seen (core_of D.seen) (opening_at desk.old) (view_at desk.old)) lane }
    requires kind { is_sync request.now.call ≡ true }
    requires small { IsSmall (opening_at desk.old).value }
    ensures free { IsFreeSeat desk.new }
    ensures worn { IfErr result (λ x. IsWorn x.count (view_at desk.new)) }
    ensures turn { (table_at desk.new ≡ table_at desk.old) × (opening_at desk.new ≡ opening_at desk.old) }
    ensures did { Does (view_at desk.old) (view_at desk.new) (CallSays (core_of D.seen) (opening_at desk.old) (view_at desk.new) lane request.now result) }
    ensures numbered { (n : Numbered) → result ≡ Ok n → IsNumbered (opening_at desk.old).value.last (calls_of (events_of (view_at desk.new).seen)) n.number (record { lane = lane; call = request.now.call; reply = n.reply }) }
{
    let mut pages = Vec::new(alloc);
    sync_call(desk, lane, request, page, &mut pages)
}

/// Answers a `read`, a `write`, an `append` or a `trunc` of a lane that is free, by way of `page`, which may change. The reply is `nomemory`
/// where memory ran out before it began, and `fault` where a die failed. At `Worn` it hasn't ended.
pub fn data_answer<'a, D: Die, R: Wait>(
    alloc: Global,
    desk: &mut Seated<'a, System<D, Job>, R>,
    lane: u32,
    request: &Request,
    page: &mut Page,
) -> Result<Numbered, Worn>
    requires free { IsFreeSeat desk.old }
    requires acts { ActsFor (core_of D.seen) (opening_at desk.old) (view_at desk.old) (Lane lane) }
    requires lane { IsFree (core_seen (core_of D.seen) (opening_at desk.old) (view_at desk.old)) lane }
    requires data { is_data request.now.call ≡ true }
    requires plain { is_lambda request.now.call ≡ false }
    requires small { IsSmall (opening_at desk.old).value }
    ensures free { IsFreeSeat desk.new }
    ensures worn { IfErr result (λ x. IsWorn x.count (view_at desk.new)) }
    ensures turn { (table_at desk.new ≡ table_at desk.old) × (opening_at desk.new ≡ opening_at desk.old) }
    ensures did { Does (view_at desk.old) (view_at desk.new) (CallSays (core_of D.seen) (opening_at desk.old) (view_at desk.new) lane request.now result) }
    ensures numbered { (n : Numbered) → result ≡ Ok n → IsNumbered (opening_at desk.old).value.last (calls_of (events_of (view_at desk.new).seen)) n.number (record { lane = lane; call = request.now.call; reply = n.reply }) }
{
    match &request.call {
        Call::Read(..) => read_call(alloc, desk, lane, request, page),
        Call::Write(..) => write_call(alloc, desk, lane, request, page),
        Call::Append(..) => append_call(alloc, desk, lane, request, page),
        Call::Trunc(..) => trunc_call(alloc, desk, lane, request, page),
        _ => unreachable!(),
    }
}

/// Answers a `readl` or a `writel` of a lane that is free, by way of `page`, which may change. The reply is `nomemory` where memory ran out
/// before it began, and `fault` where a die failed. At `Worn` it hasn't ended.
pub fn lambda_answer<'a, D: Die, R: Wait, G: Gate>(
    alloc: Global,
    desk: &mut Seated<'a, System<D, Job>, R>,
    gate: &G,
    lane: u32,
    request: &Request,
    page: &mut Page,
) -> Result<Numbered, Worn>
    requires free { IsFreeSeat desk.old }
    requires acts { ActsFor (core_of D.seen) (opening_at desk.old) (view_at desk.old) (Lane lane) }
    requires lane { IsFree (core_seen (core_of D.seen) (opening_at desk.old) (view_at desk.old)) lane }
    requires kind { is_lambda request.now.call ≡ true }
    requires small { IsSmall (opening_at desk.old).value }
    ensures free { IsFreeSeat desk.new }
    ensures worn { IfErr result (λ x. IsWorn x.count (view_at desk.new)) }
    ensures turn { (table_at desk.new ≡ table_at desk.old) × (opening_at desk.new ≡ opening_at desk.old) }
    ensures did { Does (view_at desk.old) (view_at desk.new) (CallSays (core_of D.seen) (opening_at desk.old) (view_at desk.new) lane request.now result) }
    ensures numbered { (n : Numbered) → result ≡ Ok n → IsNumbered (opening_at desk.old).value.last (calls_of (events_of (view_at desk.new).seen)) n.number (record { lane = lane; call = request.now.call; reply = n.reply }) }
{
    match &request.call {
        Call::Readl { .. } => read_lambda(alloc, desk, gate, lane, request, page),
        Call::Writel { .. } => write_lambda(alloc, desk, gate, lane, request, page),
        _ => unreachable!(),
    }
}
