//! A call begins, and its buffers are told what it meets.
ghost use Rattle.std.specs.Prelude.{◌≡◌, ◌≤◌, ◌-◌, ◌^◌, ◌⊎◌, ℕ, [], ◌∷◌, IfOk, IfErr, Err, true, false, option_map, option_copied};
ghost use Rattle.core_state.specs.declared.actor.Actor.TheVariants.{Lane};
ghost use Rattle.core_state.specs.Reach.{is_data, is_sync};
ghost use Rattle.core_state.specs.LaneEvents.{IsIdle};
ghost use Rattle.core_state.specs.Happens.{HoldsNone};
ghost use Rattle.system_state.specs.Cores.{core_of};
ghost use Rattle.system_state.specs.Made.{Made};
ghost use Rattle.system_state.specs.Stands.{IsStanding, Stands};
ghost use Rattle.system_state.specs.declared.not_yet.NotYet.TheVariants.{NoRoom};
ghost use Rattle.call_checks.specs.Checks.{row_for, len_or, function_by};
ghost use Rattle.call_turns.specs.Begun.{side_of};
ghost use Rattle.call_turns.specs.BegunAnswer.TheVariants.{Started};
ghost use Rattle.call_turns.specs.Ways.{begin_way, way_of, begin_event, IsNext};
ghost use Rattle.desk_turns.specs.Making.{Makes};
ghost use Rattle.call_job.specs.Prepares.{IsPrepared};
ghost use Rattle.call_job.specs.Suits.{Suits};
ghost use Rattle.job_events.specs.Armed.{code_row, HasBegun, HasJob, IsArmed};

use crate::tables::len_for;
use call_checks::function_named;
use call_job::{Job, Prepared};
use call_turns::{Begun, try_begin};
use dispatcher::Side;
use flash_die::Die;
use plain_files::{Call, Word};
use sbpf_insn::Code;
use system_state::{Function, NotYet, State};

/// The code of a function of this name, if it is there.
fn code_named<'a>(functions: &'a [Function], name: &Word) -> Option<&'a Code>
    ensures { option_copied result ≡ option_map (λ f. f.code) (function_by functions.now name.now) }
{
    match function_named(functions, name) {
        Some(found) => Some(&found.code),
        None => None,
    }
}

/// The code of the function that a call runs, if it runs one.
fn code_for<'a>(functions: &'a [Function], call: &Call) -> Option<&'a Code>
    ensures { option_copied result ≡ code_row functions.now call.now }
{
    match call {
        Call::Readl { function, .. } | Call::Writel { function, .. } => {
            code_named(functions, function)
        }
        _ => None,
    }
}

/// The job of a lane's call that has just begun is told what it meets.
fn arm_begun<D: Die>(state: &State<D, Job>, lane: u32, job: &mut Job)
    requires standing { IsStanding D.seen Suits state.now }
    requires begun { HasBegun (core_of D.seen state.now) lane job.old }
    ensures job { HasJob (core_of D.seen state.now) lane job.new }
{
    let Some(call) = &state.calls[lane as usize] else {
        unreachable!()
    };
    let len = len_for(&state.meta.names, &job.request.call);
    let code = code_for(&state.functions, &job.request.call);
    job.arm(&call.claim, len, code);
}

/// The job of a lane's call is told what it meets, if the call has begun.
fn arm_if<D: Die>(state: &State<D, Job>, lane: u32, begun: &Begun, job: &mut Job)
    requires standing { IsStanding D.seen Suits state.now }
    requires begun { (side : Side) (span : ℕ) → begun.now ≡ Started side span → HasBegun (core_of D.seen state.now) lane job.old }
    ensures armed { IsArmed (core_of D.seen state.now) lane job.old job.new begun.now }
{
    if let Begun::Started { .. } = begun {
        arm_begun(state, lane, job);
    }
}

/// A prepared data call or `sync` is to begin, as in `try_begin`. Where it began, its job suits it now; where it was refused or waits, the
/// job is as it was. Takes no memory.
pub fn begin_job<D: Die>(
    state: &mut State<D, Job>,
    lane: u32,
    prepared: &mut Prepared,
) -> Result<Begun, NotYet>
    requires standing { IsStanding D.seen Suits state.old }
    requires hands { HoldsNone (core_of D.seen state.old) (Lane lane) }
    requires idle { IsIdle (core_of D.seen state.old) lane }
    requires unmarked { ((core_of D.seen state.old).lanes lane).mark ≡ false }
    requires prepared { IsPrepared prepared.old.job.request prepared.old.job }
    requires kind { (is_data prepared.old.job.request.call ≡ true) ⊎ (is_sync prepared.old.job.request.call ≡ true) }
    requires last { state.old.last ≤ 2 ^ 64 - 3 }
    requires host { state.old.places.host ≤ 2 ^ 64 - 3 }
    requires drive { state.old.places.drive ≤ 2 ^ 64 - 3 }
    ensures way { way_of result ≡ begin_way (core_of D.seen state.old) prepared.old.job.request }
    ensures number { IfOk result (λ x. IsNext state.old.last x) }
    ensures made { IfOk result (λ x. Made D.seen Suits state.old (begin_event lane prepared.old.job.request x) state.new) }
    ensures stands { IfOk result (λ x. Makes (Stands D.seen Suits) state.old (begin_event lane prepared.old.job.request x ∷ []) state.new) }
    ensures armed { IfOk result (λ x. IsArmed (core_of D.seen state.new) lane prepared.old.job prepared.new.job x) }
    ensures picked { (used need : ℕ) → result ≡ Err (NoRoom used need) → prepared.new.picked ≡ side_of (core_of D.seen state.old) prepared.old.job.request }
    ensures same { IfErr result (λ y. (state.new ≡ state.old) × (prepared.new.job ≡ prepared.old.job)) }
{
    match try_begin(state, lane, &prepared.job.request, &mut prepared.picked) {
        Ok(begun) => {
            arm_if(state, lane, &begun, &mut prepared.job);
            Ok(begun)
        }
        Err(y) => Err(y),
    }
}
