//! Calls in flight that are in the way.
ghost use Rattle.std.specs.Prelude.{◌≡◌, ◌≤◌, length, get_or, None, Some, option_map, if◌then◌else◌};
ghost use Rattle.plain_files.specs.declared.calls.Call.TheVariants.{Seal};
ghost use Rattle.core_state.specs.Words.{first_to, or_else};
ghost use Rattle.core_state.specs.Reach.{file_by};
ghost use Rattle.system_state.specs.Cores.{core_of};
ghost use Rattle.system_state.specs.Stands.{IsStanding};
ghost use Rattle.system_state.specs.declared.not_yet.NotYet.TheVariants.{Conflict};
ghost use Rattle.system_quick.specs.Rows.{row_holds, row_uses};
ghost use Rattle.system_quick.specs.Waits.{conflict_on, use_of, in_the_way};

use crate::files::is_unsealed;
use call_checks::file_named;
use flash_die::Die;
use plain_files::{Call as PlainCall, Word};
use system_state::{Call, CallJob, NotYet, State};

/// Whether a call in flight is on a file.
fn holds(call: &Option<Call>, file: u32) -> bool
    ensures { result ≡ row_holds file call.now }
{
    match call {
        Some(call) => call.claim.file == file,
        None => false,
    }
}

/// Whether a call in flight uses the function of a name.
fn uses(call: &Option<Call>, name: &[u8]) -> bool
    ensures { result ≡ row_uses name.now call.now }
{
    let Some(call) = call else {
        return false;
    };
    match &call.claim.function {
        Some(function) => function.as_slice() == name,
        None => false,
    }
}

/// The first of two, or else this lane where a test holds.
fn or_such(first: Option<u32>, holds: bool, lane: u32) -> Option<u32>
    ensures { result ≡ or_else first (if holds then Some lane else None) }
{
    match first {
        Some(lane) => Some(lane),
        None if holds => Some(lane),
        None => None,
    }
}

/// The least lane whose call is on a file.
fn least_holder(calls: &[Option<Call>], file: u32) -> Option<u32>
    requires few { length calls.now ≤ 32 }
    ensures { result ≡ first_to (length calls.now) (λ l. row_holds file (get_or calls.now l None)) }
{
    let mut least = None;
    for (lane, call) in calls.iter().enumerate() {
        least = or_such(least, holds(call, file), lane as u32);
    }
    least
}

/// The least lane whose call uses the function of a name.
fn least_user(calls: &[Option<Call>], name: &[u8]) -> Option<u32>
    requires few { length calls.now ≤ 32 }
    ensures { result ≡ first_to (length calls.now) (λ l. row_uses name.now (get_or calls.now l None)) }
{
    let mut least = None;
    for (lane, call) in calls.iter().enumerate() {
        least = or_such(least, uses(call, name), lane as u32);
    }
    least
}

/// The conflict with a call, if there is one.
fn conflict_with(call: Option<u32>) -> Option<NotYet>
    ensures { result ≡ option_map (λ l. Conflict l) call }
{
    match call {
        Some(call) => Some(NotYet::Conflict { call }),
        None => None,
    }
}

/// The conflict with the least call that holds the file of a word, if there is one.
fn conflict_on<D: Die, J: CallJob>(state: &State<D, J>, word: &Word) -> Option<NotYet>
    requires standing { IsStanding D.seen J.suits state.now }
    ensures { result ≡ conflict_on (core_of D.seen state.now) (file_by (core_of D.seen state.now).names.files (Some word.now)) }
{
    let _files = state.meta.names.len();
    match file_named(&state.meta.names, word) {
        Some(file) => conflict_with(least_holder(&state.calls, file.id)),
        None => None,
    }
}

/// The same of a file that isn't sealed; of one that is, none.
fn seal_conflict<D: Die, J: CallJob>(state: &State<D, J>, word: &Word) -> Option<NotYet>
    requires standing { IsStanding D.seen J.suits state.now }
    ensures { result ≡ in_the_way (core_of D.seen state.now) (Seal word.now) }
{
    if !is_unsealed(&state.meta.names, word) {
        return None;
    }
    conflict_on(state, word)
}

/// The least call that uses the function of a word, if there is one.
fn use_of<D: Die, J: CallJob>(state: &State<D, J>, word: &Word) -> Option<NotYet>
    requires standing { IsStanding D.seen J.suits state.now }
    ensures { result ≡ use_of (core_of D.seen state.now) word.now }
{
    match least_user(&state.calls, word.as_slice()) {
        Some(call) => Some(NotYet::FnInUse { call }),
        None => None,
    }
}

/// What is in the way of a call that needs no page and that nothing refuses.
pub(crate) fn in_the_way<D: Die, J: CallJob>(
    state: &State<D, J>,
    call: &PlainCall,
) -> Option<NotYet>
    requires standing { IsStanding D.seen J.suits state.now }
    ensures { result ≡ in_the_way (core_of D.seen state.now) call.now }
{
    match call {
        PlainCall::Remove(word) => conflict_on(state, word),
        PlainCall::Seal(word) => seal_conflict(state, word),
        PlainCall::Unload(word) => use_of(state, word),
        _ => None,
    }
}
