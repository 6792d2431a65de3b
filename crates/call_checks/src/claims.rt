//! What the begin of a call fixes.
ghost use Rattle.std.specs.Prelude.{◌≡◌, false, map, Some, is_none};
ghost use Rattle.plain_files.specs.Plain.{is_too_long};
ghost use Rattle.core_state.specs.Reach.{function_word, claim_for};
ghost use Rattle.system_state.specs.Cores.{file_of, claim_of};
ghost use Rattle.call_checks.specs.Checks.{lacks_function, function_by, id_or};

use crate::finding::{file_for, function_named};
use crate::reach::reach_of;
use crate::refusals::len_or;
use dispatcher::Side;
use name_table::{FileRec, Name, Names};
use plain_files::{Call, Request, Word};
use std::snapshot::Snapshot;
use system_state::{Claim, Function};

fn id_or(file: &Option<FileRec>) -> u32
    ensures { result ≡ id_or file.now }
{
    match file {
        Some(file) => file.id,
        None => 0,
    }
}

/// The name of a function that is there.
fn name_of(functions: &[Function], word: &Word) -> Option<Name>
    requires { is_none (function_by functions.now word.now) ≡ false }
    ensures { result ≡ Some word.now }
{
    match function_named(functions, word) {
        Some(function) => Some(function.name),
        None => None,
    }
}

/// The name of the function that a call runs, if it runs one.
fn function_of(functions: &[Function], call: &Call) -> Option<Name>
    requires { lacks_function functions.now call.now ≡ false }
    ensures { result ≡ function_word call.now }
{
    match call {
        Call::Readl { function, .. } | Call::Writel { function, .. } => {
            name_of(functions, function)
        }
        _ => None,
    }
}

/// What the begin of a request at a side fixes. Its numbers are in their limits, and its function is there.
pub fn claim_for(names: &Names, functions: &[Function], request: &Request, side: Side) -> Claim
    requires short { is_too_long request.now.call ≡ false }
    requires there { lacks_function functions.now request.now.call ≡ false }
    ensures claim { claim_of result ≡ claim_for (map file_of names.now.files) request.now side }
    ensures function { result.function ≡ function_word request.now.call }
    ensures side { result.side ≡ side }
    ensures request { result.request.value ≡ request.now }
{
    let file = file_for(names, &request.call);
    Claim {
        request: Snapshot::of(request),
        function: function_of(functions, &request.call),
        file: id_or(&file),
        side,
        reach: reach_of(&request.call, len_or(&file)),
    }
}
