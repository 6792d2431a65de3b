//! The side of a call that begins.
ghost use Rattle.std.specs.Prelude.{◌≡◌, ◌≤◌, ◌<◌, ◌+◌, ◌^◌, ℕ, All, false, length, map, Some, if◌then◌else◌};
ghost use Rattle.dispatcher.specs.declared.side.Side.TheVariants.{Host};
ghost use Rattle.dispatcher.specs.Costs.{AreCounts};
ghost use Rattle.plain_files.specs.Plain.{is_too_long};
ghost use Rattle.core_state.specs.Reach.{is_lambda, is_data, function_by, function_for};
ghost use Rattle.core_state.specs.Sides.{output_pages, placed_side};
ghost use Rattle.core_state.specs.PlainOf.{e_or_none};
ghost use Rattle.system_state.specs.Cores.{function_of};
ghost use Rattle.system_blocks.specs.Spans.{pages_from};
ghost use Rattle.system_begin.specs.Begun.{bare_counts};

use crate::counts::span_counts;
use crate::frames::start_of;
use call_checks::function_named;
use coherence::Pair;
use dispatcher::{Counts, Place, Profile, Side, pick};
use extent_map::ExtentMap;
use plain_files::{Call, Word};
use system_state::{Function, Reach};

/// Whether a call runs a function.
pub fn is_lambda(call: &Call) -> bool
    ensures { result ≡ is_lambda call.now }
{
    matches!(call, Call::Readl { .. } | Call::Writel { .. })
}

/// Whether a call is about the bytes of a file.
pub fn is_data(call: &Call) -> bool
    ensures { result ≡ is_data call.now }
{
    matches!(
        call,
        Call::Read(..)
            | Call::Write(..)
            | Call::Append(..)
            | Call::Trunc(..)
            | Call::Readl { .. }
            | Call::Writel { .. }
    )
}

/// The pages of a call's output.
fn output_pages(call: &Call, pages: u32) -> u32
    requires short { is_too_long call.now ≡ false }
    requires few { pages ≤ 65 }
    ensures value { result ≡ output_pages call.now pages }
    ensures most { result ≤ 65 }
{
    match call {
        Call::Readl { cap, .. } => ((*cap + 4095) / 4096) as u32,
        _ => pages,
    }
}

/// What is known of a function; of one that is not there, nothing.
fn profile_named(functions: &[Function], word: &Word) -> Profile
    requires { All (λ f. f.profile.e ≤ 2 ^ 32) functions.now }
    ensures value { result.e ≡ e_or_none (function_by (map function_of functions.now) (Some word.now)) }
    ensures priced { result.e ≤ 2 ^ 32 }
{
    match function_named(functions, word) {
        Some(function) => function.profile,
        None => Profile { e: 0 },
    }
}

/// What is known of the function that a call runs.
fn profile_of(functions: &[Function], call: &Call) -> Profile
    requires { All (λ f. f.profile.e ≤ 2 ^ 32) functions.now }
    ensures value { result.e ≡ e_or_none (function_for (map function_of functions.now) call.now) }
    ensures priced { result.e ≤ 2 ^ 32 }
{
    match call {
        Call::Readl { function, .. } | Call::Writel { function, .. } => {
            profile_named(functions, function)
        }
        _ => Profile { e: 0 },
    }
}

/// The side of a call with a function: the one that is forced, or the cheaper one.
fn placed_side(place: Place, profile: &Profile, counts: &Counts) -> Side
    requires units { profile.now.e ≤ 2 ^ 32 }
    requires counts { AreCounts counts.now }
    ensures { result ≡ placed_side place profile.now.e counts.now }
{
    match place {
        Place::Auto => pick(profile, counts),
        Place::Host => Side::Host,
        Place::Drive => Side::Drive,
    }
}

/// The counts of a call's span and output.
fn call_counts(pair: &Pair, extents: &ExtentMap, file: u32, reach: &Reach, call: &Call) -> Counts
    requires short { is_too_long call.now ≡ false }
    requires few { reach.now.pages ≤ 65 }
    requires small { 0 < reach.now.pages → reach.now.first + reach.now.pages < 2 ^ 32 }
    requires inside { (first i b : ℕ) → pages_from extents.now.placed file first i ≡ Some b → b < length pair.now.flags }
    ensures value { result ≡ bare_counts pair.now extents.now.placed file reach.now call.now }
    ensures counts { AreCounts result }
{
    let first = start_of(reach);
    let out = output_pages(call, reach.pages);
    span_counts(pair, extents, file, first, reach.pages, out)
}

/// The side of a call on a file that meets so much of it, as the caches tell.
pub fn side_for(
    pair: &Pair,
    extents: &ExtentMap,
    functions: &[Function],
    place: Place,
    file: u32,
    reach: &Reach,
    call: &Call,
) -> Side
    requires short { is_too_long call.now ≡ false }
    requires few { reach.now.pages ≤ 65 }
    requires small { 0 < reach.now.pages → reach.now.first + reach.now.pages < 2 ^ 32 }
    requires inside { (first i b : ℕ) → pages_from extents.now.placed file first i ≡ Some b → b < length pair.now.flags }
    requires priced { All (λ f. f.profile.e ≤ 2 ^ 32) functions.now }
    ensures { result ≡ (if is_lambda call.now then placed_side place (e_or_none (function_for (map function_of functions.now) call.now)) (bare_counts pair.now extents.now.placed file reach.now call.now) else Host) }
{
    if !is_lambda(call) {
        return Side::Host;
    }
    let counts = call_counts(pair, extents, file, reach, call);
    let profile = profile_of(functions, call);
    placed_side(place, &profile, &counts)
}
