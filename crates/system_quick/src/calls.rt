//! Calls that need no page and that nothing refuses early, each by its kind.
ghost use Rattle.std.specs.Prelude.{◌≡◌, ◌≤◌, ◌<◌, ◌-◌, ◌^◌, ℕ, Some, true};
ghost use Rattle.coherence.specs.Paired.{flags_at};
ghost use Rattle.plain_files.specs.declared.calls.Call.TheVariants.{Create, Load, OpenFile, Remove, Seal, Stat, Unload};
ghost use Rattle.core_state.specs.Reach.{file_by};
ghost use Rattle.core_state.specs.InFlight.{claims};
ghost use Rattle.core_state.specs.LaneEvents.{is_unsealed, IsUnheld, IsUnused};
ghost use Rattle.system_state.specs.Cores.{core_of};
ghost use Rattle.system_quick.specs.Replied.{Asked, IsAnswered};
ghost use Rattle.system_quick.specs.Tables.{told};
ghost use Rattle.plain_files.specs.Plain.{accepted_code};

use crate::answering::answered;
use crate::files::{create_named, file_there, open_named, stat_named};
use crate::functions::{Loading, load_named, unload_named};
use crate::removing::remove_file;
use edge_io::Bytes;
use flash_die::Die;
use plain_files::{Numbered, Reply, Request, Word};
use system_state::{CallJob, State};

/// The id of a file.
pub(crate) fn open_file<D: Die, J: CallJob>(
    state: &mut State<D, J>,
    lane: u32,
    request: &Request,
    word: &Word,
) -> Numbered
    requires asked { Asked D.seen J.suits state.old lane request.now }
    requires call { request.now.call ≡ OpenFile word.now }
    ensures { IsAnswered D.seen J.suits state.old lane request.now result state.new }
{
    let reply = open_named(&state.meta.names, word);
    answered(state, lane, request, reply)
}

/// The length of a file.
pub(crate) fn stat_file<D: Die, J: CallJob>(
    state: &mut State<D, J>,
    lane: u32,
    request: &Request,
    word: &Word,
) -> Numbered
    requires asked { Asked D.seen J.suits state.old lane request.now }
    requires call { request.now.call ≡ Stat word.now }
    ensures { IsAnswered D.seen J.suits state.old lane request.now result state.new }
{
    let reply = stat_named(&state.meta.names, word);
    answered(state, lane, request, reply)
}

/// An empty file comes.
pub(crate) fn create_file<D: Die, J: CallJob>(
    state: &mut State<D, J>,
    lane: u32,
    request: &Request,
    word: &Word,
) -> Numbered
    requires asked { Asked D.seen J.suits state.old lane request.now }
    requires call { request.now.call ≡ Create word.now }
    ensures { IsAnswered D.seen J.suits state.old lane request.now result state.new }
{
    let _files = state.meta.names.len();
    let reply = create_named(&mut state.meta.names, word);
    answered(state, lane, request, reply)
}

/// A file is sealed, which no call in flight holds unless it was sealed before.
pub(crate) fn seal_file<D: Die, J: CallJob>(
    state: &mut State<D, J>,
    lane: u32,
    request: &Request,
    word: &Word,
) -> Numbered
    requires asked { Asked D.seen J.suits state.old lane request.now }
    requires call { request.now.call ≡ Seal word.now }
    requires clear { is_unsealed (file_by (core_of D.seen state.old).names.files (Some word.now)) ≡ true → IsUnheld (claims (core_of D.seen state.old).calls) (file_by (core_of D.seen state.old).names.files (Some word.now)) }
    ensures { IsAnswered D.seen J.suits state.old lane request.now result state.new }
{
    let _files = state.meta.names.len();
    let file = file_there(&state.meta.names, word);
    state.meta.names.seal(file.id);
    answered(state, lane, request, Reply::Done)
}

/// A file goes, which no call in flight holds.
pub(crate) fn remove_file_of<D: Die, J: CallJob>(
    state: &mut State<D, J>,
    lane: u32,
    request: &Request,
    word: &Word,
) -> Numbered
    requires asked { Asked D.seen J.suits state.old lane request.now }
    requires call { request.now.call ≡ Remove word.now }
    requires clear { IsUnheld (claims (core_of D.seen state.old).calls) (file_by (core_of D.seen state.old).names.files (Some word.now)) }
    requires versions { (b : ℕ) → b < state.old.sizes.blocks → (flags_at state.old.pair b).version ≤ 2 ^ 64 - 3 }
    ensures { IsAnswered D.seen J.suits state.old lane request.now result state.new }
{
    let _blocks = state.meta.extents.blocks();
    let _files = state.meta.names.len();
    let file = file_there(&state.meta.names, word);
    remove_file(&mut state.pair, &mut state.meta, file.id, file.len);
    answered(state, lane, request, Reply::Done)
}

/// A function comes, unless something refuses it.
pub(crate) fn load_function<D: Die, J: CallJob>(
    state: &mut State<D, J>,
    lane: u32,
    request: &Request,
    word: &Word,
    bytes: &Bytes,
    loading: &mut Loading,
) -> Numbered
    requires asked { Asked D.seen J.suits state.old lane request.now }
    requires call { request.now.call ≡ Load word.now bytes.now }
    requires decoded { told loading.old ≡ accepted_code bytes.now }
    ensures { IsAnswered D.seen J.suits state.old lane request.now result state.new }
{
    let reply = load_named(&mut state.functions, word, loading);
    answered(state, lane, request, reply)
}

/// A function goes, which no call in flight uses.
pub(crate) fn unload_function<D: Die, J: CallJob>(
    state: &mut State<D, J>,
    lane: u32,
    request: &Request,
    word: &Word,
) -> Numbered
    requires asked { Asked D.seen J.suits state.old lane request.now }
    requires call { request.now.call ≡ Unload word.now }
    requires clear { IsUnused (claims (core_of D.seen state.old).calls) word.now }
    ensures { IsAnswered D.seen J.suits state.old lane request.now result state.new }
{
    unload_named(&mut state.functions, word);
    answered(state, lane, request, Reply::Done)
}
