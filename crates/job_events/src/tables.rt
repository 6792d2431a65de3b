//! What the tables tell of a call, of its lane and of all files.
ghost use Rattle.std.specs.Prelude.{◌≡◌, ◌<◌, ◌≤◌, ◌+◌, ◌^◌, length};
ghost use Rattle.extent_map.specs.Places.{IsSound, free_blocks};
ghost use Rattle.core_state.specs.Reach.{is_sync};
ghost use Rattle.system_state.specs.Cores.{lanes_of};
ghost use Rattle.call_checks.specs.Checks.{row_for, len_or};

use call_checks::file_for;
use extent_map::ExtentMap;
use name_table::Names;
use plain_files::Call;
use system_state::Lane;

/// Whether a lane has a mark.
pub(crate) fn has_mark(lanes: &[Lane], lane: u32) -> bool
    requires { lane < length lanes.now }
    ensures { result ≡ (lanes_of lanes.now lane).mark }
{
    lanes[lane as usize].mark
}

/// Whether a call is a `sync`.
pub(crate) fn is_sync(call: &Call) -> bool
    ensures { result ≡ is_sync call.now }
{
    matches!(call, Call::Sync)
}

/// The length of a call's file.
pub(crate) fn len_for(names: &Names, call: &Call) -> u32
    ensures value { result ≡ len_or (row_for names.now.files call.now) }
    ensures most { result ≤ 2 ^ 28 }
{
    let _files = names.len();
    match file_for(names, call) {
        Some(file) => file.len,
        None => 0,
    }
}

/// How many pages all files have: each has a block.
pub(crate) fn in_use(extents: &ExtentMap) -> u64
    ensures value { result ≡ length extents.now.placed }
    ensures rest { length (free_blocks extents.now) + result ≡ extents.now.blocks }
    ensures most { result ≤ 2 ^ 32 }
    ensures sound { IsSound extents.now }
{
    u64::from(extents.blocks() - extents.free())
}
