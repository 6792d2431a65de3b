//! A lane gets the reply to its call.
ghost use Rattle.std.specs.Prelude.{◌≡◌, ◌<◌, ◌≤◌, ◌+◌, ◌-◌, ◌^◌, Some, slice_get};
ghost use Rattle.core_state.specs.declared.event.Event.TheVariants.{Quick};
ghost use Rattle.system_state.specs.Noted.{told_more};
ghost use Rattle.system_state.specs.declared.lanes.Lane.{Lane as LaneRow};
ghost use Rattle.system_quick.specs.Replied.{IsReplied};

use flash_die::Die;
use plain_files::{Numbered, Reply, Request};
use system_begin::reply_lane;
use system_state::{CallJob, State, Told};
use turn_cell::Note;

/// A call was answered at once.
fn note_answer(told: &Note<Told>, lane: &u32, request: &Request, reply: &Reply) -> Note<Told>
    ensures { result.value ≡ told_more told.now.value (Quick lane.now request.now reply.now) }
{
    Note::of3(told, request, &(*lane, reply))
}

/// A lane's call has its reply: the next number is drawn.
pub(crate) fn answered<D: Die, J: CallJob>(
    state: &mut State<D, J>,
    lane: u32,
    request: &Request,
    reply: Reply,
) -> Numbered
    requires row { (row : LaneRow) × (slice_get state.old.lanes.items lane ≡ Some row) × (row.ended + 1 < 2 ^ 64) }
    requires last { state.old.last ≤ 2 ^ 64 - 3 }
    ensures number { result.number ≡ state.old.last + 1 }
    ensures reply { result.reply ≡ reply }
    ensures replied { IsReplied lane (Quick lane request.now reply) state.old state.new }
{
    reply_lane(&mut state.lanes, lane);
    state.last += 1;
    state.told = note_answer(&state.told, &lane, request, &reply);
    state.made = state.made.wrapping_add(1);
    Numbered {
        number: state.last,
        reply,
    }
}
