//! All lanes leave.
ghost use Rattle.std.specs.Prelude.{◌≡◌, IfErr};
ghost use Rattle.turn_cell.specs.Desks.{IsFreeAlone, view_alone, opening_alone, table_alone};
ghost use Rattle.turn_cell.specs.Steps.{IsWorn};
ghost use Rattle.system_state.specs.Cores.{core_of};
ghost use Rattle.desk_turns.specs.Passing.{core_seen, Does};
ghost use Rattle.event_turns.specs.Books.{opening_in};
ghost use Rattle.solo_lanes.specs.Lanes.{MayAllLeave, LeaveSays};

use event_turns::{System, turn_leave};
use flash_die::Die;
use system_state::CallJob;
use turn_cell::{Alone, Worn};

/// All lanes leave, one after the other from 0 on. Each has entered and not left and has no mark, no call is in flight, and all dies are at
/// home; they stay there. At `Worn` some lanes, from 0 on, have left, and not all.
pub fn leave_all<D: Die, J: CallJob>(
    alone: &mut Alone<System<D, J>>,
    lanes: u32,
) -> Result<(), Worn>
    requires free { IsFreeAlone opening_in alone.old }
    requires lanes { lanes ≡ (core_seen (core_of D.seen) (opening_alone opening_in alone.old) (view_alone alone.old)).shape.lanes }
    requires may { MayAllLeave (core_seen (core_of D.seen) (opening_alone opening_in alone.old) (view_alone alone.old)) }
    ensures free { IsFreeAlone opening_in alone.new }
    ensures worn { IfErr result (λ x. IsWorn x.count (view_alone alone.new)) }
    ensures turn { (table_alone alone.new ≡ table_alone alone.old) × (opening_alone opening_in alone.new ≡ opening_alone opening_in alone.old) }
    ensures did { Does (view_alone alone.old) (view_alone alone.new) (LeaveSays D.seen (opening_alone opening_in alone.old) (view_alone alone.old) (view_alone alone.new) lanes result) }
{
    for lane in 0..lanes {
        turn_leave(alone, lane)?;
    }
    Ok(())
}
