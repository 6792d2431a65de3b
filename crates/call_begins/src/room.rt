//! One step of room for a call that is to begin.
ghost use Rattle.std.specs.Prelude.{◌≡◌, ◌≤◌, ◌^◌, IfErr};
ghost use Rattle.turn_cell.specs.Steps.{IsWorn};
ghost use Rattle.core_state.specs.declared.actor.Actor.TheVariants.{Lane};
ghost use Rattle.system_state.specs.Cores.{core_of};
ghost use Rattle.desk_turns.specs.Passing.{ActsFor, core_seen, Does};
ghost use Rattle.quick_calls.specs.Making.{IsFree};
ghost use Rattle.call_begins.specs.Steps.{after_room, RoomStepSays};

use crate::step::{BeginStep, Stage};
use call_job::Job;
use dispatcher::Side;
use flash_die::Die;
use page_base::Page;
use quick_calls::{Made, System, make_room};
use turn_cell::{Desk, Worn};

fn after_room(made: Made) -> BeginStep
    ensures { result ≡ after_room made }
{
    match made {
        Made::Room => BeginStep::On(Stage::Idle),
        Made::Failed => BeginStep::On(Stage::Marked),
        Made::Wait => BeginStep::Waits,
    }
}

/// Makes one step of room at a side for a lane that is free.
pub(crate) fn step_room<D: Die, K: Desk<System<D, Job>>>(
    desk: &mut K,
    lane: u32,
    side: Side,
    page: &mut Page,
) -> Result<BeginStep, Worn>
    requires free { K.is_free desk.old }
    requires acts { ActsFor (core_of D.seen) (K.opening desk.old) (K.view desk.old) (Lane lane) }
    requires lane { IsFree (core_seen (core_of D.seen) (K.opening desk.old) (K.view desk.old)) lane }
    requires small { (K.opening desk.old).value.places.writes ≤ 2 ^ 62 }
    ensures free { K.is_free desk.new }
    ensures worn { IfErr result (λ x. IsWorn x.count (K.view desk.new)) }
    ensures turn { (K.table desk.new ≡ K.table desk.old) × (K.opening desk.new ≡ K.opening desk.old) }
    ensures did { Does (K.view desk.old) (K.view desk.new) (RoomStepSays D.seen (K.opening desk.old) (K.view desk.old) (K.view desk.new) lane side result) }
{
    let made = make_room(desk, lane, side, page)?;
    Ok(after_room(made))
}
