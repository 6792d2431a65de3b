//! One step of making room.
ghost use Rattle.std.specs.Prelude.{◌≡◌, ◌≤◌, ◌^◌, IfErr};
ghost use Rattle.turn_cell.specs.Steps.{IsWorn};
ghost use Rattle.core_state.specs.declared.actor.Actor.TheVariants.{Lane};
ghost use Rattle.system_state.specs.Cores.{core_of};
ghost use Rattle.desk_turns.specs.Passing.{ActsFor, core_seen, Does};
ghost use Rattle.page_steps.specs.Making.{IsFree, RoomSays, made_by};

use crate::room::Given;
use crate::turn::turn_room;
use core_state::Actor;
use dispatcher::Side;
use event_turns::{Flushed, System, flush_home};
use flash_die::Die;
use page_base::Page;
use system_state::CallJob;
use turn_cell::{Desk, Worn};

/// What a step of making room answers.
#[derive(Clone, Copy, Debug, PartialEq, Eq)]
pub enum Made {
    /// A copy gave way, or a block was flushed.
    Room,
    /// A flush failed, and the lane is marked.
    Failed,
    /// Nothing can be done until others have gone on.
    Wait,
}

fn made_by(flushed: Flushed) -> Made
    ensures { result ≡ made_by flushed }
{
    match flushed {
        Flushed::Wrote { .. } => Made::Room,
        Flushed::Failed { .. } => Made::Failed,
        Flushed::Nothing | Flushed::Busy { .. } => Made::Wait,
    }
}

/// Makes one step of room at a side for a lane that has no call yet: the first of these that is possible. For the host a copy of it goes, or
/// goes to the drive; then for either a copy of the drive goes, or a block is flushed, by way of `page`.
pub fn make_room<D: Die, J: CallJob, K: Desk<System<D, J>>>(
    desk: &mut K,
    lane: u32,
    side: Side,
    page: &mut Page,
) -> Result<Made, Worn>
    requires free { K.is_free desk.old }
    requires acts { ActsFor (core_of D.seen) (K.opening desk.old) (K.view desk.old) (Lane lane) }
    requires lane { IsFree (core_seen (core_of D.seen) (K.opening desk.old) (K.view desk.old)) lane }
    requires small { (K.opening desk.old).value.places.writes ≤ 2 ^ 62 }
    ensures free { K.is_free desk.new }
    ensures worn { IfErr result (λ x. IsWorn x.count (K.view desk.new)) }
    ensures turn { (K.table desk.new ≡ K.table desk.old) × (K.opening desk.new ≡ K.opening desk.old) }
    ensures did { Does (K.view desk.old) (K.view desk.new) (RoomSays D.seen (K.opening desk.old) (K.view desk.old) (K.view desk.new) lane side result) }
{
    let given = turn_room(desk, Actor::Lane(lane), side, page)?;
    match given {
        Given::Moved { .. } => Ok(Made::Room),
        Given::Nothing => Ok(Made::Wait),
        Given::Sent { errand } => {
            let flushed = flush_home(desk, Actor::Lane(lane), errand, page)?;
            Ok(made_by(flushed))
        }
    }
}
