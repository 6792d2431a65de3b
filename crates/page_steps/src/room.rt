//! Room at a side: which copy gives way, or which block is flushed so that one can.
ghost use Rattle.std.specs.Prelude.{◌≡◌, None};
ghost use Rattle.coherence.specs.Paired.{by_side};
ghost use Rattle.core_state.specs.Words.{or_else};
ghost use Rattle.core_state.specs.DieEvents.{FlushesFor};
ghost use Rattle.core_solo.specs.Solo.{evict_event, demote_event, flush_event, room_event};
ghost use Rattle.dispatcher.specs.declared.side.Side.TheVariants.{Host as AtHost, Drive as AtDrive};
ghost use Rattle.system_state.specs.Cores.{core_of};
ghost use Rattle.system_state.specs.declared.errand.Errand.{Errand};
ghost use Rattle.page_steps.specs.declared.room.Given.TheVariants.{Sent};
ghost use Rattle.page_steps.specs.Room.{MayMove, Gave, IsSent, move_event, given_event};

use core_state::Actor;
use dispatcher::Side;
use event_turns::System;
use flash_die::Die;
use page_base::Page;
use system_state::{CallJob, Errand};

/// How a copy gave way.
#[derive(Clone, Copy, Debug, PartialEq, Eq)]
pub enum Move {
    /// The side's copy of a block went.
    Evicted { side: Side, block: u32 },
    /// The host's copy of a block went to the drive.
    Demoted { block: u32 },
}

/// What was done for room in one turn.
#[derive(Drop)]
pub enum Given<D> {
    /// A copy gave way.
    Moved { step: Move },
    /// A die went out to flush a block.
    Sent { errand: Errand<D> },
    /// Nothing can be done now.
    Nothing,
}

/// A copy of a side goes.
fn evict<D: Die, J: CallJob>(system: &mut System<D, J>, actor: Actor, side: Side) -> Option<Move>
    requires { MayMove D.seen J.suits system.old.state actor }
    ensures next { move_event actor result ≡ evict_event (core_of D.seen system.old.state) actor side }
    ensures gave { Gave D.seen J.suits system.old.state (move_event actor result) system.new.state }
{
    match system.try_evict(actor, side) {
        Ok(block) => Some(Move::Evicted { side, block }),
        Err(_) => None,
    }
}

/// A copy of the host goes to the drive.
fn demote<D: Die, J: CallJob>(system: &mut System<D, J>, actor: Actor) -> Option<Move>
    requires { MayMove D.seen J.suits system.old.state actor }
    ensures next { move_event actor result ≡ demote_event (core_of D.seen system.old.state) actor }
    ensures gave { Gave D.seen J.suits system.old.state (move_event actor result) system.new.state }
{
    match system.try_demote(actor) {
        Ok(block) => Some(Move::Demoted { block }),
        Err(_) => None,
    }
}

/// A copy of the host goes, or else one goes to the drive.
fn move_host<D: Die, J: CallJob>(system: &mut System<D, J>, actor: Actor) -> Option<Move>
    requires { MayMove D.seen J.suits system.old.state actor }
    ensures next { move_event actor result ≡ or_else (evict_event (core_of D.seen system.old.state) actor AtHost) (demote_event (core_of D.seen system.old.state) actor) }
    ensures gave { Gave D.seen J.suits system.old.state (move_event actor result) system.new.state }
{
    let first = evict(system, actor, Side::Host);
    match first {
        Some(step) => Some(step),
        None => demote(system, actor),
    }
}

/// A copy of the host gives way, where room is wanted there.
fn move_at<D: Die, J: CallJob>(system: &mut System<D, J>, actor: Actor, side: Side) -> Option<Move>
    requires { MayMove D.seen J.suits system.old.state actor }
    ensures next { move_event actor result ≡ by_side side (or_else (evict_event (core_of D.seen system.old.state) actor AtHost) (demote_event (core_of D.seen system.old.state) actor)) None }
    ensures gave { Gave D.seen J.suits system.old.state (move_event actor result) system.new.state }
{
    match side {
        Side::Host => move_host(system, actor),
        Side::Drive => None,
    }
}

/// The first copy that can gives way.
fn try_move<D: Die, J: CallJob>(system: &mut System<D, J>, actor: Actor, side: Side) -> Option<Move>
    requires { MayMove D.seen J.suits system.old.state actor }
    ensures next { move_event actor result ≡ or_else (by_side side (or_else (evict_event (core_of D.seen system.old.state) actor AtHost) (demote_event (core_of D.seen system.old.state) actor)) None) (evict_event (core_of D.seen system.old.state) actor AtDrive) }
    ensures gave { Gave D.seen J.suits system.old.state (move_event actor result) system.new.state }
{
    let first = move_at(system, actor, side);
    match first {
        Some(step) => Some(step),
        None => evict(system, actor, Side::Drive),
    }
}

/// The die of the first unclean block whose die is at home goes out, with a copy of the block's page.
fn send<D: Die, J: CallJob>(system: &mut System<D, J>, actor: Actor, into: &mut Page) -> Given<D>
    requires may { MayMove D.seen J.suits system.old.state actor }
    requires acts { FlushesFor (core_of D.seen system.old.state) actor }
    ensures next { given_event actor result ≡ flush_event (core_of D.seen system.old.state) actor }
    ensures gave { Gave D.seen J.suits system.old.state (given_event actor result) system.new.state }
    ensures sent { (e : Errand D) → result ≡ Sent e → IsSent D.seen J.suits system.old.state actor into.new e system.new.state }
{
    match system.try_flush_out(actor, into) {
        Ok(errand) => Given::Sent { errand },
        Err(_) => Given::Nothing,
    }
}

/// Makes the first possible event for room at a side: for the host a copy of it goes, or goes to the drive; then for either a copy of the
/// drive goes, or a die goes out to flush a block. `Nothing`: none of them is possible.
pub fn try_room<D: Die, J: CallJob>(
    system: &mut System<D, J>,
    actor: Actor,
    side: Side,
    into: &mut Page,
) -> Given<D>
    requires may { MayMove D.seen J.suits system.old.state actor }
    requires acts { FlushesFor (core_of D.seen system.old.state) actor }
    ensures next { given_event actor result ≡ room_event (core_of D.seen system.old.state) actor side }
    ensures gave { Gave D.seen J.suits system.old.state (given_event actor result) system.new.state }
    ensures sent { (e : Errand D) → result ≡ Sent e → IsSent D.seen J.suits system.old.state actor into.new e system.new.state }
{
    let first = try_move(system, actor, side);
    match first {
        Some(step) => Given::Moved { step },
        None => send(system, actor, into),
    }
}
