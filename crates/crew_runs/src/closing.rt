//! How a run ends: by its first pass, once the passes of all posts are joined to it.
ghost use Rattle.std.specs.Prelude.{◌≡◌, ℕ, [], None, IfOk, IfErr};
ghost use Rattle.turn_cell.specs.Desks.{IsFreeAt};
ghost use Rattle.turn_cell.specs.Passes.{opening_of, view};
ghost use Rattle.turn_cell.specs.Steps.{IsWorn, SeesAllowed};
ghost use Rattle.turn_cell.specs.Teams.{IsWhole};
ghost use Rattle.core_solo.specs.Stored.{IsAllStored};
ghost use Rattle.system_state.specs.Cores.{core_of};
ghost use Rattle.system_state.specs.Settled.{Settled as IsAllSettled};
ghost use Rattle.system_state.specs.Stands.{Stands};
ghost use Rattle.system_metas.specs.Encode.{encode};
ghost use Rattle.desk_turns.specs.Passing.{May, Does, Went};
ghost use Rattle.page_steps.specs.Books.{opening_in};
ghost use Rattle.page_steps.specs.Words.{IsSmall};
ghost use Rattle.crews.specs.Seats.{view_at, opening_at, table_at, IsFreeSeat, IsUntouched};
ghost use Rattle.crew_runs.specs.Ending.{IsFirst, SeesClosing, CloseSays};

use crews::look;
use flash_die::Die;
use page_base::Page;
use page_steps::System;
use settling::{Settled, settle};
use solo_runs::stored_settles;
use std::sync::Wait;
use system_state::CallJob;
use turn_cell::{Closed, Desk, Pass, Seated, Turn, Worn};

/// Waits until the system is closing, and makes no event.
fn wait_closing<'a, D: Die, J: CallJob, R: Wait>(
    desk: &mut Seated<'a, System<D, J>, R>,
) -> Result<(), Worn>
    requires free { IsFreeSeat desk.old }
    requires first { IsFirst (view_at desk.old) }
    requires untouched { IsUntouched (core_of D.seen (opening_at desk.old).value) }
    ensures free { IsFreeSeat desk.new }
    ensures worn { IfErr result (λ x. IsWorn x.count (view_at desk.new)) }
    ensures turn { (table_at desk.new ≡ table_at desk.old) × (opening_at desk.new ≡ opening_at desk.old) }
    ensures went { Went (view_at desk.old) (view_at desk.new) [] }
    ensures closing { IfOk result (λ _. SeesClosing D.seen (opening_at desk.old) (view_at desk.old) (view_at desk.new)) }
{
    let rt = desk.runtime();
    for _ in rt.forever() {
        let closes = look(desk)?;
        if closes {
            return Ok(());
        }
        desk.pause();
    }
    unreachable!()
}

/// Ends the run by way of `page`: waits until the system is closing, and makes the last sync where `settles` is set.
fn end_run<'a, D: Die, J: CallJob, R: Wait>(
    desk: &mut Seated<'a, System<D, J>, R>,
    page: &mut Page,
    settles: bool,
) -> Result<Settled, Worn>
    requires free { IsFreeSeat desk.old }
    requires first { IsFirst (view_at desk.old) }
    requires untouched { IsUntouched (core_of D.seen (opening_at desk.old).value) }
    requires small { IsSmall (opening_at desk.old).value }
    ensures free { IsFreeSeat desk.new }
    ensures worn { IfErr result (λ x. IsWorn x.count (view_at desk.new)) }
    ensures turn { (table_at desk.new ≡ table_at desk.old) × (opening_at desk.new ≡ opening_at desk.old) }
    ensures did { Does (view_at desk.old) (view_at desk.new) (CloseSays D.seen (opening_at desk.old) (view_at desk.old) (view_at desk.new) settles result) }
{
    wait_closing(desk)?;
    if settles {
        return settle(desk, page);
    }
    Ok(Settled::NotAsked)
}

/// The same by the first pass of a turn.
pub(crate) fn end_turn<D: Die, J: CallJob, R: Wait>(
    rt: &R,
    turn: &Turn<System<D, J>>,
    root: Pass<System<D, J>>,
    page: &mut Page,
    settles: bool,
) -> (Pass<System<D, J>>, Result<Settled, Worn>)
    requires free { IsFreeAt opening_in turn.now root }
    requires first { IsFirst (view root) }
    requires untouched { IsUntouched (core_of D.seen (opening_of opening_in turn.now).value) }
    requires small { IsSmall (opening_of opening_in turn.now).value }
    ensures free { IsFreeAt opening_in turn.now result.0 }
    ensures worn { IfErr result.1 (λ x. IsWorn x.count (view result.0)) }
    ensures did { Does (view root) (view result.0) (CloseSays D.seen (opening_of opening_in turn.now) (view root) (view result.0) settles result.1) }
{
    let mut desk = Seated::new(rt, turn, root);
    let ended = end_run(&mut desk, page, settles);
    (desk.into_pass(), ended)
}

/// The turn ends. The system stands for its whole history, and is settled where all is stored, no call is in flight and all dies are at home.
pub(crate) fn close_turn<D: Die, J: CallJob>(
    turn: Turn<System<D, J>>,
    root: Pass<System<D, J>>,
) -> Closed<System<D, J>>
    requires free { IsFreeAt opening_in turn root }
    requires first { ((view root).number ≡ 0) × ((view root).split ≡ []) }
    ensures front { result.front.pass.value ≡ root }
    ensures stands { Stands D.seen J.suits result.book.state (opening_of opening_in turn).value (view root).seen }
    ensures whole { IsWhole (view root) }
    ensures allowed { SeesAllowed (May (core_of D.seen)) (opening_of opening_in turn) (view root) }
    ensures settles { IsAllStored encode (core_of D.seen result.book.state) → ((lane : ℕ) → (core_of D.seen result.book.state).calls lane ≡ None) →
        ((die : ℕ) → ((core_of D.seen result.book.state).dies die).out ≡ None) → IsAllSettled D.seen result.book.state }
{
    let closed = turn.close(root);
    stored_settles(&closed.book);
    closed
}
