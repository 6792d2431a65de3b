//! How a line of a script is answered.
ghost use Rattle.std.specs.Prelude.{◌≡◌, IfErr};
ghost use Rattle.turn_cell.specs.Desks.{IsFreeAlone, view_alone, opening_alone, table_alone};
ghost use Rattle.turn_cell.specs.Steps.{IsWorn};
ghost use Rattle.system_state.specs.Cores.{core_of};
ghost use Rattle.desk_turns.specs.Passing.{core_seen, Does};
ghost use Rattle.settling.specs.Books.{opening_in};
ghost use Rattle.settling.specs.Words.{IsSmall};
ghost use Rattle.solo_runs.specs.Line.{MayAnswer, LineSays};

use flash_die::Die;
use plain_files::{Numbered, Request};
use settling::System;
use system_state::CallJob;
use turn_cell::{Alone, Worn};

/// What answers the calls of a script, by the only pass of a turn.
pub trait LineCalls<D: Die, J: CallJob> {
    /// Answers the next call of a lane, which is alone: its events are those of the run of one thread. At `Worn` it has made no more than a
    /// whole call has.
    fn answer(
        &mut self,
        alone: &mut Alone<System<D, J>>,
        lane: u32,
        request: &Request,
    ) -> Result<Numbered, Worn>
        requires free { IsFreeAlone opening_in alone.old }
        requires may { MayAnswer (core_seen (core_of D.seen) (opening_alone opening_in alone.old) (view_alone alone.old)) lane request.now }
        requires small { IsSmall (opening_alone opening_in alone.old).value }
        ensures free { IsFreeAlone opening_in alone.new }
        ensures worn { IfErr result (λ x. IsWorn x.count (view_alone alone.new)) }
        ensures turn { (table_alone alone.new ≡ table_alone alone.old) × (opening_alone opening_in alone.new ≡ opening_alone opening_in alone.old) }
        ensures did { Does (view_alone alone.old) (view_alone alone.new) (LineSays D.seen (opening_alone opening_in alone.old) (view_alone alone.old) (view_alone alone.new) lane request.now result) };
}
