//! How the turn of a run begins and ends.
ghost use Rattle.std.specs.Prelude.{◌≡◌, ℕ, true, [], None, IfOk};
ghost use Rattle.turn_cell.specs.Desks.{IsFreeAlone, view_alone, opening_alone};
ghost use Rattle.turn_cell.specs.Passes.{view};
ghost use Rattle.turn_cell.specs.Rule.{first_view};
ghost use Rattle.extent_map.specs.Places.{IsSound};
ghost use Rattle.name_table.specs.Files.{IsTable};
ghost use Rattle.core_solo.specs.Stored.{IsAllStored};
ghost use Rattle.system_state.specs.Cores.{core_of};
ghost use Rattle.system_state.specs.Settled.{Settled as IsAllSettled};
ghost use Rattle.system_state.specs.Stands.{IsStanding, Stands};
ghost use Rattle.system_metas.specs.Encode.{encode};
ghost use Rattle.settling.specs.Books.{opening_in};

use core_images::laws::stored_states_settle;
use flash_die::Die;
use image_format::Meta;
use page_base::NoMemory;
use settling::System;
use std::alloc::{AllocError, Global};
use system_state::CallJob;
use turn_cell::{Alone, Closed};

/// The turn begins with no event, for a system that stands for none.
pub(crate) fn open_turn<D: Die, J: CallJob>(
    alloc: Global,
    system: System<D, J>,
) -> Result<Alone<System<D, J>>, NoMemory>
    requires stands { Stands D.seen J.suits system.state system.state [] }
    ensures free { IfOk result (λ a. IsFreeAlone opening_in a) }
    ensures view { IfOk result (λ a. view_alone a ≡ first_view true 0 (opening_in system)) }
    ensures opening { IfOk result (λ a. opening_alone opening_in a ≡ opening_in system) }
{
    match Alone::new(alloc, system, 0) {
        Ok(alone) => Ok(alone),
        Err(_) => Err(AllocError),
    }
}

// What holds of all meta data by its types.
fn look(meta: &Meta)
    ensures table { IsTable meta.now.names }
    ensures sound { IsSound meta.now.extents }
{
    let _table = meta.names.len();
    let _sound = meta.extents.blocks();
}

/// A system that stands for some history is settled where all is stored, no call is in flight and all dies are at home.
pub fn stored_settles<D: Die, J: CallJob>(system: &System<D, J>)
    requires { IsStanding D.seen J.suits system.now.state }
    ensures { IsAllStored encode (core_of D.seen system.now.state) → ((lane : ℕ) → (core_of D.seen system.now.state).calls lane ≡ None) →
        ((die : ℕ) → ((core_of D.seen system.now.state).dies die).out ≡ None) → IsAllSettled D.seen system.now.state }
{
    stored_states_settle::<D, J>();
    look(&system.state.meta);
}

/// The turn ends. The system stands for its whole history, and is settled where all is stored, no call is in flight and all dies are at home.
pub(crate) fn close_turn<D: Die, J: CallJob>(alone: Alone<System<D, J>>) -> Closed<System<D, J>>
    requires free { IsFreeAlone opening_in alone }
    ensures front { view result.front.pass.value ≡ view_alone alone }
    ensures stands { Stands D.seen J.suits result.book.state (opening_alone opening_in alone).value (view_alone alone).seen }
    ensures settles { IsAllStored encode (core_of D.seen result.book.state) → ((lane : ℕ) → (core_of D.seen result.book.state).calls lane ≡ None) →
        ((die : ℕ) → ((core_of D.seen result.book.state).dies die).out ≡ None) → IsAllSettled D.seen result.book.state }
{
    let closed = alone.close();
    stored_settles(&closed.book);
    closed
}
