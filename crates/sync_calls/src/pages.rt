//! How many pages the meta data has.
ghost use Rattle.std.specs.Prelude.{◌≡◌, [], IfOk, IfErr};
ghost use Rattle.turn_cell.specs.Steps.{IsWorn};
ghost use Rattle.page_base.specs.Drive.{meta_pages};
ghost use Rattle.system_state.specs.Cores.{core_of};
ghost use Rattle.desk_turns.specs.Passing.{core_seen, Turn, Went};

use flash_die::Die;
use quick_calls::System;
use system_state::CallJob;
use turn_cell::{Desk, Worn};

/// How many pages the meta data has. It makes no event, so anybody may ask.
pub(crate) fn turn_pages<D: Die, J: CallJob, K: Desk<System<D, J>>>(
    desk: &mut K,
) -> Result<u32, Worn>
    requires free { K.is_free desk.old }
    ensures free { K.is_free desk.new }
    ensures worn { IfErr result (λ x. IsWorn x.count (K.view desk.new)) }
    ensures turn { (K.table desk.new ≡ K.table desk.old) × (K.opening desk.new ≡ K.opening desk.old) }
    ensures went { IfErr result (λ _. Went (K.view desk.old) (K.view desk.new) []) }
    ensures did { IfOk result (λ _. Turn (core_of D.seen) (K.opening desk.old) (K.view desk.old) (K.view desk.new) (λ c es. es ≡ [])) }
    ensures count { IfOk result (λ n. n ≡ meta_pages (K.opening desk.old).value.sizes.blocks) }
{
    let system = desk.take()?;
    let count = system.state.sizes.meta;
    desk.give(system);
    Ok(count)
}
