//! The image of a system's dies.
ghost use Rattle.std.specs.Prelude.{◌≡◌, ℕ, None, Ok, Err, IfOk};
ghost use Rattle.image_format.specs.Image.{mounts_to};
ghost use Rattle.drive_array.specs.declared.gathering.GatherErr.TheVariants.{Die as FailedDie};
ghost use Rattle.core_state.specs.PlainOf.{plain};
ghost use Rattle.system_state.specs.Cores.{core_of};
ghost use Rattle.system_state.specs.Settled.{flash_bytes, mounted_of, Settled};
ghost use Rattle.system_state.specs.Stands.{IsStanding};
ghost use Rattle.mounted_systems.specs.Gathered.{HasStopped, HasGiven};

use drive_array::{GatherErr, gather};
use flash_die::Die;
use std::alloc::Global;
use system_start::into_dies;
use system_state::{CallJob, State};

/// The image of a system's dies, all of which are at home, with no call in flight: the pages of flash in their order. Where all is stored, it
/// mounts to the last files.
///
/// `GatherErr::Die`: that die's count of faults rose at a read of its share; where a plan is told, the plan lists one of these reads. It lists none
/// of any die's after an `Ok`.
pub fn gather_system<D: Die, J: CallJob>(
    alloc: Global,
    state: State<D, J>,
) -> Result<Vec<u8>, GatherErr>
    requires standing { IsStanding D.seen J.suits state }
    requires idle { (lane : ℕ) → (core_of D.seen state).calls lane ≡ None }
    requires home { (d : ℕ) → ((core_of D.seen state).dies d).out ≡ None }
    ensures bytes { IfOk result (λ bytes. bytes.items ≡ flash_bytes (core_of D.seen state)) }
    ensures stopped { (die : ℕ) → result ≡ Err (FailedDie die) → HasStopped D.seen state.meta.geometry state.rack.slots.items die }
    ensures given { IfOk result (λ _. HasGiven D.seen state.meta.geometry state.rack.slots.items) }
    ensures mounts { IfOk result (λ bytes. Settled D.seen state → mounts_to bytes.items ≡ Ok (mounted_of (plain (core_of D.seen state)))) }
{
    let (mut dies, geometry) = into_dies(state);
    gather(alloc, &mut dies, geometry)
}
