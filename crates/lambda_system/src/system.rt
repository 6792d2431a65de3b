//! The system: how it starts, what it tells, and how it ends.
ghost use Rattle.std.specs.Prelude.{◌≡◌, ◌≤◌, ◌<◌, [], ℕ, IfOk, IsTrue, ◌↔◌, None};
ghost use Rattle.core_state.specs.State.{Gone};
ghost use Rattle.system_state.specs.Cores.{core_of};
ghost use Rattle.system_state.specs.Stands.{IsStanding, Stands};
ghost use Rattle.system_start.specs.Started.{at_home, MayStart, opening_on};
ghost use Rattle.system_start.specs.Fresh.{no_places};
ghost use Rattle.system_lanes.specs.Leaving.{have_left};

use flash_die::Die;
use image_format::Meta;
use page_base::{Geometry, NoMemory};
use std::alloc::Global;
use system_start::{Options, into_dies, start};
use system_state::{CallJob, Places, State};

/// The system of a drive, over dies of one kind and jobs of one kind, as the passes of a turn hand it on.
#[derive(Drop)]
pub struct System<D, J> {
    pub state: State<D, J>,
}

impl<D: Die, J: CallJob> System<D, J> {
    /// The system of a drive that was just mounted, over dies that have its image: it stands for the opening core of the image, and no
    /// event. Its lanes are 0 to `options.lanes` - 1, at most 32. After it no method takes memory.
    pub fn start(
        alloc: Global,
        dies: Vec<D>,
        meta: Meta,
        options: Options,
    ) -> Result<System<D, J>, NoMemory>
        requires lanes { options.lanes ≤ 32 }
        requires drive { MayStart D.seen dies.items meta }
        ensures core { IfOk result (λ s. core_of D.seen s.state ≡ opening_on D.seen dies.items meta options.lanes options.place) }
        ensures stands { IfOk result (λ s. Stands D.seen J.suits s.state s.state []) }
        ensures counts { IfOk result (λ s. s.state.places ≡ no_places) }
        ensures dies { IfOk result (λ s. s.state.rack.slots.items ≡ at_home dies.items) }
        ensures meta { IfOk result (λ s. s.state.meta ≡ meta) }
    {
        let state = start(alloc, dies, meta, options)?;
        Ok(System { state })
    }

    /// Whether every lane has left.
    pub fn closing(&self) -> bool
        requires { IsStanding D.seen J.suits self.now.state }
        ensures value { result ≡ have_left (core_of D.seen self.now.state) }
        ensures left { IsTrue result ↔ ((lane : ℕ) → lane < self.now.state.sizes.lanes → ((core_of D.seen self.now.state).lanes lane).stage ≡ Gone) }
    {
        system_lanes::closing(&self.state)
    }

    /// The numbers of the drive's blocks and dies.
    pub fn geometry(&self) -> Geometry
        ensures { result ≡ self.now.state.meta.geometry }
    {
        self.state.meta.geometry
    }

    /// How many calls with a function began at each side, and how often dies were read and written.
    pub fn places(&self) -> Places
        ensures { result ≡ self.now.state.places }
    {
        self.state.places
    }

    /// Hands the dies back in their order, all of which are at home, with the geometry. It takes no memory.
    pub fn into_dies(self) -> (Vec<D>, Geometry)
        requires standing { IsStanding D.seen J.suits self.state }
        requires idle { (lane : ℕ) → (core_of D.seen self.state).calls lane ≡ None }
        requires home { (d : ℕ) → ((core_of D.seen self.state).dies d).out ≡ None }
        ensures dies { at_home result.0.items ≡ self.state.rack.slots.items }
        ensures geometry { result.1 ≡ self.state.meta.geometry }
    {
        into_dies(self.state)
    }
}
