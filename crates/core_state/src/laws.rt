//! Laws of the definitions: each is the contract of an empty function.
ghost use Rattle.std.specs.Prelude.{◌≡◌, ℕ, List};
ghost use Rattle.dispatcher.specs.declared.side.Place.{Place};
ghost use Rattle.core_state.specs.declared.event.Event.{Event};
ghost use Rattle.core_state.specs.State.{Core};
ghost use Rattle.core_state.specs.Coherent.{Coherent};
ghost use Rattle.core_state.specs.Opening.{Image, IsWhole, opening_core};
ghost use Rattle.core_state.specs.Happens.{CoreRun};
ghost use Rattle.core_state.specs.Happens.{after_all};
ghost use Rattle.core_state.specs.SmallRun.{small_core, small_events};

/// A core and a list of events determine the core that they lead to.
#[tactic(auto, using(crate::proofs::Runs::determined))]
pub fn run_determined()
    ensures { (c0 c1 c2 : Core) (events : List Event) → CoreRun c0 events c1 → CoreRun c0 events c2 → c1 ≡ c2 }
{}

/// The opening core of an image without a fault is coherent.
pub fn opening_coherent()
    ensures { (image : Image) (lanes : ℕ) (place : Place) → IsWhole image → Coherent (opening_core image lanes place) }
{}

/// A small run, of two lanes on a drive of one block, happens to its end from an opening core that is coherent:
/// what is asked of cores and of events can be met.
pub fn small_run_ends()
    ensures coherent { Coherent small_core }
    ensures run { CoreRun small_core small_events (after_all small_core small_events) }
{}
