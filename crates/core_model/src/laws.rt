//! The laws of all runs. Each is the contract of a function that takes and gives nothing.
ghost use Rattle.std.specs.Prelude.{◌≡◌, ℕ, ◌+◌, ◌*◌, ◌≤◌, false, List, length, None};
ghost use Rattle.plain_files.specs.History.{Legal};
ghost use Rattle.core_state.specs.declared.event.Event.{Event};
ghost use Rattle.core_state.specs.State.{Gone, Core};
ghost use Rattle.core_state.specs.PlainOf.{plain};
ghost use Rattle.core_state.specs.Coherent.{Coherent};
ghost use Rattle.core_state.specs.Happens.{Happens, CoreRun};
ghost use Rattle.core_state.specs.History.{calls_of, AreAwaited, failures, faults};
ghost use Rattle.core_pages.specs.Inner.{answers_call};
ghost use Rattle.core_hold.specs.Keeps.{HoldsAfter};

/// Every list of events leads from a coherent core to a coherent one, and raises no block's version by more than twice
/// its length.
pub fn coherent_kept()
    ensures coherent { (c0 c1 : Core) (events : List Event) → Coherent c0 → CoreRun c0 events c1 → Coherent c1 }
    ensures versions { (c0 c1 : Core) (events : List Event) → CoreRun c0 events c1 → (b : ℕ) → (c1.blocks b).version ≤ (c0.blocks b).version + 2 * length events }
{
    core_stores::laws::coherent_kept();
    core_history::laws::versions_bounded();
}

/// The calls of a run from a coherent core are legal on plain files, from its first plain state to its last. Where no call
/// was in flight and no lane had ended one, each lane's awaited calls stand before the calls that await them. Every event
/// other than Quick and End leaves the plain state as it is.
pub fn calls_legal()
    ensures legal { (c0 c1 : Core) (events : List Event) → Coherent c0 → CoreRun c0 events c1 → Legal (plain c0) (calls_of events) (plain c1) }
    ensures awaited { (c0 c1 : Core) (events : List Event) → ((lane : ℕ) → c0.calls lane ≡ None) → ((lane : ℕ) → (c0.lanes lane).ended ≡ 0) →
        CoreRun c0 events c1 → AreAwaited events }
    ensures stays { (c c2 : Core) (e : Event) → Coherent c → Happens c e c2 → answers_call e ≡ false → plain c2 ≡ plain c }
{
    core_stores::laws::calls_legal();
    core_history::laws::calls_awaited();
    core_pages::laws::plain_kept();
}

/// From a coherent core an event of one actor leaves what every other actor holds, but a Report adds to what the call's
/// lane holds what belonged to the worker. A lane that has left stays so under every event.
pub fn hold_kept()
    ensures holds { (e : Event) → HoldsAfter e }
    ensures gone { (c c2 : Core) (e : Event) (lane : ℕ) → Happens c e c2 → (c.lanes lane).stage ≡ Gone → (c2.lanes lane).stage ≡ Gone }
{
    core_hold::laws::hold_kept();
}

/// From a core without a mark, the `fault` replies of a run are at most the reads and writes of dies that failed in it.
pub fn faults_counted()
    ensures { (c0 c1 : Core) (events : List Event) → ((lane : ℕ) → (c0.lanes lane).mark ≡ false) →
        CoreRun c0 events c1 → faults (calls_of events) ≤ failures events }
{
    core_history::laws::faults_counted();
}
