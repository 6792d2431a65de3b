//! Laws: each is the contract of an empty function.
ghost use Rattle.std.specs.Prelude.{◌≡◌, ℕ, ◌+◌, ◌*◌, ◌≤◌, false, List, length, None};
ghost use Rattle.core_lanes.specs.Event.{Event};
ghost use Rattle.core_lanes.specs.State.{Gone, Core};
ghost use Rattle.core_lanes.specs.Happens.{Happens, CoreRun};
ghost use Rattle.core_lanes.specs.History.{calls_of, AreAwaited, failures, faults};

/// Each event draws at most one number, and that for the call that it ends: the k-th call of a run has the number k plus the last one
/// drawn before.
pub fn calls_numbered()
    ensures { (c0 c1 : Core) (events : List Event) → CoreRun c0 events c1 → c1.last ≡ c0.last + length (calls_of events) }
{}

/// A run raises no block's version by more than twice the number of its events.
pub fn versions_bounded()
    ensures { (c0 c1 : Core) (events : List Event) → CoreRun c0 events c1 → (b : ℕ) → (c1.blocks b).version ≤ (c0.blocks b).version + 2 * length events }
{}

/// From a core in which no call is in flight and no lane has ended a call, each lane's awaited calls stand before the calls that await them.
pub fn calls_awaited()
    ensures { (c0 c1 : Core) (events : List Event) → ((lane : ℕ) → c0.calls lane ≡ None) → ((lane : ℕ) → (c0.lanes lane).ended ≡ 0) →
        CoreRun c0 events c1 → AreAwaited events }
{}

/// From a core without a mark, the `fault` replies of a run are at most the reads and writes of dies that failed in it.
pub fn faults_counted()
    ensures { (c0 c1 : Core) (events : List Event) → ((lane : ℕ) → (c0.lanes lane).mark ≡ false) →
        CoreRun c0 events c1 → faults (calls_of events) ≤ failures events }
{}

/// A lane that has left stays so under every event.
pub fn leaving_kept()
    ensures { (c c2 : Core) (e : Event) (lane : ℕ) → Happens c e c2 → (c.lanes lane).stage ≡ Gone → (c2.lanes lane).stage ≡ Gone }
{}
