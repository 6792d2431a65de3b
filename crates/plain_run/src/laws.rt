//! Laws about the definitions. Each is the contract of a function that does nothing.
ghost use Rattle.std.specs.Prelude.{◌≤◌};
ghost use Rattle.plain_files.specs.declared.calls.Call.{Call};
ghost use Rattle.plain_files.specs.Plain.{State, answer};
ghost use Rattle.plain_run.specs.Order.{IsInOrder};

/// Every answer leaves the files by rising id, and the next id never falls: an id is used once.
pub fn ids_rise()
    ensures { (s : State) (call : Call) → IsInOrder s → IsInOrder (answer s call).state × (s.next ≤ (answer s call).state.next) }
{}
