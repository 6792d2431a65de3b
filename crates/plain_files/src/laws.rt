//! Laws about the definitions. Each is the contract of a function that does nothing.
ghost use Rattle.std.specs.Prelude.{◌≡◌, true};
ghost use Rattle.plain_files.specs.declared.calls.Call.{Call};
ghost use Rattle.plain_files.specs.Plain.{State, answer};
ghost use Rattle.plain_files.specs.Allowed.{is_allowed};

/// The plain machine gives only replies whose form belongs to the call.
pub fn answers_are_allowed()
    ensures { (s : State) (call : Call) → is_allowed call (answer s call).reply ≡ true }
{}
