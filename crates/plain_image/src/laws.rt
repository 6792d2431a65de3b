//! Laws about the definitions. Each is the contract of a function that does nothing.
ghost use Rattle.std.specs.Prelude.{ℕ, List, [], ◌≡◌};
ghost use Rattle.plain_files.specs.declared.calls.Call.{Call};
ghost use Rattle.plain_files.specs.History.{Entry, Legal};
ghost use Rattle.plain_files.specs.Plain.{State, answer};
ghost use Rattle.plain_image.specs.Fits.{Fits};

/// The machine without files fits on every drive.
pub fn empty_fits()
    ensures { (blocks : ℕ) → Fits blocks (record { files = []; next = 1; functions = []; capacity = blocks }) }
{}

/// Every answer leaves a state that fits on the drive.
pub fn answers_fit()
    ensures { (blocks : ℕ) (s : State) (call : Call) → Fits blocks s → Fits blocks (answer s call).state }
{}

/// Every legal history ends in a state that fits on the drive.
pub fn histories_fit()
    ensures { (blocks : ℕ) (s last : State) (history : List Entry) → Legal s history last → Fits blocks s → Fits blocks last }
{}
