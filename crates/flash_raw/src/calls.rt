// The calls of one kind, and which of them fail.
ghost use Rattle.std.specs.Prelude.{◌≡◌, ◌+◌, ◌<◌, ◌≤◌, ◌^◌, if◌then◌else◌};
ghost use Rattle.std.specs.List.{All};
ghost use Rattle.flash_die.specs.Failures.{failed_of};
ghost use Rattle.std.proofs.Props.{props};

use flash_die::{bounded, is_listed};

// The number at which the count of calls stays.
const LAST_NUMBER: u64 = 1 << 32;

/// How many calls of a kind were made, and the numbers, counted from 1, of those that fail. The
/// number of calls stays at 2^32 once it is there.
#[derive(Drop)]
pub struct Calls {
    made: u64,
    failing: Vec<u32>,
    ghost ended: { made ≤ 2 ^ 32 },
    ghost small: { All (λ number. number < 2 ^ 32) failing.items } by { Prim.hlevel props },
    ghost counted: { failed_of made failing.items ≤ made },
}

impl Calls {
    ghost use Rattle.flash_raw.specs.Calls.{first_calls, next_fails, after_call};
    ghost use Rattle.flash_raw.specs.Memory.{calls_of};

    /// No call yet, and the numbers of those that will fail.
    pub fn first(failing: Vec<u32>) -> Calls
        ensures calls { calls_of result ≡ first_calls failing.items }
        ensures none { failed_of result.made result.failing.items ≡ 0 }
    {
        Calls {
            made: 0,
            failing: bounded(failing),
        }
    }

    /// Counts a call, and says whether it fails.
    pub fn next_fails(&mut self) -> bool
        ensures fails { result ≡ next_fails (calls_of self.old) }
        ensures after { calls_of self.new ≡ after_call (calls_of self.old) }
        ensures failed { failed_of self.new.made self.new.failing.items
            ≡ failed_of self.old.made self.old.failing.items + (if result then 1 else 0) }
    {
        self.made = (self.made + 1).min(LAST_NUMBER);
        is_listed(self.made, &self.failing)
    }
}
