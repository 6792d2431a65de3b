//! Numbers that look random, each by the one before it.
ghost use Rattle.std.specs.Prelude.{◌≡◌};
ghost use Rattle.bench_script.specs.Draws.{next, first};

// The state that follows, which is the value drawn.
#[tactic(auto, unfolding(crate::specs::Draws::next))]
pub fn next(state: u64) -> u64
    ensures { result ≡ next state }
{
    let left = state ^ (state << 13);
    let right = left ^ (left >> 7);
    right ^ (right << 17)
}

// The first state.
pub fn first(start: u64) -> u64
    ensures { result ≡ first start }
{
    if start == 0 { 1 } else { start }
}
