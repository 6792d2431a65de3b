//! How many nodes a predicate has.

ghost use Rattle.std.specs.Prelude.{◌≡◌, ◌+◌, ◌^◌, ◌-◌, min};
ghost use Rattle.predicates.specs.Nodes.{nodes};

use crate::pred::Pred;

/// The comparisons and connectives of a predicate. The count stands still at 2^64 - 1.
pub fn count_nodes(pred: &Pred) -> u64
    ensures { result ≡ min (nodes pred.now) (2 ^ 64 - 1) }
{
    match pred {
        Pred::Cmp { .. } => 1,
        Pred::And(a, b) => joined(count_nodes(a.get()), count_nodes(b.get())),
        Pred::Or(a, b) => joined(count_nodes(a.get()), count_nodes(b.get())),
        Pred::Not(a) => joined(count_nodes(a.get()), 0),
    }
}

// One node more than two predicates have.
fn joined(a: u64, b: u64) -> u64
    ensures { result ≡ min (1 + (a + b)) (2 ^ 64 - 1) }
{
    a.saturating_add(b).saturating_add(1)
}
