//! Whether records have the fields of a predicate.

ghost use Rattle.std.specs.Prelude.{◌≡◌, ◌+◌, ◌<◌, ◌^◌, true, IfNone};
ghost use Rattle.predicates.specs.Nodes.{nodes, preorder};
ghost use Rattle.predicates.specs.Fields.{is_size, is_field, first_unsound, field_fault, fields_fit};

use crate::nodes::count_nodes;
use crate::pred::Pred;

/// The first node, in the order of `preorder` and from 0, whose field a record of this width does not
/// have; None exactly where a record has all fields.
pub fn field_fault(pred: &Pred, width: u32) -> Option<u32>
    requires { nodes pred.now < 2 ^ 32 }
    ensures first { result ≡ field_fault pred.now width }
    ensures fit { IfNone result (fields_fit pred.now width ≡ true) }
{
    fault_from(pred, width, 0)
}

fn is_field(width: u32, off: u32, size: u32) -> bool
    ensures { result ≡ is_field width off size }
{
    matches!(size, 1 | 2 | 4 | 8) && u64::from(off) + u64::from(size) <= u64::from(width)
}

// The same where the first node has number `node`.
fn fault_from(pred: &Pred, width: u32, node: u32) -> Option<u32>
    requires { node + nodes pred.now < 2 ^ 32 }
    ensures { result ≡ first_unsound width node (preorder pred.now) }
{
    match pred {
        Pred::Cmp { off, size, .. } => {
            if is_field(width, *off, *size) {
                None
            } else {
                Some(node)
            }
        }
        Pred::And(a, b) => match fault_from(a.get(), width, node + 1) {
            None => fault_from(b.get(), width, behind(node, a.get())),
            fault => fault,
        },
        Pred::Or(a, b) => match fault_from(a.get(), width, node + 1) {
            None => fault_from(b.get(), width, behind(node, a.get())),
            fault => fault,
        },
        Pred::Not(a) => fault_from(a.get(), width, node + 1),
    }
}

// The number of the second child of a node whose first child is `first`.
fn behind(node: u32, first: &Pred) -> u32
    requires { node + 1 + nodes first.now < 2 ^ 32 }
    ensures { result ≡ node + 1 + nodes first.now }
{
    node + 1 + count_nodes(first) as u32
}
