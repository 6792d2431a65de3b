//! Predicates, as types.

use sqlite_items::Boxed;

/// How a field is compared with a number, both without a sign.
#[derive(Clone, Copy, Debug, PartialEq, Eq)]
pub enum PredCond {
    Eq,
    Ne,
    Gt,
    Ge,
    Lt,
    Le,
}

/// A predicate over a record.
#[derive(Debug, Drop)]
pub enum Pred {
    /// The field is the record's `size` bytes from `off` on, as a number with the low byte first. It is
    /// compared with `value`.
    Cmp {
        cond: PredCond,
        off: u32,
        size: u32,
        value: u64,
    },
    And(Boxed<Pred>, Boxed<Pred>),
    Or(Boxed<Pred>, Boxed<Pred>),
    Not(Boxed<Pred>),
}
