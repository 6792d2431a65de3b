//! A place between two tokens of a text.
use crate::opens::Opens;
use predicates::{Pred, PredCond};

/// What may stand next.
#[derive(Debug, Drop)]
pub enum Next {
    /// A predicate.
    Predicate,
    /// The word behind `(`.
    Word,
    /// The offset of a comparison's field.
    Offset(PredCond),
    /// The size of the field at an offset.
    Size(PredCond, u32),
    /// The number with which the field is compared.
    Value(PredCond, u32, u32),
    /// The `)` of a predicate.
    Close(Pred),
    /// No token, since a whole predicate was read.
    End(Pred),
}

/// How many nodes have begun, which connectives are open, and what may stand next.
#[derive(Drop)]
pub struct Place {
    pub nodes: u32,
    pub opens: Opens,
    pub next: Next,
}
