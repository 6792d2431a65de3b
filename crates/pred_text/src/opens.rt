//! The connectives that are open at a place of a text.
ghost use Rattle.std.specs.Prelude.{◌≡◌, ◌∷◌, [], OnOk, OnErr};
ghost use Rattle.pred_text.specs.Places.{Popped};

use predicates::Pred;
use std::alloc::{AllocError, Global};
use std::marker::Model;

/// A connective of two predicates.
#[derive(Clone, Copy, Debug, PartialEq, Eq)]
pub enum Join {
    And,
    Or,
}

/// A connective whose predicates aren't all read.
#[derive(Debug, Drop)]
pub enum Open {
    /// Its first predicate is being read.
    First(Join),
    /// Its first predicate was read, and its second is being read.
    Second(Join, Pred),
    /// The predicate of `not` is being read.
    Not,
}

/// Connectives, the innermost first.
#[derive(Drop)]
pub struct Opens {
    // The innermost last.
    items: Vec<Open>,
}

impl Model for Opens {
    ghost use Rattle.std.specs.Prelude.{List, reverse};
    ghost use Rattle.std.specs.Coded.{codes};
    ghost use Rattle.predicates.specs.contracts.pred.Pred as contents;
    ghost use Rattle.pred_text.specs.declared.opens.Open.{Open};

    ghost Value = { List Open };

    ghost coded = { Prim.hlevel (codes, contents.the_row.coded) };

    ghost view = { λ o. reverse o.items.items };
}

impl Opens {
    pub fn new(alloc: Global) -> Self
        ensures { result ≡ [] }
    {
        Opens {
            items: Vec::new(alloc),
        }
    }

    pub fn push(&mut self, first: Open) -> Result<(), AllocError>
        ensures ok { OnOk result (self.new ≡ first ∷ self.old) }
    {
        self.items.push(first)?;
        Ok(())
    }

    // The innermost, which is taken off.
    pub fn pop(&mut self) -> Option<Open>
        ensures { Popped self.old self.new result }
    {
        self.items.pop()
    }
}
