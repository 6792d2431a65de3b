//! The book: a counter.
ghost use Rattle.std.specs.Prelude.{◌≡◌, ℕ, ◌++◌, ◌∷◌, [], List};
ghost use Rattle.turn_cell.specs.History.{entry};
ghost use Rattle.turn_cell.specs.declared.book.Entry.{Entry};
ghost use Rattle.turn_example.specs.Counting.{Stands, start_of, adding};
ghost use Rattle.turn_example.specs.declared.counter.Add.{Add};
ghost use Rattle.turn_example.specs.declared.counter.Start.{Start};

use std::collections::LinkedList;
use turn_cell::{Book, Note};

/// An amount that an actor added.
pub struct Add {
    pub actor: u64,
    pub amount: u64,
}

/// What a counter starts from: its total, and how many additions it has counted, both modulo 2^64.
pub struct Start {
    pub total: u64,
    pub made: u64,
}

/// A counter that actors add to. Its sums are modulo 2^64.
#[derive(Drop)]
pub struct Counter {
    pub total: u64,
    /// How many additions were made.
    pub made: u64,
    /// The additions since the opening, which only clauses see.
    pub past: Note<LinkedList<Add>>,
}

// The past with one addition more, of an actor and an amount.
fn longer(past: &Note<LinkedList<Add>>, new: &(u64, u64)) -> Note<LinkedList<Add>>
    ensures { result.value ≡ past.now.value ++ adding new.now.0 new.now.1 ∷ [] }
{
    Note::of(past, new)
}

impl Counter {
    /// Adds an amount in the name of an actor.
    pub fn add(&mut self, actor: u64, amount: u64)
        ensures { (o : Start) (h : List (Entry Add)) (n : ℕ) → Stands self.old o h → Stands self.new o (h ++ entry n (adding actor amount) ∷ []) }
    {
        self.total = self.total.wrapping_add(amount);
        self.made = self.made.wrapping_add(1);
        self.past = longer(&self.past, &(actor, amount));
    }
}

impl Book for Counter {
    ghost use Rattle.turn_example.specs.Counting.{Stands, start_of, ActsAs};
    ghost use Rattle.turn_example.specs.Same.{same_events};

    type Opening = Start;

    type Event = Add;

    ghost opening = { start_of };

    ghost stands = { Stands };

    ghost same_events = { same_events };

    ghost may = { ActsAs };

    ghost before = { λ o. o.made };

    fn made(&self) -> u64 {
        self.made
    }
}

// No past.
fn none(_total: u64) -> Note<LinkedList<Add>>
    ensures { result.value ≡ [] }
{
    Note::of(&(), &())
}

/// A counter at a total, with no addition made yet.
pub fn empty(total: u64) -> Counter
    ensures { (result.total ≡ total) × (result.made ≡ 0) × (result.past.value ≡ []) }
{
    Counter {
        total,
        made: 0,
        past: none(total),
    }
}
