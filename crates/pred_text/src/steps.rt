//! Where a token leads.
ghost use Rattle.std.specs.Prelude.{◌≡◌, ◌≤◌, ◌-◌, ◌^◌, ◌∷◌, IfOk, Ok};
ghost use Rattle.predicates.specs.declared.pred.Pred.{Cmp};
ghost use Rattle.predicates.specs.declared.pred.Pred.TheVariants.{Not};
ghost use Rattle.pred_text.specs.declared.place.Next.TheVariants.{Predicate, Size, Value, Close};
ghost use Rattle.pred_text.specs.Places.{place, joined, at_predicate, at_word, at_close, number, with_number, closed_in, step, Steps};

use crate::fault::PredKind;
use crate::opens::{Join, Open, Opens};
use crate::place::{Next, Place};
use crate::words::{cond_of, is_open, is_shut};
use predicates::{Pred, PredCond};
use script_words::number_in;
use sqlite_items::Boxed;
use std::alloc::{AllocError, Global};

/// The most nodes of a predicate.
const MOST_NODES: u32 = 200;

/// Why a token leads nowhere.
#[derive(Clone, Copy, Debug, PartialEq, Eq)]
pub enum StepErr {
    /// It may not stand there.
    Kind(PredKind),
    /// Memory ran out.
    NoMemory,
}

impl From<AllocError> for StepErr {
    ghost use Rattle.std.specs.Prelude.{◌≡◌};
    ghost use Rattle.pred_text.specs.declared.steps.StepErr.TheVariants.{NoMemory};

    ghost from_gives = { λ _ e. e ≡ NoMemory };

    fn from(_: AllocError) -> Self {
        StepErr::NoMemory
    }
}

#[tactic(auto, unfolding(crate::specs::Places::at_predicate))]
fn at_predicate(nodes: u32, opens: Opens, word: &[u8]) -> Result<Place, StepErr>
    ensures { Steps result (at_predicate nodes opens word.now) }
{
    if !is_open(word) {
        return Err(StepErr::Kind(PredKind::Form));
    }
    if nodes >= MOST_NODES {
        return Err(StepErr::Kind(PredKind::Nodes));
    }
    Ok(Place {
        nodes: nodes + 1,
        opens,
        next: Next::Word,
    })
}

// A connective is open, and its first predicate may stand next.
fn opened(nodes: u32, opens: Opens, with: Open) -> Result<Place, StepErr>
    ensures { Steps result (Ok (place nodes (with ∷ opens) Predicate)) }
{
    let mut opens = opens;
    opens.push(with)?;
    Ok(Place {
        nodes,
        opens,
        next: Next::Predicate,
    })
}

#[tactic(auto, unfolding(crate::specs::Places::at_word))]
fn at_word(nodes: u32, opens: Opens, word: &[u8]) -> Result<Place, StepErr>
    ensures { Steps result (at_word nodes opens word.now) }
{
    if word == b"and".as_slice() {
        return opened(nodes, opens, Open::First(Join::And));
    }
    if word == b"or".as_slice() {
        return opened(nodes, opens, Open::First(Join::Or));
    }
    if word == b"not".as_slice() {
        return opened(nodes, opens, Open::Not);
    }
    match cond_of(word) {
        Some(cond) => Ok(Place {
            nodes,
            opens,
            next: Next::Offset(cond),
        }),
        None => Err(StepErr::Kind(PredKind::Form)),
    }
}

// A number up to a greatest one.
#[tactic(auto, unfolding(crate::specs::Places::number))]
fn number(most: u64, word: &[u8]) -> Result<u64, PredKind>
    ensures is { result ≡ number most word.now }
    ensures within { IfOk result (λ n. n ≤ most) }
{
    if is_open(word) || is_shut(word) {
        return Err(PredKind::Form);
    }
    match number_in(0, most, word) {
        Some(n) => Ok(n),
        None => Err(PredKind::Number),
    }
}

fn at_offset(nodes: u32, opens: Opens, cond: PredCond, word: &[u8]) -> Result<Place, StepErr>
    ensures { Steps result (with_number nodes opens (λ off. Size cond off) (number (2 ^ 32 - 1) word.now)) }
{
    match number(u64::from(u32::MAX), word) {
        Ok(off) => Ok(Place {
            nodes,
            opens,
            next: Next::Size(cond, off as u32),
        }),
        Err(kind) => Err(StepErr::Kind(kind)),
    }
}

fn at_size(
    nodes: u32,
    opens: Opens,
    cond: PredCond,
    off: u32,
    word: &[u8],
) -> Result<Place, StepErr>
    ensures { Steps result (with_number nodes opens (λ size. Value cond off size) (number (2 ^ 32 - 1) word.now)) }
{
    match number(u64::from(u32::MAX), word) {
        Ok(size) => Ok(Place {
            nodes,
            opens,
            next: Next::Value(cond, off, size as u32),
        }),
        Err(kind) => Err(StepErr::Kind(kind)),
    }
}

fn at_value(
    nodes: u32,
    opens: Opens,
    field: (PredCond, u32, u32),
    word: &[u8],
) -> Result<Place, StepErr>
    ensures { Steps result (with_number nodes opens (λ value. Close (Cmp field.0 field.1 field.2 value)) (number (2 ^ 64 - 1) word.now)) }
{
    let (cond, off, size) = field;
    match number(u64::MAX, word) {
        Ok(value) => Ok(Place {
            nodes,
            opens,
            next: Next::Close(Pred::Cmp {
                cond,
                off,
                size,
                value,
            }),
        }),
        Err(kind) => Err(StepErr::Kind(kind)),
    }
}

fn joined(alloc: Global, join: Join, a: Pred, b: Pred) -> Result<Pred, AllocError>
    ensures { IfOk result (λ p. p ≡ joined join a b) }
{
    let a = Boxed::new(alloc, a)?;
    let b = Boxed::new(alloc, b)?;
    match join {
        Join::And => Ok(Pred::And(a, b)),
        Join::Or => Ok(Pred::Or(a, b)),
    }
}

fn inverse(alloc: Global, p: Pred) -> Result<Pred, AllocError>
    ensures { IfOk result (λ q. q ≡ Not p) }
{
    Ok(Pred::Not(Boxed::new(alloc, p)?))
}

// What a predicate that was read leaves, by the innermost connective, which was taken off.
fn closed_in(
    alloc: Global,
    nodes: u32,
    opens: Opens,
    innermost: Option<Open>,
    p: Pred,
) -> Result<Place, StepErr>
    ensures { Steps result (Ok (closed_in nodes opens innermost p)) }
{
    let mut opens = opens;
    let next = match innermost {
        None => Next::End(p),
        Some(Open::First(join)) => {
            opens.push(Open::Second(join, p))?;
            Next::Predicate
        }
        Some(Open::Second(join, a)) => Next::Close(joined(alloc, join, a, p)?),
        Some(Open::Not) => Next::Close(inverse(alloc, p)?),
    };
    Ok(Place { nodes, opens, next })
}

fn at_close(alloc: Global, nodes: u32, opens: Opens, p: Pred, word: &[u8]) -> Result<Place, StepErr>
    ensures { Steps result (at_close nodes opens p word.now) }
{
    if !is_shut(word) {
        return Err(StepErr::Kind(PredKind::Form));
    }
    let mut opens = opens;
    let innermost = opens.pop();
    closed_in(alloc, nodes, opens, innermost, p)
}

// A token at a place.
pub fn step(alloc: Global, place: Place, word: &[u8]) -> Result<Place, StepErr>
    ensures { Steps result (step place word.now) }
{
    let Place { nodes, opens, next } = place;
    match next {
        Next::Predicate => at_predicate(nodes, opens, word),
        Next::Word => at_word(nodes, opens, word),
        Next::Offset(cond) => at_offset(nodes, opens, cond, word),
        Next::Size(cond, off) => at_size(nodes, opens, cond, off, word),
        Next::Value(cond, off, size) => at_value(nodes, opens, (cond, off, size), word),
        Next::Close(p) => at_close(alloc, nodes, opens, p, word),
        Next::End(_) => Err(StepErr::Kind(PredKind::Form)),
    }
}
