//! A text is read, token for token.
ghost use Rattle.std.specs.Prelude.{◌≡◌, ◌≤◌, IfOk};
ghost use Rattle.predicates.specs.Nodes.{nodes};
ghost use Rattle.pred_text.specs.Places.{Steps};
ghost use Rattle.pred_text.specs.Reading.{start, ended, read_pred, ReadsPred};
ghost use Rattle.pred_text.specs.Turns.{is_in_run, step_in};

use crate::fault::{PredFault, PredKind, PredTextErr};
use crate::opens::Opens;
use crate::place::{Next, Place};
use crate::steps::{StepErr, step};
use crate::words::{is_blank, is_paren, run_of};
use predicates::Pred;
use std::alloc::Global;

fn start(alloc: Global) -> Place
    ensures { result ≡ start }
{
    Place {
        nodes: 0,
        opens: Opens::new(alloc),
        next: Next::Predicate,
    }
}

// Whether the byte that was read is of a run.
fn is_in_run(b: u8) -> bool
    ensures { result ≡ is_in_run b }
{
    !is_blank(b) && !is_paren(b)
}

// The token that begins at the first byte that is left, if one does, leads on.
fn step_in(alloc: Global, place: Place, in_run: bool, b: u8, left: &[u8]) -> Result<Place, StepErr>
    ensures { Steps result (step_in place in_run b left.now) }
{
    if is_blank(b) {
        return Ok(place);
    }
    if is_paren(b) {
        return step(alloc, place, &[b]);
    }
    if in_run {
        return Ok(place);
    }
    step(alloc, place, run_of(left))
}

// The predicate that was read when the text ends, at this offset.
fn ended(at: u64, next: Next) -> Result<Pred, PredFault>
    ensures { result ≡ ended at next }
{
    match next {
        Next::End(p) => Ok(p),
        _ => Err(PredFault {
            at,
            kind: PredKind::Form,
        }),
    }
}

// The predicate that a text is, or its first faulty token.
fn read_whole(alloc: Global, text: &[u8]) -> Result<Pred, PredTextErr>
    ensures { ReadsPred result (read_pred text.now) }
{
    let mut place = start(alloc);
    let mut in_run = false;
    for (at, b) in text.iter().enumerate() {
        match step_in(alloc, place, in_run, *b, &text[at..]) {
            Ok(later) => place = later,
            Err(StepErr::Kind(kind)) => {
                let at = at as u64;
                return Err(PredTextErr::Text(PredFault { at, kind }));
            }
            Err(StepErr::NoMemory) => return Err(PredTextErr::NoMemory),
        }
        in_run = is_in_run(*b);
    }
    match ended(text.len() as u64, place.next) {
        Ok(p) => Ok(p),
        Err(fault) => Err(PredTextErr::Text(fault)),
    }
}

/// The predicate that a text is, as `(and P P)`, `(or P P)`, `(not P)` or `(CMP OFF SIZE NUMBER)`, where CMP is `eq`,
/// `ne`, `gt`, `ge`, `lt` or `le`; or its first faulty token. A text whose 201st node begins is refused there.
pub fn read_pred(alloc: Global, text: &[u8]) -> Result<Pred, PredTextErr>
    ensures reads { ReadsPred result (read_pred text.now) }
    ensures few { IfOk result (λ p. nodes p ≤ 200) }
{
    read_whole(alloc, text)
}
