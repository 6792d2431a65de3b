//! `predc PRED WIDTH OUT`: the object of code that selects the records which satisfy a predicate.
ghost use Rattle.std.specs.Prelude.{◌≡◌, ◌≤◌};
ghost use Rattle.predicates.specs.Fields.{field_fault};
ghost use Rattle.predicates.specs.Nodes.{nodes};
ghost use Rattle.pred_text.specs.Reading.{read_pred};
ghost use Rattle.stack_top.specs.Decided.{IsFinished, IsDecided};
ghost use Rattle.stack_top.specs.Selecting.{compiled, compiled_text, predc_work};

use crate::assembling::object_acts;
use crate::plan::Plan;
use crate::reading::read_named;
use crate::refusal::Refusal;
use command_words::Width;
use edge_io::{Room, Text};
use pred_compile::{PredErr, compile_pred};
use pred_text::{PredTextErr, read_pred};
use predicates::Pred;
use std::alloc::Global;

#[tactic(auto, using(crate::proofs::Selected::code_allowed, crate::proofs::Selected::field_refused))]
fn compiled(alloc: Global, out: &Text, width: &Width, p: &Pred) -> Result<Plan, Refusal>
    requires { nodes p.now ≤ 200 }
    ensures { IsFinished (compiled out.now width.now p.now (field_fault p.now width.now)) result }
{
    match compile_pred(alloc, p, width.bytes()) {
        Ok(code) => Ok(Plan::of(object_acts(alloc, out, &code)?)),
        Err(PredErr::Nodes { .. }) => unreachable!(),
        Err(PredErr::Field { node }) => Err(Refusal::BadField { node }),
        Err(PredErr::NoMemory) => Err(Refusal::NoMemory),
    }
}

fn compiled_text(alloc: Global, out: &Text, width: &Width, text: &[u8]) -> Result<Plan, Refusal>
    ensures { IsFinished (compiled_text out.now width.now (read_pred text.now)) result }
{
    match read_pred(alloc, text) {
        Ok(p) => compiled(alloc, out, width, &p),
        Err(PredTextErr::Text(fault)) => Err(Refusal::BadPred(fault)),
        Err(PredTextErr::NoMemory) => Err(Refusal::NoMemory),
    }
}

// The plan of `predc PRED WIDTH OUT`.
pub fn predc<R: Room>(
    alloc: Global,
    room: &mut R,
    pred: &Text,
    width: &Width,
    out: &Text,
) -> Result<Plan, Refusal>
    ensures decided { IsDecided (R.names room.old) (R.faults room.old) (R.faults room.new) (predc_work pred.now width.now out.now) result }
    ensures same { R.names room.new ≡ R.names room.old }
    ensures later { R.faults room.old ≤ R.faults room.new }
{
    let text = read_named(alloc, room, pred)?;
    compiled_text(alloc, out, width, &text)
}
