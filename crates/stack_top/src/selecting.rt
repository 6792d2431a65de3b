//! `select IMAGE FILE PRED WIDTH`: the numbers of the records of a file that satisfy a predicate.
ghost use Rattle.std.specs.Prelude.{◌≡◌, ◌≤◌, ◌^◌, length};
ghost use Rattle.std.specs.List.{AllByRecursion};
ghost use Rattle.plain_files.specs.Plain.{file_of};
ghost use Rattle.plain_image.specs.Fits.{IsFile};
ghost use Rattle.predicates.specs.Fields.{field_fault};
ghost use Rattle.predicates.specs.Nodes.{nodes};
ghost use Rattle.pred_text.specs.Reading.{read_pred};
ghost use Rattle.stack_top.specs.Decided.{IsFinished, IsDecided};
ghost use Rattle.stack_top.specs.Selecting.{selected, selected_text, selects_from, selects_in, select_work};

use crate::acts::print;
use crate::images::read_image;
use crate::plan::Plan;
use crate::reading::read_named;
use crate::refusal::Refusal;
use command_words::Width;
use edge_io::{Room, Text};
use plain_run::Plain;
use pred_text::{PredTextErr, read_pred};
use predicates::{Pred, field_fault};
use select_lines::{file_named, selected_lines};
use std::alloc::Global;

fn selected(alloc: Global, bytes: &[u8], width: &Width, p: &Pred) -> Result<Plan, Refusal>
    requires few { nodes p.now ≤ 200 }
    requires short { length bytes.now ≤ 2 ^ 28 }
    ensures { IsFinished (selected bytes.now width.now p.now (field_fault p.now width.now)) result }
{
    let width = width.bytes();
    if let Some(node) = field_fault(p, width) {
        return Err(Refusal::BadField { node });
    }
    let lines = selected_lines(alloc, p, width, bytes)?;
    Ok(Plan::of(print(alloc, lines)?))
}

fn selected_text(alloc: Global, bytes: &[u8], width: &Width, text: &[u8]) -> Result<Plan, Refusal>
    requires { length bytes.now ≤ 2 ^ 28 }
    ensures { IsFinished (selected_text bytes.now width.now (read_pred text.now)) result }
{
    match read_pred(alloc, text) {
        Ok(p) => selected(alloc, bytes, width, &p),
        Err(PredTextErr::Text(fault)) => Err(Refusal::BadPred(fault)),
        Err(PredTextErr::NoMemory) => Err(Refusal::NoMemory),
    }
}

// The plan of PRED, over the bytes of a file.
fn selects_from<R: Room>(
    alloc: Global,
    room: &mut R,
    bytes: &[u8],
    pred: &Text,
    width: &Width,
) -> Result<Plan, Refusal>
    requires { length bytes.now ≤ 2 ^ 28 }
    ensures decided { IsDecided (R.names room.old) (R.faults room.old) (R.faults room.new) (selects_from bytes.now pred.now width.now) result }
    ensures same { R.names room.new ≡ R.names room.old }
    ensures later { R.faults room.old ≤ R.faults room.new }
{
    let text = read_named(alloc, room, pred)?;
    selected_text(alloc, bytes, width, &text)
}

// The plan of FILE and PRED, over a machine.
#[tactic(auto, using(crate::proofs::Selected::file_short, crate::proofs::Selected::found_decided, crate::proofs::Selected::none_decided))]
fn selects_in<R: Room>(
    alloc: Global,
    room: &mut R,
    plain: &Plain,
    file: &Text,
    pred: &Text,
    width: &Width,
) -> Result<Plan, Refusal>
    requires few { length plain.now.files ≤ 4096 }
    requires each { AllByRecursion IsFile plain.now.files }
    ensures decided { IsDecided (R.names room.old) (R.faults room.old) (R.faults room.new) (selects_in (file_of file.now plain.now.files) pred.now width.now) result }
    ensures same { R.names room.new ≡ R.names room.old }
    ensures later { R.faults room.old ≤ R.faults room.new }
{
    match file_named(plain, file.as_str().as_bytes()) {
        Some(file) => selects_from(alloc, room, file.bytes.as_slice(), pred, width),
        None => Err(Refusal::NoFile),
    }
}

// The plan of `select IMAGE FILE PRED WIDTH`.
pub fn select<R: Room>(
    alloc: Global,
    room: &mut R,
    image: &Text,
    file: &Text,
    pred: &Text,
    width: &Width,
) -> Result<Plan, Refusal>
    ensures decided { IsDecided (R.names room.old) (R.faults room.old) (R.faults room.new) (select_work image.now file.now pred.now width.now) result }
    ensures same { R.names room.new ≡ R.names room.old }
    ensures later { R.faults room.old ≤ R.faults room.new }
{
    let opened = read_image(alloc, room, image)?;
    let plain = opened.drive.plain;
    selects_in(alloc, room, &plain, file, pred, width)
}
