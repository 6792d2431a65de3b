//! The records that satisfy a predicate.

ghost use Rattle.std.specs.Prelude.{◌≡◌, ◌+◌, ◌*◌, ◌<◌, ◌≤◌, ◌^◌, true, length, IfOk};
ghost use Rattle.predicates.specs.Fields.{is_field, fields_fit};
ghost use Rattle.predicates.specs.Select.{field, holds, satisfies, is_selected, select};

use crate::pred::{Pred, PredCond};
use std::alloc::{AllocError, Global};

/// Whether a record satisfies the predicate.
pub fn satisfies(pred: &Pred, bytes: &[u8]) -> bool
    requires { fields_fit pred.now (length bytes.now) ≡ true }
    ensures { result ≡ satisfies pred.now bytes.now }
{
    match pred {
        Pred::Cmp {
            cond,
            off,
            size,
            value,
        } => holds(*cond, field(bytes, *off as usize, *size), *value),
        Pred::And(a, b) => satisfies(a.get(), bytes) && satisfies(b.get(), bytes),
        Pred::Or(a, b) => satisfies(a.get(), bytes) || satisfies(b.get(), bytes),
        Pred::Not(a) => !satisfies(a.get(), bytes),
    }
}

fn holds(cond: PredCond, a: u64, b: u64) -> bool
    ensures { result ≡ holds cond a b }
{
    match cond {
        PredCond::Eq => a == b,
        PredCond::Ne => a != b,
        PredCond::Gt => a > b,
        PredCond::Ge => a >= b,
        PredCond::Lt => a < b,
        PredCond::Le => a <= b,
    }
}

fn field(bytes: &[u8], off: usize, size: u32) -> u64
    requires { is_field (length bytes.now) off size ≡ true }
    ensures { result ≡ field bytes.now off size }
{
    let part = &bytes[off..off + size as usize];
    match part {
        [a] => u64::from(*a),
        [a, b] => u64::from(u16::from_le_bytes([*a, *b])),
        [a, b, c, d] => u64::from(u32::from_le_bytes([*a, *b, *c, *d])),
        [a, b, c, d, e, f, g, h] => u64::from_le_bytes([*a, *b, *c, *d, *e, *f, *g, *h]),
        _ => 0,
    }
}

/// The numbers of the records of this width that satisfy the predicate, rising from 0. A shorter rest is
/// no record.
pub fn select(alloc: Global, pred: &Pred, width: u32, input: &[u8]) -> Result<Vec<u32>, AllocError>
    requires some { 1 ≤ width }
    requires fit { fields_fit pred.now width ≡ true }
    requires short { length input.now ≤ 2 ^ 32 }
    ensures { IfOk result (λ v. v.items ≡ select pred.now width input.now) }
{
    let width = width as usize;
    let records = input.len() / width;
    let mut numbers = Vec::new(alloc);
    for number in 0..records {
        if is_selected(pred, width, input, number) {
            numbers.push(number as u32)?;
        }
    }
    Ok(numbers)
}

// Whether the record of this number satisfies the predicate.
fn is_selected(pred: &Pred, width: usize, input: &[u8], number: usize) -> bool
    requires fit { fields_fit pred.now width ≡ true }
    requires within { number * width + width ≤ length input.now }
    ensures { result ≡ is_selected pred.now width input.now number }
{
    let start = number * width;
    satisfies(pred, &input[start..start + width])
}
