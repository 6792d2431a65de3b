//! A predicate becomes code.

ghost use Rattle.std.specs.Prelude.{◌≡◌, ◌≤◌, true, IfOk};
ghost use Rattle.predicates.specs.Nodes.{nodes};
ghost use Rattle.predicates.specs.Fields.{fields_fit};
ghost use Rattle.pred_compile.specs.Promise.{Compiles, Selects};

use crate::assembling::assemble;
use crate::emitting::emit_program;
use predicates::{Pred, count_nodes, field_fault};
use sbpf_load::{Verified, verify};
use std::alloc::{AllocError, Global};

/// Why a predicate gave no code.
#[derive(Clone, Copy, Debug, PartialEq, Eq)]
pub enum PredErr {
    /// There are more than 200 nodes; the count stands still at 2^64 - 1.
    Nodes { count: u64 },
    /// A record does not have the field of this node, the first such in the order parents before children
    /// and left before right, counted from 0.
    Field { node: u32 },
    /// Memory ran out.
    NoMemory,
}

impl From<AllocError> for PredErr {
    ghost use Rattle.std.specs.Prelude.{◌≡◌};
    ghost use Rattle.pred_compile.specs.declared.compiling.PredErr.TheVariants.{NoMemory};

    ghost from_gives = { λ _ e. e ≡ NoMemory };

    fn from(_: AllocError) -> Self {
        PredErr::NoMemory
    }
}

/// Accepted code that selects the records of this width that satisfy the predicate: over any input it writes
/// their numbers to the output, and returns how many bytes these are.
pub fn compile_pred(alloc: Global, pred: &Pred, width: u32) -> Result<Verified, PredErr>
    requires some { 1 ≤ width }
    requires short { width ≤ 4096 }
    ensures { Compiles result pred.now width }
{
    let count = count_nodes(pred);
    if count > 200 {
        return Err(PredErr::Nodes { count });
    }
    if let Some(node) = field_fault(pred, width) {
        return Err(PredErr::Field { node });
    }
    let verified = compile_sound(alloc, pred, width)?;
    Ok(verified)
}

// The same of a predicate of few nodes whose fields a record has.
fn compile_sound(alloc: Global, pred: &Pred, width: u32) -> Result<Verified, AllocError>
    requires some { 1 ≤ width }
    requires short { width ≤ 4096 }
    requires few { nodes pred.now ≤ 200 }
    requires fit { fields_fit pred.now width ≡ true }
    ensures { IfOk result (λ v. Selects v pred.now width) }
{
    let insns = emit_program(alloc, pred, width)?;
    let code = assemble(alloc, &insns)?;
    match verify(code) {
        Ok(verified) => Ok(verified),
        Err(_) => unreachable!(),
    }
}
