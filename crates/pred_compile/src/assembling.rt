//! Instructions become code.

ghost use Rattle.std.specs.Prelude.{◌≡◌, ◌≤◌, true, IfOk};
ghost use Rattle.std.specs.List.{list_all};
ghost use Rattle.sbpf_insn.specs.Cells.{slots};
ghost use Rattle.sbpf_insn.specs.Table.{is_well_formed};

use sbpf_insn::{Code, Insn};
use std::alloc::{AllocError, Global};

/// The code of instructions that are well formed.
pub(crate) fn assemble(alloc: Global, insns: &[Insn]) -> Result<Code, AllocError>
    requires formed { list_all is_well_formed insns.now ≡ true }
    requires short { slots insns.now ≤ 4096 }
    ensures { IfOk result (λ c. c.insns ≡ insns.now) }
{
    let mut code = Code::new(alloc);
    for insn in insns {
        code.push(*insn)?;
    }
    Ok(code)
}
