//! Code that may be run.

ghost use Rattle.std.specs.Prelude.{◌≡◌, Some, None, IfOk, IfErr};
ghost use Rattle.sbpf_insn.specs.Cells.{slots};
ghost use Rattle.sbpf_insn.specs.Refusal.{refusal, fault_from};

use crate::rules::slot_fault;
use sbpf_insn::{Code, VerifyFault, VerifyKind};
use std::marker::Model;

/// Accepted code. Contracts see its list of instructions.
#[derive(Drop)]
pub struct Verified {
    code: Code,
}

impl Model for Verified {
    ghost use Rattle.std.specs.Prelude.{◌≡◌, List, None};
    ghost use Rattle.sbpf_insn.specs.declared.insn.Insn.{Insn};

    ghost Value = { List Insn };

    ghost use Rattle.sbpf_insn.specs.Refusal.{refusal};

    ghost view = { λ v. v.code.insns };

    ghost invariant = { λ v. refusal v.code.insns ≡ None };
}

/// Code that may not be run, and its first fault.
#[derive(Drop)]
pub struct Unverified {
    pub code: Code,
    pub fault: VerifyFault,
}

/// The code, exactly where it has no fault; else the code again with its first fault. Takes no memory.
pub fn verify(code: Code) -> Result<Verified, Unverified>
    ensures ok { IfOk result (λ v. (v ≡ code.insns) × (refusal code.insns ≡ None)) }
    ensures fault { IfErr result (λ u. (u.code ≡ code) × (refusal code.insns ≡ Some u.fault)) }
{
    match first_fault(&code) {
        None => Ok(Verified { code }),
        Some(fault) => Err(Unverified { code, fault }),
    }
}

impl Verified {
    ghost use Rattle.sbpf_insn.specs.Accepted.{IsAccepted};

    /// The code, which meets the four conditions of accepted code.
    #[tactic(auto, using(sbpf_insn::proofs::AcceptedLaws::accepted))]
    pub fn code(&self) -> &Code
        ensures code { result.now.insns ≡ self.now }
        ensures accepted { IsAccepted result.now.insns }
        ensures unrefused { refusal self.now ≡ None }
    {
        &self.code
    }
}

fn first_fault(code: &Code) -> Option<VerifyFault>
    ensures { result ≡ refusal code.now.insns }
{
    let count = code.slots();
    if count == 0 {
        return Some(VerifyFault {
            slot: 0,
            kind: VerifyKind::Empty,
        });
    }
    if count > 4096 {
        return Some(VerifyFault {
            slot: 4096,
            kind: VerifyKind::TooLong,
        });
    }
    first_by_slot(code)
}

fn first_by_slot(code: &Code) -> Option<VerifyFault>
    ensures { result ≡ fault_from code.now.insns 0 (slots code.now.insns) }
{
    let count = code.slots();
    for slot in 0..count {
        if let Some(kind) = slot_fault(code, slot) {
            return Some(VerifyFault { slot, kind });
        }
    }
    None
}
