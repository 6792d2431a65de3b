//! A call begins: its buffers are told what it meets.
ghost use Rattle.std.specs.Prelude.{◌≡◌, ◌<◌, ◌≤◌, ◌^◌, ℕ, List, [], true, false, Some, None, is_some, option_copied, option_map, IfSome};
ghost use Rattle.sbpf_insn.specs.Cells.{slots};
ghost use Rattle.plain_files.specs.Plain.{is_too_long};
ghost use Rattle.core_state.specs.State.{Names, Flight, Held};
ghost use Rattle.core_state.specs.Reach.{is_lambda, is_read, is_exclusive, function_for, reach_of as reach_for};
ghost use Rattle.core_state.specs.Hold.{code_of, len_for};
ghost use Rattle.system_state.specs.Cores.{reach_of, claim_of};
ghost use Rattle.system_state.specs.Jobs.{view_of};
ghost use Rattle.call_job.specs.Buffers.{readable_in};
ghost use Rattle.call_job.specs.Prepares.{IsPrepared};
ghost use Rattle.call_job.specs.Suits.{Suits};

use crate::job::Job;
use plain_files::Call;
use sbpf_insn::Code;
use system_state::{Claim, Reach};

/// How many bytes a reading call has of a file of this length.
fn readable_in(call: &Call, reach: &Reach, len: u32) -> u32
    ensures { result ≡ readable_in call.now (reach_of reach.now) len }
{
    match call {
        Call::Read(..) | Call::Readl { .. } => {
            let end = reach.end.min(u128::from(len)) as u64;
            end.saturating_sub(reach.begin) as u32
        }
        _ => 0,
    }
}

/// Copies code, where there is some. Takes no memory.
fn copy_code(into: &mut Code, code: Option<&Code>)
    requires fits { IfSome (option_copied code) (λ c. slots c.insns ≤ into.old.room) }
    ensures some { IfSome (option_copied code.entry) (λ c. into.new.insns ≡ c.insns) }
    ensures none { code.entry ≡ None → into.new.insns ≡ into.old.insns }
    ensures room { into.new.room ≡ into.old.room }
{
    if let Some(code) = code {
        into.copy_from(code);
    }
}

impl Job {
    /// Its call begins with this claim on a file of this length, and with the code of its function if it has one. It then suits the call.
    /// Takes no memory.
    pub fn arm(&mut self, claim: &Claim, len: u32, code: Option<&Code>)
        requires prepared { IsPrepared claim.now.request.value self.old }
        requires short { is_too_long self.old.request.call ≡ false }
        requires reach { reach_of claim.now.reach ≡ reach_for self.old.request.call len }
        requires low { is_exclusive (reach_of claim.now.reach).mode ≡ true → claim.now.reach.end ≤ 2 ^ 28 }
        requires lambda { is_some code ≡ is_lambda self.old.request.call }
        requires code { IfSome (option_copied code) (λ c. slots c.insns ≤ 4096) }
        ensures suits { (names : Names) (call : Flight) → call.claim ≡ claim_of claim.now → call.phase ≡ Held → ((i : ℕ) → i < call.claim.reach.pages → call.gathered i ≡ None) →
            code_of (function_for names.functions self.old.request.call) ≡ option_map (λ c. c.insns) (option_copied code.entry) → len_for names call.claim ≡ len → Suits self.new (view_of names call) }
        ensures fresh { self.new.ran ≡ None }
    {
        self.side = claim.side;
        self.reach = claim.reach;
        self.readable = readable_in(&self.request.call, &claim.reach, len);
        copy_code(&mut self.code, code);
    }
}
