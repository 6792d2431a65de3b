//! Laws of the definitions, for all code. A law is a function that does nothing: its contract is the law.

ghost use Rattle.std.specs.Prelude.{◌≡◌, ◌↔◌, List, None, Ok};
ghost use Rattle.std.specs.List.{flat_map};
ghost use Rattle.sbpf_insn.specs.declared.insn.Insn.{Insn};
ghost use Rattle.sbpf_insn.specs.Accepted.{IsAccepted};
ghost use Rattle.sbpf_insn.specs.Refusal.{refusal};
ghost use Rattle.sbpf_insn.specs.Decoded.{decoded};
ghost use Rattle.sbpf_insn.specs.Program.{AreProper};
ghost use Rattle.sbpf_insn.specs.Table.{spelling};

/// Code meets the four conditions of accepted code exactly where it has no fault.
pub fn accepted_exactly()
    ensures { (code : List Insn) → (IsAccepted code ↔ (refusal code ≡ None)) }
{}

/// What code is spelled as decodes to that code.
pub fn spelling_decodes()
    ensures { (code : List Insn) → AreProper code → decoded (flat_map spelling code) ≡ Ok code }
{}
