// Laws of the definitions, over all texts.
ghost use Rattle.std.specs.Prelude.{◌≡◌, ◌≢◌, List, ℕ, [], Ok, Err};
ghost use Rattle.sbpf_text.specs.declared.fault.AsmFault.{AsmFault};
ghost use Rattle.sbpf_text.specs.declared.fault.AsmKind.TheVariants as kind;
ghost use Rattle.sbpf_text.specs.Lexing.{lines};
ghost use Rattle.sbpf_text.specs.Asm.{SoFar, nothing, scan, settle, asm};
ghost use Rattle.sbpf_text.specs.SecondPass.{IsSettled};

/// A law: of a text that the first pass takes, the second can find nothing wrong but a label that no line
/// has. So no label is too far for a jump.
pub fn only_labels_are_left()
    ensures settled { (text : List ℕ) (a : SoFar)
        → scan 1 nothing (lines text) ≡ Ok a
        → IsSettled (settle a.labels 1 [] (lines text)) }
    ensures in_reach { (text : List ℕ) (fault : AsmFault)
        → asm text ≡ Err fault
        → fault.kind ≢ kind.Range }
{}
