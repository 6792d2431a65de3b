//! Laws: each is the contract of an empty function.
ghost use Rattle.std.specs.Prelude.{◌≡◌, ◌==◌, ◌&&◌, ℕ, Bool, true, false, List, [], ◌∷◌, Some, None};
ghost use Rattle.std.specs.List.{list_any};
ghost use Rattle.edge_io.specs.Memory.{is_listed};
ghost use Rattle.script_words.specs.declared.script.FaultLine.{FaultLine};
ghost use Rattle.command_words.specs.declared.options.DieKind.TheVariants.{Mem, Ftl, Mirror};
ghost use Rattle.fault_lines.specs.Lines.{is_missing, first_missing, is_about, numbers_of, plan_for, distinct_lines};
ghost use Rattle.fault_lines.specs.Worked.{first_read, other_die, second_copy, four_lines};

/// A plan lists a number exactly where a line names that read or write.
pub fn lines_listed()
    ensures { (copy writing : Bool) (die n : ℕ) (lines : List FaultLine) →
        is_listed n (numbers_of copy writing die lines) ≡ list_any (λ line. is_about copy writing die line && (line.nth == n)) lines }
{}

/// Worked lines: over one die in memory a line of die 1 is missing, and so is one of a second copy, which only mirrors have; and what four
/// lines come to, of which two say the same.
pub fn worked_lines()
    ensures memory { (is_missing Mem 1 first_read ≡ false) × (is_missing Mem 1 other_die ≡ true) × (is_missing Mem 2 other_die ≡ false) × (is_missing Mem 2 second_copy ≡ true) }
    ensures flash { is_missing Ftl 2 second_copy ≡ true }
    ensures mirrors { (is_missing Mirror 1 second_copy ≡ false) × (is_missing Mirror 1 other_die ≡ true) }
    ensures first { (first_missing Mem 2 four_lines ≡ Some second_copy) × (first_missing Mem 1 four_lines ≡ Some other_die) × (first_missing Mirror 2 four_lines ≡ None) }
    ensures plans { (plan_for four_lines false 0 ≡ record { reads = 1 ∷ []; writes = [] }) × (plan_for four_lines false 1 ≡ record { reads = []; writes = 7 ∷ [] })
        × (plan_for four_lines true 0 ≡ record { reads = 1 ∷ []; writes = [] }) }
    ensures three { distinct_lines four_lines ≡ 3 }
{}
