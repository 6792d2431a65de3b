// Lines of what a drive lacks.
ghost use Rattle.std.specs.Prelude.{◌≡◌, option_copied};
ghost use Rattle.fault_lines.specs.Lines.{has_copies, is_missing, first_missing};

use command_words::DieKind;
use script_words::FaultLine;

// Whether each die of this kind has a second copy.
fn has_copies(kind: DieKind) -> bool
    ensures { result ≡ has_copies kind }
{
    match kind {
        DieKind::Mem | DieKind::Ftl => false,
        DieKind::Mirror => true,
    }
}

/// Whether a drive of so many dies of this kind lacks the die of the line, or its second copy.
pub fn is_missing(kind: DieKind, dies: u32, line: &FaultLine) -> bool
    ensures { result ≡ is_missing kind dies line.now }
{
    (line.copy && !has_copies(kind)) || line.die >= dies
}

/// The first line of a die, or of a second copy, that a drive of so many dies of this kind lacks.
pub fn first_missing(kind: DieKind, dies: u32, lines: &[FaultLine]) -> Option<&FaultLine>
    ensures { option_copied result ≡ first_missing kind dies lines.now }
{
    lines.iter().find(|line| is_missing(kind, dies, line))
}
