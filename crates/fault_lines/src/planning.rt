// The plans of dies.
ghost use Rattle.std.specs.Prelude.{◌≡◌, IfOk, OnOk};
ghost use Rattle.fault_lines.specs.Lines.{is_about, with_line, numbers_of, plan_for, plans};

use edge_io::Listed;
use flash_die::{Plan, is_listed};
use script_words::FaultLine;
use std::alloc::{AllocError, Global};

// Whether the line speaks of the writes, or of the reads, of the second copy of this die, or of the die itself.
fn is_about(copy: bool, writing: bool, die: u32, line: &FaultLine) -> bool
    ensures { result ≡ is_about copy writing die line.now }
{
    line.copy == copy && line.writing == writing && line.die == die
}

// Lists the line's number, if the line speaks of these calls and its number isn't listed yet.
fn list_line(
    line: &FaultLine,
    copy: bool,
    writing: bool,
    die: u32,
    numbers: &mut Vec<u32>,
) -> Result<(), AllocError>
    ensures { OnOk result (numbers.new.items ≡ with_line copy writing die line.now numbers.old.items) }
{
    if !is_about(copy, writing, die, line) {
        return Ok(());
    }
    if is_listed(u64::from(line.nth), numbers) {
        return Ok(());
    }
    numbers.push(line.nth)?;
    Ok(())
}

/// The numbers of the writes, or of the reads, of the second copy of a die, or of the die itself, that the lines name, each once.
pub fn numbers_of(
    alloc: Global,
    lines: &[FaultLine],
    copy: bool,
    writing: bool,
    die: u32,
) -> Result<Vec<u32>, AllocError>
    ensures { IfOk result (λ numbers. numbers.items ≡ numbers_of copy writing die lines.now) }
{
    let mut numbers: Vec<u32> = Vec::new(alloc);
    let mut left = lines.len();
    while left > 0 {
        left -= 1;
        list_line(&lines[left], copy, writing, die, &mut numbers)?;
    }
    Ok(numbers)
}

/// The plan of a die, or of its second copy: the reads and the writes that fail.
pub fn plan_for(
    alloc: Global,
    lines: &[FaultLine],
    copy: bool,
    die: u32,
) -> Result<Plan, AllocError>
    ensures { IfOk result (λ plan. plan ≡ plan_for lines.now copy die) }
{
    let reads = numbers_of(alloc, lines, copy, false, die)?;
    let writes = numbers_of(alloc, lines, copy, true, die)?;
    Ok(Plan {
        reads: Listed::new(reads),
        writes: Listed::new(writes),
    })
}

/// The plans of so many dies, or of their second copies.
pub fn plans(
    alloc: Global,
    lines: &[FaultLine],
    copy: bool,
    dies: u32,
) -> Result<Vec<Plan>, AllocError>
    ensures { IfOk result (λ made. made.items ≡ plans lines.now copy dies) }
{
    let mut made: Vec<Plan> = Vec::new(alloc);
    for die in 0..dies {
        let plan = plan_for(alloc, lines, copy, die)?;
        made.push(plan)?;
    }
    Ok(made)
}
