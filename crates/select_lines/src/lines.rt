//! Numbers of records, a line each.
ghost use Rattle.std.specs.Prelude.{◌≡◌, ◌≤◌, ◌^◌, true, length, IfOk, string_bytes};
ghost use Rattle.predicates.specs.Fields.{fields_fit};
ghost use Rattle.predicates.specs.Select.{select};
ghost use Rattle.select_lines.specs.Lines.{number_line, rows_line, select_lines};

use edge_io::Text;
use predicates::{Pred, select};
use std::alloc::{AllocError, Global};

fn number_line(alloc: Global, number: u32) -> Result<String, AllocError>
    ensures { IfOk result (λ line. string_bytes line ≡ number_line number) }
{
    format!(in alloc; "{number}\n")
}

fn rows_line(alloc: Global, count: usize) -> Result<String, AllocError>
    ensures { IfOk result (λ line. string_bytes line ≡ rows_line count) }
{
    format!(in alloc; "rows {count}\n")
}

/// A line for each number, and then how many there are.
pub fn select_lines(alloc: Global, numbers: &[u32]) -> Result<Text, AllocError>
    ensures { IfOk result (λ text. text ≡ select_lines numbers.now) }
{
    let mut text = String::new(alloc);
    for number in numbers {
        let line = number_line(alloc, *number)?;
        text.push_str(line.as_str())?;
    }
    let last = rows_line(alloc, numbers.len())?;
    text.push_str(last.as_str())?;
    Ok(Text::new(text))
}

/// The lines of the records of this width that satisfy the predicate.
pub fn selected_lines(
    alloc: Global,
    pred: &Pred,
    width: u32,
    input: &[u8],
) -> Result<Text, AllocError>
    requires some { 1 ≤ width }
    requires fit { fields_fit pred.now width ≡ true }
    requires short { length input.now ≤ 2 ^ 32 }
    ensures { IfOk result (λ text. text ≡ select_lines (select pred.now width input.now)) }
{
    let numbers = select(alloc, pred, width, input)?;
    select_lines(alloc, &numbers)
}
