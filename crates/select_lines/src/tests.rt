//! Worked lines.

use crate::{select_lines, selected_lines};
use predicates::{Pred, PredCond, count_nodes, field_fault};
use std::test::Fail;

#[test]
fn each_number_has_a_line(rt: HostRuntime) -> Result<(), Fail> {
    let alloc = rt.alloc();
    let text = select_lines(alloc, &[2, 4294967295])?;
    assert_eq!(rt; text.as_str(), "2\n4294967295\nrows 2\n");
    let none = select_lines(alloc, &[])?;
    assert_eq!(rt; none.as_str(), "rows 0\n");
    Ok(())
}

#[test]
fn the_records_of_some_bytes_are_told(rt: HostRuntime) -> Result<(), Fail> {
    let alloc = rt.alloc();
    let pred = Pred::Cmp {
        cond: PredCond::Ge,
        off: 1,
        size: 1,
        value: 98,
    };
    if count_nodes(&pred) > 200 || field_fault(&pred, 2).is_some() {
        return Err("fields")?;
    }
    let text = selected_lines(alloc, &pred, 2, b"aaabacb")?;
    assert_eq!(rt; text.as_str(), "1\n2\nrows 2\n");
    Ok(())
}
