//! Worked records.

use crate::{Pred, PredCond, count_nodes, field_fault, select};
use sqlite_items::Boxed;
use std::alloc::{AllocError, Global};
use std::test::Fail;

fn comparison(cond: PredCond, off: u32, size: u32, value: u64) -> Pred {
    Pred::Cmp {
        cond,
        off,
        size,
        value,
    }
}

// The first four bytes are at least 5, and the fifth isn't 1.
fn sample(alloc: Global) -> Result<Pred, AllocError> {
    let small = comparison(PredCond::Ge, 0, 4, 5);
    let marked = comparison(PredCond::Eq, 4, 1, 1);
    let unmarked = Pred::Not(Boxed::new(alloc, marked)?);
    Ok(Pred::And(Boxed::new(alloc, small)?, Boxed::new(alloc, unmarked)?))
}

#[test]
fn one_of_three_records_is_selected_and_a_rest_is_none(rt: HostRuntime) -> Result<(), Fail> {
    let alloc = rt.alloc();
    let pred = sample(alloc)?;
    let count = count_nodes(&pred);
    assert_eq!(rt; count, 4);
    assert_eq!(rt; field_fault(&pred, 8), None);
    let input = *b"\0\0\0\0\0\0\0\0\x05\0\0\0\x01\0\0\0\x09\0\0\0\0\0\0\0\xaa\xbb\xcc";
    let numbers = select(alloc, &pred, 8, &input)?;
    assert_eq!(rt; numbers.as_slice(), [2].as_slice());
    Ok(())
}

// The fault of a predicate of few nodes.
fn fault(pred: &Pred, width: u32) -> Option<u32> {
    if count_nodes(pred) > 200 {
        return None;
    }
    field_fault(pred, width)
}

#[test]
fn the_first_node_without_its_field_is_told(rt: HostRuntime) -> Result<(), Fail> {
    let alloc = rt.alloc();
    let pred = sample(alloc)?;
    assert_eq!(rt; fault(&pred, 4), Some(3));
    Ok(())
}
