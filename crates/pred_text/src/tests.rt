//! Worked texts.

use crate::{PredKind, PredTextErr, read_pred};
use std::alloc::Global;
use std::test::Fail;

// Where the first faulty token of a text is.
fn fault_at(alloc: Global, text: &[u8], kind: PredKind) -> Option<u64> {
    match read_pred(alloc, text) {
        Err(PredTextErr::Text(fault)) => {
            if fault.kind == kind {
                Some(fault.at)
            } else {
                None
            }
        }
        _ => None,
    }
}

#[test]
fn a_conjunction_is_read(rt: HostRuntime) -> Result<(), Fail> {
    let alloc = rt.alloc();
    let text = b"(and (ge 0 4 5)\n (not(eq 4 1 1)))";
    let Ok(pred) = read_pred(alloc, text.as_slice()) else {
        return Err("refused")?;
    };
    let shown = format!(in alloc; "{pred:?}")?;
    assert_eq!(rt;
        shown.as_str(),
        "And(Boxed { inner: Cmp { cond: Ge, off: 0, size: 4, value: 5 } }, Boxed { inner: Not(Boxed { inner: Cmp { cond: Eq, off: 4, size: 1, value: 1 } }) })"
    );
    Ok(())
}

#[test]
fn the_first_faulty_token_is_told(rt: HostRuntime) -> Result<(), Fail> {
    let alloc = rt.alloc();
    assert_eq!(rt; fault_at(alloc, b"", PredKind::Form), Some(0));
    assert_eq!(rt;
        fault_at(alloc, b"(and (eq 0 1 1))", PredKind::Form),
        Some(15)
    );
    assert_eq!(rt; fault_at(alloc, b"(eq 0 1 x)", PredKind::Number), Some(8));
    assert_eq!(rt;
        fault_at(alloc, b"(eq 0 4294967296 1)", PredKind::Number),
        Some(6)
    );
    assert_eq!(rt; fault_at(alloc, b"(eq 0 1 1) )", PredKind::Form), Some(11));
    Ok(())
}
