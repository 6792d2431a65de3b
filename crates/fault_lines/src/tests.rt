use crate::{first_missing, plans};
use command_words::DieKind;
use script_words::FaultLine;
use std::alloc::{AllocError, Global};

// A line about a die, or about its second copy.
fn line_of(line: u32, die: u32, writing: bool, nth: u32, copy: bool) -> FaultLine {
    FaultLine {
        line,
        die,
        writing,
        nth,
        copy,
    }
}

// Two reads of die 0, one of them twice; a write of die 1; and a read of the second copy of die 0.
fn five_lines(alloc: Global) -> Result<Vec<FaultLine>, AllocError> {
    Ok(vec![in alloc;
        line_of(1, 0, false, 4, false),
        line_of(2, 0, false, 9, false),
        line_of(3, 1, true, 7, false),
        line_of(4, 0, false, 1, true),
        line_of(5, 0, false, 4, false),
    ]?)
}

#[test]
fn plans_list_each_number_once(rt: HostRuntime) -> Result<(), AllocError> {
    let alloc = rt.alloc();
    let lines = five_lines(alloc)?;
    let firsts = plans(alloc, &lines, false, 2)?;
    assert_eq!(rt; firsts.len(), 2);
    assert_eq!(rt; firsts[0].reads.as_slice(), [4, 9].as_slice());
    assert_eq!(rt; firsts[0].writes.as_slice().len(), 0);
    assert_eq!(rt; firsts[1].writes.as_slice(), [7].as_slice());
    let seconds = plans(alloc, &lines, true, 1)?;
    assert_eq!(rt; seconds[0].reads.as_slice(), [1].as_slice());
    Ok(())
}

#[test]
fn the_first_line_of_a_missing_die_is_found(rt: HostRuntime) -> Result<(), AllocError> {
    let lines = five_lines(rt.alloc())?;
    assert_eq!(rt;
        first_missing(DieKind::Mem, 1, &lines).map(|line| line.line),
        Some(3)
    );
    assert_eq!(rt;
        first_missing(DieKind::Ftl, 2, &lines).map(|line| line.line),
        Some(4)
    );
    assert!(rt; first_missing(DieKind::Mirror, 2, &lines).is_none());
    Ok(())
}
