//! Worked code.

ghost use Rattle.std.specs.Prelude.{IfOk};
ghost use Rattle.sbpf_exec.specs.Parts.{IsShaped};

use crate::{PredErr, compile_pred};
use edge_io::Bytes;
use predicates::{Pred, PredCond};
use sbpf_exec::{Outcome, Region, Regions, run};
use sqlite_items::Boxed;
use std::alloc::{AllocError, Global};
use std::test::Fail;

fn comparison(cond: PredCond, off: u32, size: u32, value: u64) -> Pred {
    Pred::Cmp {
        cond,
        off,
        size,
        value,
    }
}

// The first four bytes are at least 5, and the fifth isn't 1.
fn sample(alloc: Global) -> Result<Pred, AllocError> {
    let small = comparison(PredCond::Ge, 0, 4, 5);
    let marked = comparison(PredCond::Eq, 4, 1, 1);
    let unmarked = Pred::Not(Boxed::new(alloc, marked)?);
    Ok(Pred::And(Boxed::new(alloc, small)?, Boxed::new(alloc, unmarked)?))
}

// Three records of eight bytes and a rest of three, and an output of twelve bytes.
fn regions(alloc: Global) -> Result<Regions, Fail>
    ensures { IfOk result (λ r. IsShaped r) }
{
    let input = *b"\0\0\0\0\0\0\0\0\x05\0\0\0\x01\0\0\0\x09\0\0\0\0\0\0\0\xaa\xbb\xcc";
    let input = Region::Flat(Bytes::new(input.to_vec(alloc)?));
    let output = Region::Flat(Bytes::new(vec![in alloc; 7; 12]?));
    match Regions::new(alloc, input, output, Bytes::new(Vec::new(alloc))) {
        Ok(mut regions) => {
            regions.shape(0, 27, 0, 12);
            Ok(regions)
        }
        Err(_) => Err("memory")?,
    }
}

// How the run of a predicate's code ended, and the output's first bytes.
fn outcome(alloc: Global, pred: &Pred) -> Result<(Outcome, u64), Fail> {
    let Ok(verified) = compile_pred(alloc, pred, 8) else {
        return Err("refused")?;
    };
    let mut regions = regions(alloc)?;
    let outcome = run(verified.code(), &mut regions, 320);
    let (_, output, _) = regions.into_parts();
    Ok((outcome, first_bytes(&output)))
}

fn first_bytes(output: &Region) -> u64 {
    match output {
        Region::Flat(bytes) => match bytes.as_slice() {
            [a, b, c, d, e, f, g, h, ..] => u64::from_le_bytes([*a, *b, *c, *d, *e, *f, *g, *h]),
            _ => 0,
        },
        Region::Paged { .. } => 0,
    }
}

#[test]
fn three_records_are_judged_with_320_units_of_fuel(rt: HostRuntime) -> Result<(), Fail> {
    let pred = sample(rt.alloc())?;
    let (outcome, bytes) = outcome(rt.alloc(), &pred)?;
    assert_eq!(rt; outcome, Outcome::Done { r0: 4, used: 35 });
    assert_eq!(rt; bytes, 0x0707_0707_0000_0002);
    Ok(())
}

#[test]
fn a_number_of_32_bits_is_loaded_first(rt: HostRuntime) -> Result<(), Fail> {
    let pred = comparison(PredCond::Le, 0, 4, 0x8000_0000);
    let (outcome, bytes) = outcome(rt.alloc(), &pred)?;
    assert_eq!(rt; outcome, Outcome::Done { r0: 12, used: 38 });
    assert_eq!(rt; bytes, 0x0000_0001_0000_0000);
    Ok(())
}

#[test]
fn a_field_that_passes_the_record_is_refused(rt: HostRuntime) -> Result<(), Fail> {
    let pred = comparison(PredCond::Eq, 5, 4, 1);
    let refused = match compile_pred(rt.alloc(), &pred, 8) {
        Err(PredErr::Field { node }) => node == 0,
        _ => false,
    };
    assert!(rt; refused);
    Ok(())
}
