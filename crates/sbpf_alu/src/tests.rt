//! Values worked out by hand.

use crate::{alu32, alu64, atomic32, atomic64, compare32, compare64, movsx, swap};
use sbpf_insn::{AluOp, AtomicOp, Cond, Order};
use std::test::Fail;

#[test]
fn division_and_shifts_at_their_limits(rt: HostRuntime) -> Result<(), Fail> {
    let least = 0x8000_0000_0000_0000;
    let minus_one = 0xffff_ffff_ffff_ffff;
    let rows = [
        (AluOp::Sdiv, least, minus_one, least),
        (AluOp::Smod, least, minus_one, 0),
        (AluOp::Div, 7, 0, 0),
        (AluOp::Mod, 7, 0, 7),
        (AluOp::Lsh, 1, 65, 2),
        (AluOp::Sdiv, minus_one - 6, 2, minus_one - 2),
        (AluOp::Arsh, least, 63, minus_one),
    ];
    for (op, dst, src, wanted) in &rows {
        assert_eq!(rt; alu64(*op, *dst, *src), *wanted);
    }
    let halves = [
        (AluOp::Div, 7, 0, 0),
        (AluOp::Mod, 0x1_0000_0007, 0, 7),
        (AluOp::Lsh, 1, 33, 2),
        (AluOp::Arsh, 0x8000_0000, 31, 0xffff_ffff),
    ];
    for (op, dst, src, wanted) in &halves {
        assert_eq!(rt; alu32(*op, *dst, *src), *wanted);
    }
    Ok(())
}

#[test]
fn signs_and_bytes(rt: HostRuntime) -> Result<(), Fail> {
    assert_eq!(rt; movsx(true, 8, 0x80), 0xffff_ffff_ffff_ff80);
    assert_eq!(rt; movsx(false, 8, 0x80), 0xffff_ff80);
    assert_eq!(rt; swap(Order::Big, 32, 0x1122_3344_5566_7788), 0x8877_6655);
    assert_eq!(rt; swap(Order::Little, 16, 0x1122_3344_5566_7788), 0x7788);
    assert!(rt; compare64(Cond::Jsgt, 1, 0xffff_ffff_ffff_ffff));
    assert!(rt; compare32(Cond::Jset, 0x1_0000_0002, 2));
    assert!(rt; !compare32(Cond::Jne, 0x1_0000_0002, 2));
    Ok(())
}

#[test]
fn compare_exchange_keeps_another_value(rt: HostRuntime) -> Result<(), Fail> {
    assert_eq!(rt; atomic64(AtomicOp::CmpXchg, 5, 9, 5), 9);
    assert_eq!(rt; atomic64(AtomicOp::CmpXchg, 5, 9, 6), 5);
    assert_eq!(rt;
        atomic32(AtomicOp::CmpXchg, 5, 0x1_0000_0009, 0x7_0000_0005),
        9
    );
    assert_eq!(rt; atomic32(AtomicOp::Add, 0xffff_ffff, 2, 0), 1);
    Ok(())
}
