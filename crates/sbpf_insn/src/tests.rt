//! Bytes written by hand from RFC 9669, and what must not decode.

use crate::{
    AluOp, AtomicOp, Code, Cond, DecodeErr, Insn, InsnKind, Order, Reg, Size, Src, decode, encode,
};
use std::alloc::Global;
use std::process::Abort;
use std::test::Fail;

const R1: Reg = Reg { n: 1 };

const R2: Reg = Reg { n: 2 };

const R10: Reg = Reg { n: 10 };

// The bytes decode to this one instruction, whose encoding they are.
fn spells(rt: &impl Abort, alloc: Global, bytes: &[u8], insn: Insn) {
    let code = decode(alloc, bytes).expect(rt, "decodes");
    assert_eq!(rt; code.slots() as usize * 8, bytes.len());
    assert_eq!(rt; code.at_slot(0), Some(insn));
    let again = encode(alloc, &code).expect(rt, "encodes");
    assert_eq!(rt; again.as_slice(), bytes);
}

#[test]
fn rows_of_arithmetic(rt: HostRuntime) -> Result<(), Fail> {
    let alu = |wide, op, src| Insn::Alu {
        wide,
        op,
        dst: R1,
        src,
    };
    let imm = Src::Imm(-2);
    let reg = Src::Reg(R2);
    let rows = [
        (
            [0x07, 1, 0, 0, 0xfe, 0xff, 0xff, 0xff],
            alu(true, AluOp::Add, imm),
        ),
        ([0x0c, 0x21, 0, 0, 0, 0, 0, 0], alu(false, AluOp::Add, reg)),
        (
            [0x34, 1, 0, 0, 0xfe, 0xff, 0xff, 0xff],
            alu(false, AluOp::Div, imm),
        ),
        ([0x9f, 0x21, 0, 0, 0, 0, 0, 0], alu(true, AluOp::Mod, reg)),
        (
            [0x37, 1, 1, 0, 0xfe, 0xff, 0xff, 0xff],
            alu(true, AluOp::Sdiv, imm),
        ),
        ([0x9c, 0x21, 1, 0, 0, 0, 0, 0], alu(false, AluOp::Smod, reg)),
    ];
    for (bytes, insn) in &rows {
        spells(&rt, rt.alloc(), bytes, *insn);
    }
    Ok(())
}

#[test]
fn rows_of_moves_and_jumps(rt: HostRuntime) -> Result<(), Fail> {
    let end = |order, bits| Insn::End {
        order,
        bits,
        dst: R1,
    };
    let rows = [
        (
            [0xbf, 0x21, 32, 0, 0, 0, 0, 0],
            Insn::MovSx {
                wide: true,
                bits: 32,
                dst: R1,
                src: R2,
            },
        ),
        (
            [0x84, 1, 0, 0, 0, 0, 0, 0],
            Insn::Neg {
                wide: false,
                dst: R1,
            },
        ),
        ([0xd4, 1, 0, 0, 16, 0, 0, 0], end(Order::Little, 16)),
        ([0xdc, 1, 0, 0, 32, 0, 0, 0], end(Order::Big, 32)),
        ([0xd7, 1, 0, 0, 64, 0, 0, 0], end(Order::Swap, 64)),
        ([0x05, 0, 0xfd, 0xff, 0, 0, 0, 0], Insn::Ja { offset: -3 }),
        (
            [0x06, 0, 0, 0, 0, 0, 1, 0],
            Insn::JaFar { offset: 0x1_0000 },
        ),
        (
            [0x15, 1, 2, 0, 0xff, 0xff, 0xff, 0xff],
            Insn::Jump {
                wide: true,
                cond: Cond::Jeq,
                dst: R1,
                src: Src::Imm(-1),
                offset: 2,
            },
        ),
        (
            [0xce, 0x21, 2, 0, 0, 0, 0, 0],
            Insn::Jump {
                wide: false,
                cond: Cond::Jslt,
                dst: R1,
                src: Src::Reg(R2),
                offset: 2,
            },
        ),
        (
            [0x85, 0x10, 0, 0, 0xff, 0xff, 0xff, 0xff],
            Insn::Call { offset: -1 },
        ),
        ([0x95, 0, 0, 0, 0, 0, 0, 0], Insn::Exit),
    ];
    for (bytes, insn) in &rows {
        spells(&rt, rt.alloc(), bytes, *insn);
    }
    Ok(())
}

#[test]
fn rows_of_memory(rt: HostRuntime) -> Result<(), Fail> {
    let atomic = |wide, op, fetch| Insn::Atomic {
        wide,
        op,
        fetch,
        base: R1,
        offset: 4,
        src: R2,
    };
    let rows = [
        (
            [0x79, 0x21, 8, 0, 0, 0, 0, 0],
            Insn::Load {
                size: Size::Dw,
                dst: R1,
                base: R2,
                offset: 8,
            },
        ),
        (
            [0x91, 0x21, 0xff, 0xff, 0, 0, 0, 0],
            Insn::LoadSx {
                size: Size::B,
                dst: R1,
                base: R2,
                offset: -1,
            },
        ),
        (
            [0x6a, 10, 0xf8, 0xff, 7, 0, 0, 0],
            Insn::StoreImm {
                size: Size::H,
                base: R10,
                offset: -8,
                imm: 7,
            },
        ),
        (
            [0x63, 0x21, 0, 0, 0, 0, 0, 0],
            Insn::StoreReg {
                size: Size::W,
                base: R1,
                offset: 0,
                src: R2,
            },
        ),
        (
            [0xc3, 0x21, 4, 0, 0x41, 0, 0, 0],
            atomic(false, AtomicOp::Or, true),
        ),
        (
            [0xdb, 0x21, 4, 0, 0xa0, 0, 0, 0],
            atomic(true, AtomicOp::Xor, false),
        ),
        (
            [0xdb, 0x21, 4, 0, 0xf1, 0, 0, 0],
            atomic(true, AtomicOp::CmpXchg, true),
        ),
    ];
    for (bytes, insn) in &rows {
        spells(&rt, rt.alloc(), bytes, *insn);
    }
    let wide = [
        0x18, 1, 0, 0, 0xef, 0xcd, 0xab, 0x89, 0, 0, 0, 0, 0x67, 0x45, 0x23, 1,
    ];
    spells(
        &rt,
        rt.alloc(),
        &wide,
        Insn::LoadWide {
            dst: R1,
            value: 0x0123_4567_89ab_cdef,
        },
    );
    Ok(())
}

// The slot and the kind of the first fault.
fn fault_of(rt: &HostRuntime, bytes: &[u8]) -> Option<(u32, InsnKind)> {
    match decode(rt.alloc(), bytes) {
        Err(DecodeErr::Insn(fault)) => Some((fault.slot, fault.kind)),
        _ => None,
    }
}

const REFUSED: [u8; 8] = [0x20, 0x28, 0x30, 0x38, 0x40, 0x48, 0x50, 0x58];

// The opcodes of the table.
const ROWS: [u8; 119] = [
    0x04, 0x05, 0x06, 0x07, 0x0c, 0x0f, 0x14, 0x15, 0x16, 0x17, 0x18, 0x1c, 0x1d, 0x1e, 0x1f, 0x24,
    0x25, 0x26, 0x27, 0x2c, 0x2d, 0x2e, 0x2f, 0x34, 0x35, 0x36, 0x37, 0x3c, 0x3d, 0x3e, 0x3f, 0x44,
    0x45, 0x46, 0x47, 0x4c, 0x4d, 0x4e, 0x4f, 0x54, 0x55, 0x56, 0x57, 0x5c, 0x5d, 0x5e, 0x5f, 0x61,
    0x62, 0x63, 0x64, 0x65, 0x66, 0x67, 0x69, 0x6a, 0x6b, 0x6c, 0x6d, 0x6e, 0x6f, 0x71, 0x72, 0x73,
    0x74, 0x75, 0x76, 0x77, 0x79, 0x7a, 0x7b, 0x7c, 0x7d, 0x7e, 0x7f, 0x81, 0x84, 0x85, 0x87, 0x89,
    0x91, 0x94, 0x95, 0x97, 0x9c, 0x9f, 0xa4, 0xa5, 0xa6, 0xa7, 0xac, 0xad, 0xae, 0xaf, 0xb4, 0xb5,
    0xb6, 0xb7, 0xbc, 0xbd, 0xbe, 0xbf, 0xc3, 0xc4, 0xc5, 0xc6, 0xc7, 0xcc, 0xcd, 0xce, 0xcf, 0xd4,
    0xd5, 0xd6, 0xd7, 0xdb, 0xdc, 0xdd, 0xde,
];

#[test]
fn opcodes_without_a_row_are_refused(rt: HostRuntime) -> Result<(), Fail> {
    for opcode in 0..=255u8 {
        let kind = fault_of(&rt, &[opcode, 0, 0, 0, 0, 0, 0, 0]);
        let is_refused = kind == Some((0, InsnKind::Refused));
        let is_unknown = kind == Some((0, InsnKind::Opcode));
        assert_eq!(rt;
            is_refused,
            REFUSED.contains(&opcode) || opcode == 0x85,
            "{opcode}"
        );
        assert_eq!(rt;
            is_unknown,
            !REFUSED.contains(&opcode) && !ROWS.contains(&opcode),
            "{opcode}"
        );
    }
    Ok(())
}

#[test]
fn faults_come_in_their_order(rt: HostRuntime) -> Result<(), Fail> {
    let none: [u8; 0] = [];
    assert_eq!(rt; decode(rt.alloc(), &none).expect(&rt, "decodes").slots(), 0);
    let short = [0x95, 0, 0, 0, 0, 0, 0];
    assert_eq!(rt; fault_of(&rt, &short), Some((0, InsnKind::Truncated)));
    let dst_11 = [0x07, 0x1b, 1, 0, 0, 0, 0, 0];
    assert_eq!(rt; fault_of(&rt, &dst_11), Some((0, InsnKind::Register)));
    let src_11 = [0x0f, 0xb1, 0, 0, 0, 0, 0, 0];
    assert_eq!(rt; fault_of(&rt, &src_11), Some((0, InsnKind::Register)));
    let map = [0x18, 0x11, 1, 0, 0, 0, 0, 0];
    assert_eq!(rt; fault_of(&rt, &map), Some((0, InsnKind::Refused)));
    let helper = [0x85, 0x20, 1, 0, 0, 0, 0, 0];
    assert_eq!(rt; fault_of(&rt, &helper), Some((0, InsnKind::Refused)));
    let offset = [0x18, 1, 1, 0, 0, 0, 0, 0];
    assert_eq!(rt; fault_of(&rt, &offset), Some((0, InsnKind::Field)));
    let half = [0x18, 1, 0, 0, 0, 0, 0, 0, 1, 0, 0, 0];
    assert_eq!(rt; fault_of(&rt, &half), Some((0, InsnKind::Truncated)));
    let not_zero = [0x18, 1, 0, 0, 0, 0, 0, 0, 0, 0, 0, 1, 0, 0, 0, 0];
    assert_eq!(rt; fault_of(&rt, &not_zero), Some((0, InsnKind::Wide)));
    let third = [
        0x18, 1, 0, 0, 0, 0, 0, 0, 0, 0, 0, 0, 0, 0, 0, 0, 0xff, 0, 0, 0, 0, 0, 0, 0,
    ];
    assert_eq!(rt; fault_of(&rt, &third), Some((2, InsnKind::Opcode)));
    Ok(())
}

#[test]
fn code_is_copied_into_room(rt: HostRuntime) -> Result<(), Fail> {
    let mut code = Code::new(rt.alloc());
    code.push(Insn::LoadWide { dst: R1, value: 5 })?;
    code.push(Insn::Exit)?;
    let mut copy = Code::with_room(rt.alloc(), 3)?;
    copy.copy_from(&code);
    assert_eq!(rt; copy.slots(), 3);
    assert_eq!(rt; copy.at_slot(1), None);
    assert_eq!(rt; copy.at_slot(2), Some(Insn::Exit));
    assert_eq!(rt; copy.at_slot(3), None);
    Ok(())
}
