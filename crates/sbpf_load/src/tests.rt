//! Worked bytes of code and of objects.

use crate::{CodeErr, ObjectErr, load_code, read_object, verify, write_object};
use sbpf_insn::{AluOp, Code, Insn, Reg, Src, VerifyFault, VerifyKind, decode};
use std::test::Fail;

// The slot and the kind of the first fault of code that decodes.
fn fault_of(rt: &HostRuntime, bytes: &[u8]) -> Option<(u32, VerifyKind)> {
    match load_code(rt.alloc(), bytes) {
        Err(CodeErr::Verify(fault)) => Some((fault.slot, fault.kind)),
        _ => None,
    }
}

#[test]
fn code_that_may_not_be_run(rt: HostRuntime) -> Result<(), Fail> {
    let into_wide_load = [
        0x05, 0, 1, 0, 0, 0, 0, 0, 0x18, 0, 0, 0, 0, 0, 0, 0, 0, 0, 0, 0, 0, 0, 0, 0, 0x95, 0, 0,
        0, 0, 0, 0, 0,
    ];
    assert_eq!(rt;
        fault_of(&rt, &into_wide_load),
        Some((0, VerifyKind::Middle))
    );
    let falls_off = [0xb7, 0, 0, 0, 0, 0, 0, 0];
    assert_eq!(rt; fault_of(&rt, &falls_off), Some((0, VerifyKind::FallsOff)));
    let writes_r10 = [0xb7, 0x0a, 0, 0, 0, 0, 0, 0, 0x95, 0, 0, 0, 0, 0, 0, 0];
    assert_eq!(rt; fault_of(&rt, &writes_r10), Some((0, VerifyKind::Writer10)));
    assert_eq!(rt; fault_of(&rt, &[]), Some((0, VerifyKind::Empty)));
    let to_before_the_first = [0x05, 0, 0xfe, 0xff, 0, 0, 0, 0];
    assert_eq!(rt;
        fault_of(&rt, &to_before_the_first),
        Some((0, VerifyKind::Jump))
    );
    let to_the_end = [0x95, 0, 0, 0, 0, 0, 0, 0, 0x05, 0, 0, 0, 0, 0, 0, 0];
    assert_eq!(rt; fault_of(&rt, &to_the_end), Some((1, VerifyKind::Jump)));
    let call_to_the_end = [0x85, 0x10, 0, 0, 1, 0, 0, 0, 0x95, 0, 0, 0, 0, 0, 0, 0];
    assert_eq!(rt;
        fault_of(&rt, &call_to_the_end),
        Some((0, VerifyKind::CallTarget))
    );
    Ok(())
}

#[test]
fn length_of_code_is_limited(rt: HostRuntime) -> Result<(), Fail> {
    for (slots, wanted) in [(4096, None), (4097, Some(VerifyKind::TooLong))] {
        let mut bytes = Vec::new(rt.alloc());
        for _ in 0..slots {
            bytes.extend_from_slice(&[0x95, 0, 0, 0, 0, 0, 0, 0])?;
        }
        let code = decode(rt.alloc(), &bytes).expect(&rt, "decodes");
        match verify(code) {
            Ok(_) => assert_eq!(rt; None, wanted),
            Err(unverified) => {
                assert_eq!(rt; unverified.fault.slot, 4096);
                assert_eq!(rt; Some(unverified.fault.kind), wanted);
                assert_eq!(rt; unverified.code.slots(), slots);
            }
        }
    }
    Ok(())
}

#[test]
fn object_is_written_and_read(rt: HostRuntime) -> Result<(), Fail> {
    let mut code = Code::new(rt.alloc());
    code.push(Insn::Alu {
        wide: true,
        op: AluOp::Mov,
        dst: Reg { n: 0 },
        src: Src::Imm(8),
    })?;
    code.push(Insn::Exit)?;
    let Ok(verified) = verify(code) else {
        panic!(rt; "the code is accepted");
    };
    let bytes = write_object(rt.alloc(), &verified)?;
    let wanted = [
        0x53, 0x42, 0x4f, 0x31, 2, 0, 0, 0, 0xb7, 0, 0, 0, 8, 0, 0, 0, 0x95, 0, 0, 0, 0, 0, 0, 0,
    ];
    assert_eq!(rt; bytes.as_slice(), wanted.as_slice());
    let read = read_object(rt.alloc(), &wanted).expect(&rt, "an object");
    assert_eq!(rt; read.code().slots(), 2);
    assert_eq!(rt; read.code().at_slot(1), Some(Insn::Exit));
    Ok(())
}

// Why the bytes are no object.
fn object_fault(rt: &HostRuntime, bytes: &[u8]) -> Option<ObjectErr> {
    match read_object(rt.alloc(), bytes) {
        Ok(_) => None,
        Err(fault) => Some(fault),
    }
}

#[test]
fn objects_with_a_wrong_head(rt: HostRuntime) -> Result<(), Fail> {
    assert_eq!(rt;
        object_fault(&rt, &[0x53, 0x42, 0x4f]),
        Some(ObjectErr::Magic)
    );
    let short = [
        0x53, 0x42, 0x4f, 0x31, 2, 0, 0, 0, 0xb7, 0, 0, 0, 8, 0, 0, 0,
    ];
    assert_eq!(rt;
        object_fault(&rt, &short),
        Some(ObjectErr::Length { bytes: 16 })
    );
    let falls_off = [
        0x53, 0x42, 0x4f, 0x31, 1, 0, 0, 0, 0xb7, 0, 0, 0, 8, 0, 0, 0,
    ];
    let fault = VerifyFault {
        slot: 0,
        kind: VerifyKind::FallsOff,
    };
    assert_eq!(rt;
        object_fault(&rt, &falls_off),
        Some(ObjectErr::Verify(fault))
    );
    Ok(())
}
