//! Worked bytes of code.

use crate::load_bytes;
use plain_files::CodeKind;
use sbpf_insn::VerifyKind;
use std::test::Fail;
use system_quick::Loading;

// How many slots were accepted, or the slot of the first fault and whether the code decodes.
fn told(rt: &HostRuntime, bytes: &[u8]) -> Result<u32, (u32, bool)> {
    match load_bytes(rt.alloc(), bytes) {
        Ok(Loading::Accepted(code)) => Ok(code.slots()),
        Ok(Loading::Refused { kind, slot }) => Err((
            slot,
            matches!(kind, CodeKind::Verify(VerifyKind::FallsOff)),
        )),
        _ => Err((4096, false)),
    }
}

#[test]
fn bytes_are_decoded(rt: HostRuntime) -> Result<(), Fail> {
    let ends = [0xb7, 0, 0, 0, 0, 0, 0, 0, 0x95, 0, 0, 0, 0, 0, 0, 0];
    assert_eq!(rt; told(&rt, &ends), Ok(2));
    let falls_off = [0xb7, 0, 0, 0, 0, 0, 0, 0];
    assert_eq!(rt; told(&rt, &falls_off), Err((0, true)));
    let spells_none = [0x95, 0, 0, 0, 0, 0, 0, 0, 0, 0, 0, 0, 0, 0, 0, 0];
    assert_eq!(rt; told(&rt, &spells_none), Err((1, false)));
    Ok(())
}
