//! A worked object, and objects that are refused.

use crate::{ElfErr, ElfFault, ElfKind, kind_word, read_elf};
use sbpf_insn::{InsnFault, InsnKind, VerifyFault, VerifyKind};
use sbpf_load::write_object;
use std::alloc::AllocError;
use std::test::Fail;

fn section_header(name: u8, kind: u8, flags: u8, offset: u8, size: u8, info: u8) -> [u8; 64] {
    let mut bytes = [0; 64];
    bytes[0] = name;
    bytes[4] = kind;
    bytes[8] = flags;
    bytes[24] = offset;
    bytes[32] = size;
    bytes[44] = info;
    bytes
}

// An object of 296 bytes: r0 becomes 8 and the function ends.
fn object(rt: &HostRuntime) -> Result<Vec<u8>, AllocError> {
    let mut head = [0; 40];
    head[16] = 1;
    head[18] = 247;
    let mut bytes = Vec::new(rt.alloc());
    bytes.extend_from_slice(b"\x7fELF\x02\x01")?;
    bytes.extend_from_slice(&head[6..])?;
    bytes.extend_from_slice(&[104, 0, 0, 0, 0, 0, 0, 0, 0, 0, 0, 0, 0, 0, 0, 0])?;
    bytes.extend_from_slice(&[0, 0, 64, 0, 3, 0, 2, 0])?;
    bytes.extend_from_slice(&[0xb7, 0, 0, 0, 8, 0, 0, 0, 0x95, 0, 0, 0, 0, 0, 0, 0])?;
    bytes.extend_from_slice(b"\0.text\0.shstrtab\0")?;
    bytes.extend_from_slice(&[0; 7])?;
    bytes.extend_from_slice(&section_header(0, 0, 0, 0, 0, 0))?;
    bytes.extend_from_slice(&section_header(1, 1, 6, 64, 16, 0))?;
    bytes.extend_from_slice(&section_header(7, 3, 0, 80, 17, 0))?;
    Ok(bytes)
}

// The object with other bytes at some places.
fn changed(rt: &HostRuntime, changes: &[(usize, u8)]) -> Result<Vec<u8>, AllocError> {
    let mut bytes = object(rt)?;
    for (at, value) in changes {
        if let Some(byte) = bytes.get_mut(*at) {
            *byte = *value;
        }
    }
    Ok(bytes)
}

// Why the section gives no code.
fn refusal(rt: &HostRuntime, bytes: &[u8], section: &[u8]) -> Option<ElfErr> {
    match read_elf(rt.alloc(), bytes, section) {
        Ok(_) => None,
        Err(fault) => Some(fault),
    }
}

fn elf(kind: ElfKind, place: u64) -> Option<ElfErr> {
    Some(ElfErr::Elf(ElfFault { kind, place }))
}

#[test]
fn code_comes_out_of_a_section(rt: HostRuntime) -> Result<(), Fail> {
    let bytes = object(&rt)?;
    let Ok(code) = read_elf(rt.alloc(), &bytes, b".text") else {
        panic!(rt; "the code is accepted");
    };
    let wanted = [
        0x53, 0x42, 0x4f, 0x31, 2, 0, 0, 0, 0xb7, 0, 0, 0, 8, 0, 0, 0, 0x95, 0, 0, 0, 0, 0, 0, 0,
    ];
    let written = write_object(rt.alloc(), &code)?;
    assert_eq!(rt; written.as_slice(), wanted.as_slice());
    Ok(())
}

#[test]
fn each_kind_of_fault_has_its_place(rt: HostRuntime) -> Result<(), Fail> {
    let mut bytes = object(&rt)?;
    assert_eq!(rt; refusal(&rt, &bytes, b"maps"), elf(ElfKind::NoSection, 3));
    bytes.truncate(200);
    assert_eq!(rt; refusal(&rt, &bytes, b".text"), elf(ElfKind::Table, 40));
    bytes.truncate(63);
    assert_eq!(rt; refusal(&rt, &bytes, b".text"), elf(ElfKind::Short, 63));
    for (at, value, kind, place) in [
        (3, 0, ElfKind::Magic, 0),
        (4, 1, ElfKind::Class, 4),
        (5, 2, ElfKind::Order, 5),
        (16, 2, ElfKind::TypeField, 16),
        (18, 62, ElfKind::Machine, 18),
        (58, 63, ElfKind::Table, 40),
        (60, 0, ElfKind::Table, 40),
        (62, 3, ElfKind::Table, 40),
        (236, 1, ElfKind::Strings, 232),
        (264, 217, ElfKind::Strings, 232),
        (172, 8, ElfKind::Section, 168),
        (177, 8, ElfKind::Section, 168),
        (200, 233, ElfKind::Section, 168),
    ] {
        let bytes = changed(&rt, &[(at, value)])?;
        assert_eq!(rt; refusal(&rt, &bytes, b".text"), elf(kind, place), "{at}");
    }
    let mut relocated = changed(&rt, &[(60, 4)])?;
    relocated.extend_from_slice(&section_header(0, 9, 0, 0, 16, 1))?;
    assert_eq!(rt;
        refusal(&rt, &relocated, b".text"),
        elf(ElfKind::Relocated, 296)
    );
    assert_eq!(rt; kind_word(ElfKind::TypeField), "type");
    Ok(())
}

#[test]
fn code_that_may_not_be_run_is_refused(rt: HostRuntime) -> Result<(), Fail> {
    let unknown = changed(&rt, &[(72, 0xff)])?;
    let fault = InsnFault {
        slot: 1,
        kind: InsnKind::Opcode,
    };
    assert_eq!(rt; refusal(&rt, &unknown, b".text"), Some(ElfErr::Insn(fault)));
    let endless = changed(&rt, &[(72, 0xb7)])?;
    let fault = VerifyFault {
        slot: 1,
        kind: VerifyKind::FallsOff,
    };
    assert_eq!(rt;
        refusal(&rt, &endless, b".text"),
        Some(ElfErr::Verify(fault))
    );
    Ok(())
}

#[test]
fn offsets_past_the_end_are_refused(rt: HostRuntime) -> Result<(), Fail> {
    // Headers, names and code at offsets whose ends pass 2^64.
    let wrapping = [0xf0, 0xff, 0xff, 0xff, 0xff, 0xff, 0xff, 0xff];
    for (at, kind, place) in [
        (40, ElfKind::Table, 40),
        (256, ElfKind::Strings, 232),
        (192, ElfKind::Section, 168),
    ] {
        let mut bytes = object(&rt)?;
        for (i, value) in wrapping.iter().enumerate() {
            if let Some(byte) = bytes.get_mut(at + i) {
                *byte = *value;
            }
        }
        assert_eq!(rt; refusal(&rt, &bytes, b".text"), elf(kind, place), "{at}");
    }
    // A name placed behind all names, and a last name without its zero byte.
    let behind = changed(&rt, &[(171, 0xff)])?;
    assert_eq!(rt; refusal(&rt, &behind, b".text"), elf(ElfKind::NoSection, 3));
    let unended = changed(&rt, &[(264, 16)])?;
    assert_eq!(rt;
        refusal(&rt, &unended, b".shstrtab"),
        elf(ElfKind::NoSection, 3)
    );
    Ok(())
}
