// Texts and their code, from outside where that can be had.
use crate::{AsmFault, AsmKind, TextErr, assemble, assemble_bytes, disassemble};
use edge_io::Text;
use sbpf_insn::encode;
use std::alloc::Global;
use std::test::Fail;

// Instructions, and their bytes as an independent assembler (llvm-mc) writes them.
const COMMON: &str = "\
add r0, r3\n\
add32 r0, -7\n\
sub r1, r4\n\
sub32 r1, -1007\n\
mul r2, r5\n\
mul32 r2, -2007\n\
div r3, r6\n\
div32 r3, -3007\n\
or r4, r7\n\
or32 r4, -4007\n\
and r5, r8\n\
and32 r5, -5007\n\
lsh r6, r9\n\
lsh32 r6, -6007\n\
rsh r7, r0\n\
rsh32 r7, -7007\n\
xor r8, r1\n\
xor32 r8, -8007\n\
mov r9, r2\n\
mov32 r9, -9007\n\
arsh r0, r3\n\
arsh32 r0, -10007\n\
neg r3\n\
neg32 r4\n\
le16 r5\n\
le32 r5\n\
le64 r5\n\
be16 r5\n\
be32 r5\n\
be64 r5\n\
ja -3\n\
ja +0\n\
jeq r0, r9, +0\n\
jeq32 r0, -1, -1\n\
jgt r1, r9, +1\n\
jgt32 r1, -1, -2\n\
jge r2, r9, +2\n\
jge32 r2, -1, -3\n\
jne r4, r9, +4\n\
jne32 r4, -1, -5\n\
jsgt r5, r9, +5\n\
jsgt32 r5, -1, -6\n\
jsge r6, r9, +6\n\
jsge32 r6, -1, -7\n\
jlt r7, r9, +7\n\
jlt32 r7, -1, -8\n\
jle r8, r9, +8\n\
jle32 r8, -1, -9\n\
jslt r9, r9, +9\n\
jslt32 r9, -1, -10\n\
jsle r10, r9, +10\n\
jsle32 r10, -1, -11\n\
exit\n\
ldxb r1, [r2-8]\n\
stxb [r10+32767], r3\n\
ldxh r1, [r2-8]\n\
stxh [r10+32767], r3\n\
ldxw r1, [r2-8]\n\
stxw [r10+32767], r3\n\
ldxdw r1, [r2-8]\n\
stxdw [r10+32767], r3\n\
lddw r4, 18446744073709551615\n\
lddw r4, 81985529216486895\n\
aaddw [r1-4], r2\n\
aadddw [r1+4], r2\n\
aanddw [r1+8], r2\n\
aandw [r1+8], r2\n\
aordw [r1+8], r2\n\
aorw [r1+8], r2\n\
axordw [r1+8], r2\n\
axorw [r1+8], r2\n";

const COMMON_BYTES: &[u8] = b"\
\x0f\x30\x00\x00\x00\x00\x00\x00\
\x04\x00\x00\x00\xf9\xff\xff\xff\
\x1f\x41\x00\x00\x00\x00\x00\x00\
\x14\x01\x00\x00\x11\xfc\xff\xff\
\x2f\x52\x00\x00\x00\x00\x00\x00\
\x24\x02\x00\x00\x29\xf8\xff\xff\
\x3f\x63\x00\x00\x00\x00\x00\x00\
\x34\x03\x00\x00\x41\xf4\xff\xff\
\x4f\x74\x00\x00\x00\x00\x00\x00\
\x44\x04\x00\x00\x59\xf0\xff\xff\
\x5f\x85\x00\x00\x00\x00\x00\x00\
\x54\x05\x00\x00\x71\xec\xff\xff\
\x6f\x96\x00\x00\x00\x00\x00\x00\
\x64\x06\x00\x00\x89\xe8\xff\xff\
\x7f\x07\x00\x00\x00\x00\x00\x00\
\x74\x07\x00\x00\xa1\xe4\xff\xff\
\xaf\x18\x00\x00\x00\x00\x00\x00\
\xa4\x08\x00\x00\xb9\xe0\xff\xff\
\xbf\x29\x00\x00\x00\x00\x00\x00\
\xb4\x09\x00\x00\xd1\xdc\xff\xff\
\xcf\x30\x00\x00\x00\x00\x00\x00\
\xc4\x00\x00\x00\xe9\xd8\xff\xff\
\x87\x03\x00\x00\x00\x00\x00\x00\
\x84\x04\x00\x00\x00\x00\x00\x00\
\xd4\x05\x00\x00\x10\x00\x00\x00\
\xd4\x05\x00\x00\x20\x00\x00\x00\
\xd4\x05\x00\x00\x40\x00\x00\x00\
\xdc\x05\x00\x00\x10\x00\x00\x00\
\xdc\x05\x00\x00\x20\x00\x00\x00\
\xdc\x05\x00\x00\x40\x00\x00\x00\
\x05\x00\xfd\xff\x00\x00\x00\x00\
\x05\x00\x00\x00\x00\x00\x00\x00\
\x1d\x90\x00\x00\x00\x00\x00\x00\
\x16\x00\xff\xff\xff\xff\xff\xff\
\x2d\x91\x01\x00\x00\x00\x00\x00\
\x26\x01\xfe\xff\xff\xff\xff\xff\
\x3d\x92\x02\x00\x00\x00\x00\x00\
\x36\x02\xfd\xff\xff\xff\xff\xff\
\x5d\x94\x04\x00\x00\x00\x00\x00\
\x56\x04\xfb\xff\xff\xff\xff\xff\
\x6d\x95\x05\x00\x00\x00\x00\x00\
\x66\x05\xfa\xff\xff\xff\xff\xff\
\x7d\x96\x06\x00\x00\x00\x00\x00\
\x76\x06\xf9\xff\xff\xff\xff\xff\
\xad\x97\x07\x00\x00\x00\x00\x00\
\xa6\x07\xf8\xff\xff\xff\xff\xff\
\xbd\x98\x08\x00\x00\x00\x00\x00\
\xb6\x08\xf7\xff\xff\xff\xff\xff\
\xcd\x99\x09\x00\x00\x00\x00\x00\
\xc6\x09\xf6\xff\xff\xff\xff\xff\
\xdd\x9a\x0a\x00\x00\x00\x00\x00\
\xd6\x0a\xf5\xff\xff\xff\xff\xff\
\x95\x00\x00\x00\x00\x00\x00\x00\
\x71\x21\xf8\xff\x00\x00\x00\x00\
\x73\x3a\xff\x7f\x00\x00\x00\x00\
\x69\x21\xf8\xff\x00\x00\x00\x00\
\x6b\x3a\xff\x7f\x00\x00\x00\x00\
\x61\x21\xf8\xff\x00\x00\x00\x00\
\x63\x3a\xff\x7f\x00\x00\x00\x00\
\x79\x21\xf8\xff\x00\x00\x00\x00\
\x7b\x3a\xff\x7f\x00\x00\x00\x00\
\x18\x04\x00\x00\xff\xff\xff\xff\x00\x00\x00\x00\xff\xff\xff\xff\
\x18\x04\x00\x00\xef\xcd\xab\x89\x00\x00\x00\x00\x67\x45\x23\x01\
\xc3\x21\xfc\xff\x00\x00\x00\x00\
\xdb\x21\x04\x00\x00\x00\x00\x00\
\xdb\x21\x08\x00\x50\x00\x00\x00\
\xc3\x21\x08\x00\x50\x00\x00\x00\
\xdb\x21\x08\x00\x40\x00\x00\x00\
\xc3\x21\x08\x00\x40\x00\x00\x00\
\xdb\x21\x08\x00\xa0\x00\x00\x00\
\xc3\x21\x08\x00\xa0\x00\x00\x00";

// Instructions that it lacks, and their bytes by the tables of RFC 9669.
const NEWER: &str = "\
mod r3, r4\n\
mod32 r3, 9\n\
sdiv r1, r2\n\
sdiv32 r1, -2147483648\n\
smod r1, 2147483647\n\
smod32 r1, r2\n\
movsx8 r3, r10\n\
movsx16 r3, r10\n\
movsx32 r3, r10\n\
movsx8_32 r3, r10\n\
movsx16_32 r3, r10\n\
bswap16 r9\n\
bswap32 r9\n\
bswap64 r9\n\
ja32 +7\n\
call -5\n\
jset r3, r9, +3\n\
jset32 r3, -1, -4\n\
ldxsb r1, [r10-8]\n\
ldxsh r1, [r10-8]\n\
ldxsw r1, [r10-8]\n\
stb [r0+0], -1\n\
sth [r0+0], -1\n\
stw [r0+0], -1\n\
stdw [r0+0], -1\n\
afaddw [r1-32768], r2\n\
afadddw [r1-32768], r2\n\
aforw [r1-32768], r2\n\
afordw [r1-32768], r2\n\
afandw [r1-32768], r2\n\
afanddw [r1-32768], r2\n\
afxorw [r1-32768], r2\n\
afxordw [r1-32768], r2\n\
axchgw [r1+32767], r2\n\
axchgdw [r1+32767], r2\n\
acmpxchgw [r1+32767], r2\n\
acmpxchgdw [r1+32767], r2\n";

const NEWER_BYTES: &[u8] = b"\
\x9f\x43\x00\x00\x00\x00\x00\x00\
\x94\x03\x00\x00\x09\x00\x00\x00\
\x3f\x21\x01\x00\x00\x00\x00\x00\
\x34\x01\x01\x00\x00\x00\x00\x80\
\x97\x01\x01\x00\xff\xff\xff\x7f\
\x9c\x21\x01\x00\x00\x00\x00\x00\
\xbf\xa3\x08\x00\x00\x00\x00\x00\
\xbf\xa3\x10\x00\x00\x00\x00\x00\
\xbf\xa3\x20\x00\x00\x00\x00\x00\
\xbc\xa3\x08\x00\x00\x00\x00\x00\
\xbc\xa3\x10\x00\x00\x00\x00\x00\
\xd7\x09\x00\x00\x10\x00\x00\x00\
\xd7\x09\x00\x00\x20\x00\x00\x00\
\xd7\x09\x00\x00\x40\x00\x00\x00\
\x06\x00\x00\x00\x07\x00\x00\x00\
\x85\x10\x00\x00\xfb\xff\xff\xff\
\x4d\x93\x03\x00\x00\x00\x00\x00\
\x46\x03\xfc\xff\xff\xff\xff\xff\
\x91\xa1\xf8\xff\x00\x00\x00\x00\
\x89\xa1\xf8\xff\x00\x00\x00\x00\
\x81\xa1\xf8\xff\x00\x00\x00\x00\
\x72\x00\x00\x00\xff\xff\xff\xff\
\x6a\x00\x00\x00\xff\xff\xff\xff\
\x62\x00\x00\x00\xff\xff\xff\xff\
\x7a\x00\x00\x00\xff\xff\xff\xff\
\xc3\x21\x00\x80\x01\x00\x00\x00\
\xdb\x21\x00\x80\x01\x00\x00\x00\
\xc3\x21\x00\x80\x41\x00\x00\x00\
\xdb\x21\x00\x80\x41\x00\x00\x00\
\xc3\x21\x00\x80\x51\x00\x00\x00\
\xdb\x21\x00\x80\x51\x00\x00\x00\
\xc3\x21\x00\x80\xa1\x00\x00\x00\
\xdb\x21\x00\x80\xa1\x00\x00\x00\
\xc3\x21\xff\x7f\xe1\x00\x00\x00\
\xdb\x21\xff\x7f\xe1\x00\x00\x00\
\xc3\x21\xff\x7f\xf1\x00\x00\x00\
\xdb\x21\xff\x7f\xf1\x00\x00\x00";

// The bytes of a text's code.
fn bytes_of(alloc: Global, text: &str) -> Option<Vec<u8>> {
    match assemble(alloc, text) {
        Ok(code) => encode(alloc, &code).ok(),
        Err(_) => None,
    }
}

// The text of a text's code.
fn printed(alloc: Global, text: &str) -> Option<Text> {
    match assemble(alloc, text) {
        Ok(code) => disassemble(alloc, &code).ok(),
        Err(_) => None,
    }
}

#[test]
fn every_instruction_has_its_bytes_and_comes_back(rt: HostRuntime) -> Result<(), Fail> {
    for (text, bytes) in [(COMMON, COMMON_BYTES), (NEWER, NEWER_BYTES)] {
        let assembled = bytes_of(rt.alloc(), text).expect(&rt, "assembles");
        assert_eq!(rt; assembled.as_slice(), bytes);
        let again = printed(rt.alloc(), text).expect(&rt, "prints");
        assert_eq!(rt; again.as_str(), text);
    }
    Ok(())
}

#[test]
fn texts_are_printed_in_the_one_form(rt: HostRuntime) -> Result<(), Fail> {
    let cases = [
        ("mov r0, 8\nexit\n", "mov r0, 8\nexit\n"),
        ("", ""),
        ("; nothing\n\n \t", ""),
        ("exit \t; done", "exit\n"),
        ("mov r10, -2147483648", "mov r10, -2147483648\n"),
        ("jeq r1, -0, +32767", "jeq r1, 0, +32767\n"),
        ("ja -0x8000", "ja -32768\n"),
        (
            "\tlddw r1,-0x1;all ones\nloop: ;\n add r1 , 0x0F\n ja loop",
            "lddw r1, 18446744073709551615\nadd r1, 15\nja -2\n",
        ),
        (
            "lddw r1, 0xFFffffffffffffff",
            "lddw r1, 18446744073709551615\n",
        ),
        (
            "lddw r1, -0x8000000000000000",
            "lddw r1, 9223372036854775808\n",
        ),
        ("ja r1\nexit\nr1:", "ja +1\nexit\n"),
        ("call f\nexit\nf: exit", "call +1\nexit\nexit\n"),
    ];
    for (text, form) in cases {
        let again = printed(rt.alloc(), text).expect(&rt, "assembles");
        assert_eq!(rt; again.as_str(), form);
    }
    Ok(())
}

// The line and kind of the first fault.
fn fault_of(alloc: Global, text: &[u8]) -> Option<(u32, AsmKind)> {
    match assemble_bytes(alloc, text) {
        Err(TextErr::Asm(AsmFault { line, kind })) => Some((line, kind)),
        _ => None,
    }
}

#[test]
fn the_first_fault_is_told_with_its_line(rt: HostRuntime) -> Result<(), Fail> {
    let cases = [
        ("exit\n mov r0, \x01", 2, AsmKind::Char),
        ("exit ; \r\n", 1, AsmKind::Char),
        ("1a: \u{e9}", 1, AsmKind::Char),
        ("a: exit\na: leave", 2, AsmKind::Label),
        ("1a: exit", 1, AsmKind::Label),
        (": exit", 1, AsmKind::Label),
        ("a23456789012345678901234567890123: exit", 1, AsmKind::Label),
        ("a: b: exit", 1, AsmKind::Word),
        ("lab :", 1, AsmKind::Word),
        ("mov, r0", 1, AsmKind::Word),
        ("Exit", 1, AsmKind::Word),
        ("exit ,", 1, AsmKind::Operand),
        ("mov r0", 1, AsmKind::Operand),
        ("mov r0 r1", 1, AsmKind::Operand),
        ("mov r99, [r1+1]", 1, AsmKind::Operand),
        ("ldxb r0, [r11 +1]", 1, AsmKind::Operand),
        ("ldxb r0, [r-1]", 1, AsmKind::Register),
        ("mov r11, 010", 1, AsmKind::Register),
        ("stw [r1+99999], 1\nmov r01, 1", 1, AsmKind::Number),
        ("ldxb r0, [r1+3]x]", 1, AsmKind::Number),
        ("mov r10, 010", 1, AsmKind::Number),
        ("mov r10, 2147483648", 1, AsmKind::Number),
        ("mov r10, 0X1", 1, AsmKind::Number),
        ("mov r10, 0x", 1, AsmKind::Number),
        ("jeq r1, r2, -32769", 1, AsmKind::Number),
        ("lddw r1, 0x10000000000000000", 1, AsmKind::Number),
        ("lddw r1, -0x8000000000000001", 1, AsmKind::Number),
        ("ja nowhere\nexit", 1, AsmKind::Unknown),
        ("ja nowhere\nleave", 2, AsmKind::Word),
    ];
    for (text, line, kind) in cases {
        assert_eq!(rt;
            fault_of(rt.alloc(), text.as_bytes()),
            Some((line, kind)),
            "of {text}"
        );
    }
    assert_eq!(rt; fault_of(rt.alloc(), b"\x80"), Some((1, AsmKind::Char)));
    Ok(())
}

#[test]
fn code_ends_with_slot_4095(rt: HostRuntime) -> Result<(), Fail> {
    let mut text = Vec::new(rt.alloc());
    for _ in 0..4095 {
        text.extend_from_slice(b"exit\n")?;
    }
    text.extend_from_slice(b"end: ja end\n")?;
    assert_eq!(rt; fault_of(rt.alloc(), &text), None);
    text.extend_from_slice(b"exit\n")?;
    assert_eq!(rt; fault_of(rt.alloc(), &text), Some((4097, AsmKind::Long)));
    Ok(())
}
