//! A scan as it is printed.

ghost use Rattle.std.specs.Prelude.{◌≡◌, IfOk};

use crate::{LinesErr, scanned_lines};
use edge_io::Bytes;
use sbpf_load::load_code;
use std::alloc::{AllocError, Global};
use std::test::Fail;

// ldxdw r2, [r1+0]; ldxb r0, [r2+0]; exit: gives the first byte of its input.
const FIRST: &[u8] = b"\x79\x12\0\0\0\0\0\0\x71\x20\0\0\0\0\0\0\x95\0\0\0\0\0\0\0";

fn bytes(alloc: Global, bytes: &[u8]) -> Result<Bytes, AllocError>
    ensures { IfOk result (λ copy. copy ≡ bytes.now) }
{
    Ok(Bytes::new(bytes.to_vec(alloc)?))
}

#[test]
fn each_piece_has_a_line(rt: HostRuntime) -> Result<(), Fail> {
    let alloc = rt.alloc();
    let code = load_code(alloc, FIRST)?;
    let input = bytes(alloc, b"\x01.\x09.\0")?;
    let param = bytes(alloc, b"")?;
    let Ok(text) = scanned_lines(&rt, alloc, &code, &input, 2, 10, 1, &param) else {
        return Err("no lines")?;
    };
    assert_eq!(rt;
        text.as_str(),
        "0 res 00\n1 trap outlen 9\n2 res -\nchunks 3\n"
    );
    Ok(())
}

#[test]
fn too_many_pieces_are_refused(rt: HostRuntime) -> Result<(), Fail> {
    let alloc = rt.alloc();
    let code = load_code(alloc, FIRST)?;
    let input = Bytes::new(vec![in alloc; 0; 65_537]?);
    let param = bytes(alloc, b"")?;
    let refused = match scanned_lines(&rt, alloc, &code, &input, 1, 10, 1, &param) {
        Ok(_) => false,
        Err(e) => e == LinesErr::Limit,
    };
    assert!(rt; refused);
    Ok(())
}
