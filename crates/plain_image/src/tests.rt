use super::*;
use image_format::{ImageFault, ImageKind, MountErr};
use std::alloc::{AllocError, Global};
use std::test::Fail;

// An image of version 1 of 4 blocks with a file of 4,097 bytes on the blocks 2 and 0, of which the last isn't written.
fn first_version(alloc: Global) -> Result<Vec<u8>, AllocError> {
    let mut image = vec![in alloc; 0u8; 4096 * 23]?;
    put(
        &mut image,
        0,
        b"LIO1\x01\0\0\0\x04\0\0\0\x03\0\0\0\x09\0\0\0",
    );
    put(
        &mut image,
        4096,
        b"\x02\0\0\0\x01\x10\0\0\x01\0\0\0\0\0\0\0a",
    );
    put(
        &mut image,
        4096 * 17,
        b"\x02\0\0\0\0\0\0\0\x02\0\0\0\x01\0\0\0",
    );
    put(
        &mut image,
        4096 * 17 + 16,
        b"\x02\0\0\0\x01\0\0\0\0\0\0\0\x01\0\0\0",
    );
    put(&mut image, 4096 * 18, &[4]);
    put(&mut image, 4096 * (19 + 2), b"first");
    put(&mut image, 4096 * 19, b"old");
    Ok(image)
}

fn put(image: &mut Vec<u8>, at: usize, bytes: &[u8]) {
    for (i, byte) in bytes.iter().enumerate() {
        if at < image.len() && i < image.len() - at {
            image[at + i] = *byte;
        }
    }
}

#[test]
fn first_version_is_loaded(rt: HostRuntime) -> Result<(), Fail> {
    let alloc = rt.alloc();
    let image = first_version(alloc)?;
    let Ok(OpenedImage { drive, .. }) = open_image(alloc, &image) else {
        return Ok(assert!(rt; false));
    };
    assert_eq!(rt;
        (
            drive.geometry.blocks(),
            drive.geometry.dies(),
            drive.plain.next_id()
        ),
        (4, 3, 9)
    );
    let file = drive.plain.file_at(0).ok_or("a file")?;
    let bytes = file.bytes.as_slice();
    assert_eq!(rt; (file.id, file.sealed, bytes.len()), (2, false, 4097));
    assert!(rt; bytes.starts_with(b"first\0"));
    assert!(rt; bytes.ends_with(&[0]));
    assert!(rt; drive.plain.file_at(1).is_none());
    Ok(())
}

// The same in version 2, and the file is sealed.
fn second_version(alloc: Global) -> Result<Vec<u8>, AllocError> {
    let mut image = vec![in alloc; 0u8; 4096 * 135]?;
    put(
        &mut image,
        0,
        b"LIO1\x02\0\0\0\x04\0\0\0\x03\0\0\0\x09\0\0\0",
    );
    put(&mut image, 4096, b"\x02\0\0\0\x01\x10\0\0\x01\x01");
    put(&mut image, 4096 + 32, b"a");
    put(
        &mut image,
        4096 * 129,
        b"\x02\0\0\0\0\0\0\0\x02\0\0\0\x01\0\0\0",
    );
    put(
        &mut image,
        4096 * 129 + 16,
        b"\x02\0\0\0\x01\0\0\0\0\0\0\0\x01\0\0\0",
    );
    put(&mut image, 4096 * 130, &[4]);
    put(&mut image, 4096 * (131 + 2), b"first");
    put(&mut image, 4096 * 131, b"old");
    Ok(image)
}

#[test]
fn sealed_mark_is_loaded(rt: HostRuntime) -> Result<(), Fail> {
    let alloc = rt.alloc();
    let image = second_version(alloc)?;
    let Ok(OpenedImage { drive, .. }) = open_image(alloc, &image) else {
        return Ok(assert!(rt; false));
    };
    let file = drive.plain.file_at(0).ok_or("a file")?;
    let bytes = file.bytes.as_slice();
    assert_eq!(rt; (file.id, file.sealed, bytes.len()), (2, true, 4097));
    assert!(rt; bytes.starts_with(b"first\0"));
    assert!(rt; bytes.ends_with(&[0]));
    Ok(())
}

#[test]
fn fault_of_an_image_is_told(rt: HostRuntime) -> Result<(), Fail> {
    let alloc = rt.alloc();
    let mut image = first_version(alloc)?;
    put(&mut image, 4096 * 17 + 16, &[3]);
    let kind = ImageKind::Extent;
    let place = 4096 * 17 + 16;
    match open_image(alloc, &image) {
        Err(MountErr::Image(fault)) => assert_eq!(rt; fault, ImageFault { kind, place }),
        _ => assert!(rt; false),
    }
    Ok(())
}
