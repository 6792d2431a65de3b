use super::*;
use page_base::{Geometry, Page};
use std::alloc::{AllocError, Global};
use std::test::Fail;

/// The offset of the extent entries of version 1.
const ENTRIES: usize = 4096 * 17;

// An image of version 1 without files, of so many pages.
fn plain(alloc: Global, blocks: u32, pages: usize, next: u32) -> Result<Vec<u8>, AllocError> {
    let mut image = vec![in alloc; 0u8; 4096 * pages.min(2000)]?;
    put(&mut image, 0, b"LIO1");
    put(&mut image, 4, &1u32.to_le_bytes());
    put(&mut image, 8, &blocks.to_le_bytes());
    put(&mut image, 12, &1u32.to_le_bytes());
    put(&mut image, 16, &next.to_le_bytes());
    Ok(image)
}

fn put(image: &mut Vec<u8>, at: usize, bytes: &[u8]) {
    for (i, byte) in bytes.iter().enumerate() {
        if at < image.len() && i < image.len() - at {
            image[at + i] = *byte;
        }
    }
}

fn put_file(image: &mut Vec<u8>, at: usize, id: u32, len: u32, name: &[u8]) {
    if at > 1_000_000 {
        return;
    }
    put(image, at, &id.to_le_bytes());
    put(image, at + 4, &len.to_le_bytes());
    put(image, at + 8, &[(name.len() % 256) as u8]);
    put(image, at + 16, name);
}

fn put_entry(image: &mut Vec<u8>, at: usize, entry: [u32; 4]) {
    if at > 1_000_000 {
        return;
    }
    put(image, at, &entry[0].to_le_bytes());
    put(image, at + 4, &entry[1].to_le_bytes());
    put(image, at + 8, &entry[2].to_le_bytes());
    put(image, at + 12, &entry[3].to_le_bytes());
}

fn fault_of(alloc: Global, bytes: &[u8]) -> Option<ImageFault> {
    match mount(alloc, bytes) {
        Ok(_) => None,
        Err(MountErr::NoMemory) => None,
        Err(MountErr::Image(fault)) => Some(fault),
    }
}

fn fault(kind: ImageKind, place: u64) -> Option<ImageFault> {
    Some(ImageFault { kind, place })
}

fn changed(alloc: Global, image: &[u8], at: usize, bytes: &[u8]) -> Result<Vec<u8>, AllocError> {
    let mut other = image.to_vec(alloc)?;
    put(&mut other, at, bytes);
    Ok(other)
}

#[test]
fn hostile_headers(rt: HostRuntime) -> Result<(), Fail> {
    let alloc = rt.alloc();
    let image = plain(alloc, 1, 20, 1)?;
    assert!(rt; mount(alloc, &image).is_ok());
    assert_eq!(rt; fault_of(alloc, &[0; 100]), fault(ImageKind::Short, 100));
    for (at, byte, kind, place) in [
        (0, 0, ImageKind::Magic, 0),
        (4, 3, ImageKind::Version, 4),
        (8, 0, ImageKind::Geometry, 8),
        (12, 17, ImageKind::Geometry, 12),
        (4, 2, ImageKind::Length, 81_920),
        (16, 0, ImageKind::NextId, 16),
        (4095, 1, ImageKind::Reserved, 4095),
        (4096 + 9, 1, ImageKind::RecordForm, 4096),
    ] {
        let other = changed(alloc, &image, at, &[byte])?;
        assert_eq!(rt; fault_of(alloc, &other), fault(kind, place));
    }
    let mut longer = image.to_vec(alloc)?;
    longer.push(0)?;
    assert_eq!(rt; fault_of(alloc, &longer), fault(ImageKind::Length, 81_921));
    Ok(())
}

#[test]
fn hostile_files(rt: HostRuntime) -> Result<(), Fail> {
    let alloc = rt.alloc();
    let mut image = plain(alloc, 1, 20, 2)?;
    put_file(&mut image, 4096, 1, 268_435_457, b"a");
    assert_eq!(rt; fault_of(alloc, &image), fault(ImageKind::FileLength, 4096));
    put_file(&mut image, 4096, 1, 8192, b"a");
    put_entry(&mut image, ENTRIES, [1, 0, 0, 2]);
    assert_eq!(rt; fault_of(alloc, &image), fault(ImageKind::Extent, 69_632));
    put_file(&mut image, 4096, 1, 4096, b"a");
    put_entry(&mut image, ENTRIES, [0, 0, 0, 0]);
    assert_eq!(rt; fault_of(alloc, &image), fault(ImageKind::Cover, 1));
    let empty = plain(alloc, 1, 20, 1)?;
    let marked = changed(alloc, &empty, 4096 * 18, &[1])?;
    assert_eq!(rt; fault_of(alloc, &marked), fault(ImageKind::Bitmap, 0));
    put_file(&mut image, 4096, 1, 1, b"a");
    put_entry(&mut image, ENTRIES, [1, 0, 0, 1]);
    put(&mut image, 4096 * 18, &[1]);
    assert!(rt; mount(alloc, &image).is_ok());
    put(&mut image, 4096 * 19 + 1, &[1]);
    assert_eq!(rt; fault_of(alloc, &image), fault(ImageKind::Tail, 1));
    Ok(())
}

#[test]
fn faults_in_their_order(rt: HostRuntime) -> Result<(), Fail> {
    let alloc = rt.alloc();
    let mut image = plain(alloc, 1024, 17 + 4 + 1 + 1024, 3)?;
    put_file(&mut image, 4096, 1, 4096, b"a");
    put_file(&mut image, 4096 + 64, 2, 4096, b"b");
    put_entry(&mut image, ENTRIES, [1, 0, 0, 1]);
    put_entry(&mut image, ENTRIES + 16, [2, 0, 0, 1]);
    assert_eq!(rt; fault_of(alloc, &image), fault(ImageKind::Overlap, 69_648));
    put(&mut image, 4096 + 8, &[0]);
    put(&mut image, 4096 + 16, &[0]);
    assert_eq!(rt; fault_of(alloc, &image), fault(ImageKind::Name, 4096));
    Ok(())
}

// The bytes of some pages, one after the other.
fn bytes_of(alloc: Global, pages: &[Page]) -> Result<Vec<u8>, AllocError> {
    let mut bytes = Vec::new(alloc);
    for page in pages {
        let mut piece = [0; 4096];
        page.read(0, &mut piece);
        bytes.extend_from_slice(&piece)?;
    }
    Ok(bytes)
}

// An image of version 1 is mounted; its pages are an image of version 2, which mounts to the same.
#[test]
fn first_version_becomes_the_second(rt: HostRuntime) -> Result<(), Fail> {
    let alloc = rt.alloc();
    let mut image = plain(alloc, 1024, 17 + 4 + 1 + 1024, 9)?;
    put_file(&mut image, 4096, 2, 4097, b"a");
    put_file(&mut image, 4096 + 64, 5, 0, b"empty");
    put_file(&mut image, 4096 + 128, 7, 4096, b"b");
    put_entry(&mut image, ENTRIES, [2, 0, 9, 1]);
    put_entry(&mut image, ENTRIES + 16, [2, 1, 3, 1]);
    put_entry(&mut image, ENTRIES + 32, [7, 0, 4, 1]);
    put(&mut image, 4096 * 21, &[0x18]);
    put(&mut image, 4096 * (22 + 3), &[0x55]);
    put(&mut image, 4096 * (22 + 4) + 7, &[0x66]);
    let (meta, pages) = mount(alloc, &image).ok().ok_or("an image of version 1")?;
    assert_eq!(rt; pages.len(), 129 + 4 + 1 + 1024);
    assert_eq!(rt; meta.extents.block_of(2, 1), Some(3));
    assert_eq!(rt; meta.names.next_id(), 9);
    let second = bytes_of(alloc, &pages)?;
    assert_eq!(rt; second.len(), 4096 * (129 + 4 + 1 + 1024));
    let (again, same) = mount(alloc, &second).ok().ok_or("an image of version 2")?;
    let third = bytes_of(alloc, &same)?;
    assert!(rt; second.as_slice() == third.as_slice());
    assert_eq!(rt; again.extents.block_of(2, 0), Some(9));
    assert_eq!(rt; again.names.len(), 3);
    assert!(rt; again.geometry.dies() == 1);
    Ok(())
}

// The image of an empty drive mounts, and its first page is the one of meta data.
#[test]
fn empty_drive_mounts(rt: HostRuntime) -> Result<(), Fail> {
    let alloc = rt.alloc();
    let geometry = Geometry::new(1, 1).ok_or("a geometry")?;
    let meta = empty_meta(alloc, geometry)?;
    let image = image_of(alloc, &meta, &[Page::zero(alloc)?])?;
    assert_eq!(rt; image.len(), 4096 * 132);
    assert!(rt; mount(alloc, &image).is_ok());
    let mut page = Page::zero(alloc)?;
    meta_page(&meta, 0, &mut page);
    assert_eq!(rt; (page.byte(0), page.byte(4), page.byte(16)), (76, 2, 1));
    Ok(())
}
