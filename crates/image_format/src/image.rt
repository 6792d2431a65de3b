//! The image of a drive, which is of version 2.
ghost use Rattle.std.specs.Prelude.{ℕ, ◌≡◌, ◌++◌, List, length, Ok, IfOk};
ghost use Rattle.std.specs.List.{flat_map, AllByRecursion};
ghost use Rattle.image_format.specs.Image.{mounts_to};
ghost use Rattle.image_format.specs.Encoding.{meta_bytes, image_bytes};
ghost use Rattle.image_format.specs.Tables.{IsOneSize};
ghost use Rattle.image_format.specs.Whole.{stands_for, IsWhole};

use crate::meta::Meta;
use crate::pages::meta_page;
use page_base::{NoMemory, Page};
use std::alloc::Global;

// Adds the bytes of a page.
fn add_page(into: &mut Vec<u8>, page: &Page) -> Result<(), NoMemory>
    ensures value { IfOk result (λ _. into.new.items ≡ into.old.items ++ page.now) }
    ensures whole { length page.now ≡ 4096 }
{
    let mut bytes = [0; 4096];
    page.read(0, &mut bytes);
    into.extend_from_slice(&bytes)?;
    Ok(())
}

// Adds the bytes of the meta data.
fn add_meta(alloc: Global, into: &mut Vec<u8>, meta: &Meta) -> Result<(), NoMemory>
    requires { IsOneSize meta.now }
    ensures { IfOk result (λ _. into.new.items ≡ into.old.items ++ meta_bytes meta.now) }
{
    let _names = meta.names.len();
    let _blocks = meta.extents.blocks();
    let mut page = Page::zero(alloc)?;
    for i in 0..meta.geometry.meta_pages() {
        meta_page(meta, i, &mut page);
        add_page(into, &page)?;
    }
    Ok(())
}

// Adds the bytes of the data blocks.
fn add_blocks(into: &mut Vec<u8>, blocks: &[Page]) -> Result<(), NoMemory>
    ensures value { IfOk result (λ _. into.new.items ≡ into.old.items ++ flat_map (λ page. page) blocks.now) }
    ensures whole { IfOk result (λ _. AllByRecursion (λ (page : List ℕ). length page ≡ 4096) blocks.now) }
{
    for page in blocks {
        add_page(into, page)?;
    }
    Ok(())
}

/// The image of a drive: its meta data, and then its data blocks.
///
/// Mounting it gives the files for which they stand, where these are whole.
pub fn image_of(alloc: Global, meta: &Meta, blocks: &[Page]) -> Result<Vec<u8>, NoMemory>
    requires { IsOneSize meta.now }
    ensures bytes { IfOk result (λ v. v.items ≡ image_bytes meta.now blocks.now) }
    ensures mounts { IsWhole meta.now blocks.now → IfOk result (λ v. mounts_to v.items ≡ Ok (stands_for meta.now blocks.now)) }
{
    let _drive = meta.geometry.blocks();
    let _names = meta.names.len();
    let _extents = meta.extents.blocks();
    let mut bytes = Vec::with_capacity(alloc, 4096 * meta.geometry.total() as usize)?;
    add_meta(alloc, &mut bytes, meta)?;
    add_blocks(&mut bytes, blocks)?;
    Ok(bytes)
}
