//! The meta data of a drive.
ghost use Rattle.std.specs.Prelude.{◌≡◌, [], replicate, false, IfOk};

use crate::bits::Bits;
use extent_map::ExtentMap;
use name_table::Names;
use page_base::{Geometry, NoMemory};
use std::alloc::Global;

/// The meta data of a drive: its files, the blocks of their pages, and which data blocks are written.
#[derive(Drop)]
pub struct Meta {
    pub geometry: Geometry,
    pub names: Names,
    pub extents: ExtentMap,
    /// One truth value per data block.
    pub written: Bits,
}

/// The meta data of an empty drive: no files, and the next id is 1.
pub fn empty_meta(alloc: Global, geometry: Geometry) -> Result<Meta, NoMemory>
    ensures { IfOk result (λ m. m ≡ record { geometry = geometry; names = record { files = []; next = 1 }; extents = record { blocks = geometry.blocks; placed = [] }; written = replicate geometry.blocks false }) }
{
    let names = Names::new(alloc)?;
    let extents = ExtentMap::new(alloc, geometry.blocks())?;
    let written = Bits::new(alloc, geometry.blocks())?;
    Ok(Meta {
        geometry,
        names,
        extents,
        written,
    })
}
