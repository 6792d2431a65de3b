//! Pages of files on data blocks.

/// A page of a file, and the data block that it has.
#[derive(Clone, Copy, Debug, PartialEq, Eq)]
pub struct Place {
    /// The file's id.
    pub file: u32,
    /// The page's number in its file, from 0.
    pub page: u32,
    /// The number of the data block, from 0.
    pub block: u32,
}

/// Pages of a file that follow one another, on data blocks that do.
#[derive(Clone, Copy, Debug, PartialEq, Eq)]
pub struct Extent {
    /// The file's id.
    pub file: u32,
    /// The first page.
    pub page: u32,
    /// The block of the first page.
    pub block: u32,
    /// How many pages there are.
    pub count: u32,
}

/// Fewer blocks are free than were asked for.
#[derive(Clone, Copy, Debug, PartialEq, Eq)]
pub struct NoSpace {
    /// How many blocks are free.
    pub free: u32,
}

/// A block of an extent is used already.
#[derive(Clone, Copy, Debug, PartialEq, Eq)]
pub struct Taken {
    /// The lowest such block.
    pub block: u32,
}
