// Which calls of a die fail.
use edge_io::Listed;

/// The numbers of the reads and of the writes that fail, each counted from 1.
#[derive(Drop)]
pub struct Plan {
    /// The numbers of the reads that fail.
    pub reads: Listed<u32>,
    /// The numbers of the writes that fail.
    pub writes: Listed<u32>,
}
