//! How an input is cut, and the limits of a scan.
ghost use Rattle.std.specs.Prelude.{◌≡◌, ◌≤◌};
ghost use Rattle.chunk_scan.specs.Pieces.{piece_count, is_within_limits};

/// The most pieces.
const MOST_PIECES: u64 = 65_536;

/// The most bytes that the outputs of all pieces have.
const MOST_OUTPUT: u64 = 1 << 26;

/// How many pieces of a size so many bytes have.
pub fn piece_count(size: u32, bytes: u64) -> u64
    requires { 1 ≤ size }
    ensures { result ≡ piece_count size bytes }
{
    bytes.div_ceil(u64::from(size))
}

/// Whether so many bytes have at most 65,536 pieces of a size, and outputs of `cap` bytes for all these at most 2^26 bytes.
pub fn is_within_limits(size: u32, bytes: u64, cap: u32) -> bool
    requires { 1 ≤ size }
    ensures { result ≡ is_within_limits size bytes cap }
{
    let count = piece_count(size, bytes);
    count <= MOST_PIECES && count * u64::from(cap) <= MOST_OUTPUT
}
