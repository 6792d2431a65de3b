/// The two places where a call can run: each has a page cache of its own.
#[derive(Clone, Copy, Debug, PartialEq, Eq)]
pub enum Side {
    /// The host, over the bus.
    Host,
    /// Inside the drive.
    Drive,
}

/// Where calls that run a function are to go.
#[derive(Clone, Copy, Debug, PartialEq, Eq)]
pub enum Place {
    /// To the side that costs less.
    Auto,
    /// All to the host.
    Host,
    /// All to the drive.
    Drive,
}
