// Where a page of the die lies.

/// Where a page of the die lies.
#[derive(Clone, Copy, Debug, PartialEq, Eq)]
pub enum Place {
    /// It was never written, and has zeros.
    Unwritten,
    /// At this page of raw flash.
    At(u32),
    /// In this slot of the buffer.
    Held(u32),
}
