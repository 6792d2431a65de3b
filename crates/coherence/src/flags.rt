/// What is known of a block besides its copies.
#[derive(Clone, Copy, Drop)]
pub struct Flags {
    /// Flash has its content, or it is unwritten and its content is zeros.
    pub clean: bool,
    /// Flash has some content of it.
    pub written: bool,
    /// How often it was written, released or allocated.
    pub version: u64,
}
