/// Who makes an event.
#[derive(Clone, Copy, Debug, PartialEq, Eq)]
pub enum Actor {
    /// A lane makes its calls one after the other, and acts for a call while it holds it.
    Lane(u32),
    /// A worker of the drive acts for the call that it runs.
    Worker(u32),
    /// A flusher writes unclean blocks to flash.
    Flusher(u32),
    /// The closer writes all to flash once every lane has left.
    Closer,
}
