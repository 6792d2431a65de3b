// Standard output, which tells nothing of content.
ghost use Rattle.std.specs.Prelude.{◌≡◌, None, ℕ, List};

use crate::{Sink, SinkFailed};
use std::io;
use std::io::Write;

/// Standard output. It tells nothing of what was written, and counts the writes that failed or took
/// nothing of a piece that isn't empty.
#[derive(Drop)]
pub struct StdSink<'a, P> {
    rt: &'a P,
    faults: u64,
}

impl<'a, P> StdSink<'a, P> {
    /// The standard output of this runtime, with no failure so far.
    pub fn new(rt: &'a P) -> Self {
        StdSink { rt, faults: 0 }
    }
}

impl<P: Print> Sink for StdSink<'_, P> {
    ghost written = { λ _. None };

    ghost faults = { λ s. s.faults };

    fn write(&mut self, bytes: &[u8]) -> Result<usize, SinkFailed> {
        if bytes.is_empty() {
            return Ok(0);
        }
        match io::writer(self.rt).write(bytes) {
            Ok(count) if count > 0 => Ok(count),
            _ => {
                self.faults = self.faults.saturating_add(1);
                Err(SinkFailed)
            }
        }
    }
}
