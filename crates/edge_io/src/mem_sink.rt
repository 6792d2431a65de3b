// A sink in memory, which fails where it is told to.
ghost use Rattle.std.specs.Prelude.{◌≡◌, ◌<◌, ◌↔◌, ℕ, Some, [], length, take, min, IfOk, OnErr, IsErr, IsTrue};
ghost use Rattle.edge_io.specs.Memory.{room_left, is_refused, after_refusal, after_taking};

use crate::{Sink, SinkFailed};
use std::alloc::{AllocError, Global};
use std::marker::Model;

/// Bytes in memory, up to a room that is taken beforehand. The k-th write, counted from 1, fails
/// where k is listed, and a write of a piece that isn't empty fails where no room is left; any other
/// write appends as much of its piece as there is room for. A number of calls stays at 2^64 - 1 once
/// it is there.
#[derive(Debug, Drop)]
pub struct MemSink {
    bytes: Vec<u8>,
    room: usize,
    fail: Vec<u64>,
    writes: u64,
    faults: u64,
}

impl Model for MemSink {
    ghost use Rattle.std.specs.Prelude.{◌≤◌, length, vec_capacity};
    ghost use Rattle.edge_io.specs.Memory.{SinkState};

    ghost Value = { SinkState };

    ghost view = { λ s. record {
      bytes = s.bytes.items;
      room = s.room;
      fail = s.fail.items;
      writes = s.writes;
      faults = s.faults;
    } };

    ghost invariant = { λ s. (length s.bytes.items ≤ s.room) × (s.room ≤ vec_capacity s.bytes) };
}

impl MemSink {
    /// A sink with room for so many bytes. All its memory is taken here.
    pub fn new(alloc: Global, room: usize, fail: Vec<u64>) -> Result<Self, AllocError>
        ensures { IfOk result (λ s. s ≡ record {
          bytes = [];
          room = room;
          fail = fail.items;
          writes = 0;
          faults = 0;
        }) }
    {
        Ok(MemSink {
            bytes: Vec::with_capacity(alloc, room)?,
            room,
            fail,
            writes: 0,
            faults: 0,
        })
    }

    /// The bytes that were written.
    pub fn bytes(&self) -> &[u8]
        ensures { result.now ≡ self.now.bytes }
    {
        &self.bytes
    }
}

impl Sink for MemSink {
    ghost written = { λ m. Some m.bytes };

    ghost faults = { λ m. m.faults };

    fn write(&mut self, bytes: &[u8]) -> Result<usize, SinkFailed>
        ensures failed { IsErr result ↔ IsTrue (is_refused self.old bytes.now) }
        ensures count { IfOk result (λ k. k ≡ min (length bytes.now) (room_left self.old)) }
        ensures some { IfOk result (λ k. 0 < length bytes.now → 0 < k) }
        ensures ok { IfOk result (λ k. self.new ≡ after_taking self.old (take k bytes.now)) }
        ensures err { OnErr result (self.new ≡ after_refusal self.old) }
    {
        self.writes = self.writes.saturating_add(1);
        let left = self.room - self.bytes.len();
        if self.fail.contains(&self.writes) || (left == 0 && !bytes.is_empty()) {
            self.faults = self.faults.saturating_add(1);
            return Err(SinkFailed);
        }
        let count = bytes.len().min(left);
        match self.bytes.extend_from_slice(&bytes[..count]) {
            Ok(()) => Ok(count),
            Err(_) => unreachable!(),
        }
    }
}
