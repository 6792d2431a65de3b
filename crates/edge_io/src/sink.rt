// A sink: it takes bytes, some of a piece at a time, and may fail.
ghost use Rattle.std.specs.Prelude.{◌≡◌, ◌≤◌, ◌<◌, ℕ, List, length, take, Option, OnOk, OnErr, IfOk};
ghost use Rattle.edge_io.specs.Edges.{Rose, appended, AppendsFront};

/// A write failed, and was counted. Nothing of its piece was taken.
#[derive(Clone, Copy, Debug, PartialEq, Eq)]
pub struct SinkFailed;

/// A place that bytes are written to, one after another. A sink tells its bytes or doesn't, and no
/// call changes that.
pub trait Sink {
    /// The bytes that were written to it, where it tells.
    ghost written: { Self → Option (List ℕ) };

    /// How many of its writes have failed. It never falls, and stays at 2^64 - 1 once it is there.
    ghost faults: { Self → ℕ };

    /// Appends a front of the piece, at least one byte of a piece that isn't empty, and says how
    /// many bytes it took. After an error nothing was appended.
    fn write(&mut self, bytes: &[u8]) -> Result<usize, SinkFailed>
        ensures within { IfOk result (λ k. k ≤ length bytes.now) }
        ensures some { IfOk result (λ k. 0 < length bytes.now → 0 < k) }
        ensures ok { IfOk result (λ k. written self.new ≡ appended (written self.old) (take k bytes.now)) }
        ensures err { OnErr result (written self.new ≡ written self.old) }
        ensures failed { OnErr result (Rose (faults self.old) (faults self.new)) }
        ensures later { faults self.old ≤ faults self.new };
}

/// Writes all the bytes. Where a write fails, a front of them was written, and the count has risen.
pub fn put_all<O: Sink>(out: &mut O, bytes: &[u8]) -> Result<(), SinkFailed>
    ensures ok { OnOk result (O.written out.new ≡ appended (O.written out.old) bytes.now) }
    ensures err { OnErr result (AppendsFront (O.written out.old) (O.written out.new) bytes.now) }
    ensures failed { OnErr result (Rose (O.faults out.old) (O.faults out.new)) }
    ensures later { O.faults out.old ≤ O.faults out.new }
{
    let mut done = 0;
    while done < bytes.len() {
        done += out.write(&bytes[done..])?;
    }
    Ok(())
}
