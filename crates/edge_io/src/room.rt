// A room: named bytes that may fail to be read or written.
ghost use Rattle.std.specs.Prelude.{◌≡◌, ◌≤◌, ℕ, List, [], Option, OnOk, OnErr, IsErrOf};
ghost use Rattle.edge_io.specs.Edges.{Names, Rose, IsUnder, Lacks, HasName, with_entry, SameElsewhere};
ghost use Rattle.edge_io.specs.declared.room.ReadErr.TheVariants.{NoMemory as ReadNoMemory};
ghost use Rattle.edge_io.specs.declared.room.WriteErr.TheVariants.{NoMemory as WriteNoMemory};

use std::alloc::AllocError;

/// Why a read gave nothing.
#[derive(Clone, Copy, Debug, PartialEq, Eq)]
pub enum ReadErr {
    /// Nothing is under the name.
    Absent,
    /// The read failed, and was counted.
    Failed,
    /// Memory was wanting.
    NoMemory,
}

impl From<AllocError> for ReadErr {
    ghost from_gives = { λ _ e. e ≡ ReadNoMemory };

    fn from(_: AllocError) -> Self {
        ReadErr::NoMemory
    }
}

/// Why a write wasn't done.
#[derive(Clone, Copy, Debug, PartialEq, Eq)]
pub enum WriteErr {
    /// The write failed, and was counted. What is under the name is then unknown.
    Failed,
    /// Memory was wanting, and nothing was changed.
    NoMemory,
}

impl From<AllocError> for WriteErr {
    ghost from_gives = { λ _ e. e ≡ WriteNoMemory };

    fn from(_: AllocError) -> Self {
        WriteErr::NoMemory
    }
}

/// Bytes under names, as a folder of files. A room tells its bytes or doesn't, and no call changes that.
pub trait Room {
    /// What is under each name, where it tells.
    ghost names: { Self → Option Names };

    /// How many of its calls have failed. It never falls, and stays at 2^64 - 1 once it is there.
    ghost faults: { Self → ℕ };

    /// Puts the named bytes into an empty vector, which is empty again after an error.
    /// Absent comes only where nothing is under the name, and Failed only where something is.
    fn read(&mut self, name: &str, into: &mut Vec<u8>) -> Result<(), ReadErr>
        requires { into.old.items ≡ [] }
        ensures ok { OnOk result (IsUnder (names self.old) name.now into.new.items) }
        ensures err { OnErr result (into.new.items ≡ []) }
        ensures absent { IsErrOf result ReadErr.Absent → Lacks (names self.old) name.now }
        ensures found { IsErrOf result ReadErr.Failed → HasName (names self.old) name.now }
        ensures failed { IsErrOf result ReadErr.Failed → Rose (faults self.old) (faults self.new) }
        ensures later { faults self.old ≤ faults self.new }
        ensures same { names self.new ≡ names self.old };

    /// Puts the bytes under the name, in place of what was there. The other names stay as they are,
    /// after an error too.
    fn write(&mut self, name: &str, bytes: &[u8]) -> Result<(), WriteErr>
        ensures ok { OnOk result (names self.new ≡ with_entry (names self.old) name.now bytes.now) }
        ensures failed { IsErrOf result WriteErr.Failed → Rose (faults self.old) (faults self.new) }
        ensures others { IsErrOf result WriteErr.Failed → SameElsewhere (names self.old) (names self.new) name.now }
        ensures unchanged { IsErrOf result WriteErr.NoMemory → names self.new ≡ names self.old }
        ensures later { faults self.old ≤ faults self.new };
}
