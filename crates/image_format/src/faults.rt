//! What is wrong with an image.
ghost use Rattle.std.specs.Prelude.{◌≡◌};
ghost use Rattle.image_format.specs.declared.faults.MountErr.TheVariants.{NoMemory};

use std::alloc::{AllocError, AllocFailed};

/// The kinds of faults, in the order in which they answer.
#[derive(Clone, Copy, Debug, PartialEq, Eq)]
pub enum ImageKind {
    /// Fewer than 4,096 bytes. The place is the byte count.
    Short,
    /// The first four bytes aren't `LIO1`.
    Magic,
    /// The version is neither 1 nor 2.
    Version,
    /// Data blocks out of 1 to 65,536, at 8, or dies out of 1 to 16, at 12.
    Geometry,
    /// The byte count isn't that of the geometry. The place is the byte count.
    Length,
    /// The next id is 0.
    NextId,
    /// A byte of 20 to 4,095 isn't zero.
    Reserved,
    /// A record's form is wrong. The place of this and the next two kinds is the record's offset.
    RecordForm,
    /// A file's length is above 2^28.
    FileLength,
    /// A name is ill formed, has something behind it, or is that of an earlier record.
    Name,
    /// An entry isn't the next one, or its blocks pass the end. The place of this and the next kind is the entry's offset.
    Extent,
    /// An entry has a block that an earlier one has.
    Overlap,
    /// A file isn't wholly covered. The place is the first such id.
    Cover,
    /// A bit is set of a block that no entry has. The place is the first such bit.
    Bitmap,
    /// A file's last block is written and goes on behind the file's length. The place is the first such id.
    Tail,
}

/// The first fault of an image, and its place.
#[derive(Clone, Copy, Debug, PartialEq, Eq)]
pub struct ImageFault {
    pub kind: ImageKind,
    pub place: u64,
}

/// Why an image was not mounted.
#[derive(Debug, Drop)]
pub enum MountErr {
    /// It has this first fault.
    Image(ImageFault),
    /// Memory was wanting.
    NoMemory,
}

impl From<AllocError> for MountErr {
    ghost from_gives = { λ _ e. e ≡ NoMemory };

    fn from(_e: AllocError) -> MountErr {
        MountErr::NoMemory
    }
}

impl<T: Drop> From<AllocFailed<T>> for MountErr {
    ghost from_gives = { λ _ e. e ≡ NoMemory };

    fn from(_e: AllocFailed<T>) -> MountErr {
        MountErr::NoMemory
    }
}
