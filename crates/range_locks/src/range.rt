ghost use Rattle.std.specs.Prelude.{◌≡◌};
ghost use Rattle.range_locks.specs.Held.{hits};

/// Whether a range is held beside other shared ones, or by its call alone.
#[derive(Clone, Copy, Debug, PartialEq, Eq, Drop)]
pub enum Mode {
    Shared,
    Exclusive,
}

/// A range can't be held: this is the least call whose range conflicts with it.
#[derive(Clone, Copy, Debug, PartialEq, Eq, Drop)]
pub struct Conflict {
    pub call: u32,
}

/// The pages of a file from `from` up to below `to`, which may be none.
#[derive(Clone, Copy, Drop)]
pub struct Range {
    pub file: u32,
    pub from: u32,
    pub to: u32,
    pub mode: Mode,
}

/// Whether what a call holds conflicts with a range.
pub(crate) fn hits(range: &Range, held: &Option<Range>) -> bool
    ensures { result ≡ hits range.now held.now }
{
    let Some(other) = held else {
        return false;
    };
    let alone = match (range.mode, other.mode) {
        (Mode::Shared, Mode::Shared) => false,
        _ => true,
    };
    other.file == range.file && other.from.max(range.from) < other.to.min(range.to) && alone
}
