//! Where the two versions of an image differ.
ghost use Rattle.std.specs.Prelude.{◌≡◌};
ghost use Rattle.image_format.specs.Layout.{layout, record_pages, IsLayout};

/// The file records of a version.
#[derive(Clone, Copy, Debug, PartialEq, Eq)]
pub struct Layout {
    /// How many records there are.
    pub records: u32,
    /// The bytes of a record.
    pub size: usize,
    /// Where in a record its name begins.
    pub name_at: usize,
    /// The bytes of the longest name.
    pub longest: usize,
    /// Whether byte 9 is the sealed mark.
    pub seals: bool,
}

const FIRST: Layout = Layout {
    records: 1024,
    size: 64,
    name_at: 16,
    longest: 48,
    seals: false,
};

const SECOND: Layout = Layout {
    records: 4096,
    size: 128,
    name_at: 32,
    longest: 96,
    seals: true,
};

/// The layout of version 1, and else that of version 2.
pub fn layout_of(version: u32) -> Layout
    ensures value { result ≡ layout version }
    ensures sound { IsLayout result }
{
    if version == 1 { FIRST } else { SECOND }
}

/// How many pages the file records of a version fill.
pub fn record_page_count(version: u32) -> u64
    ensures { result ≡ record_pages (layout version) }
{
    if version == 1 { 16 } else { 128 }
}
