//! Words in the places of names and sizes.
ghost use Rattle.std.specs.Prelude.{◌≡◌, ◌≤◌, IfOk};
ghost use Rattle.command_words.specs.Places.{is_file_word, are_two, are_files, drive_of, width_of};

use crate::numbers::number_in;
use edge_io::Text;
use page_base::Geometry;
use std::alloc::{AllocError, Global};
use std::marker::Model;

pub fn is_file_word(word: &str) -> bool
    ensures { result ≡ is_file_word word.now }
{
    !word.is_empty() && !word.as_bytes().starts_with(b"--")
}

#[tactic(auto, unfolding(crate::specs::Places::are_two))]
pub fn are_two(first: &str, second: &str) -> bool
    ensures { result ≡ are_two first.now second.now }
{
    is_file_word(first) && is_file_word(second)
}

#[tactic(auto, unfolding(crate::specs::Places::are_files))]
pub fn are_files(first: &str, second: &str, third: &str) -> bool
    ensures { result ≡ are_files first.now second.now third.now }
{
    is_file_word(first) && is_file_word(second) && is_file_word(third)
}

pub fn text(alloc: Global, word: &str) -> Result<Text, AllocError>
    ensures { IfOk result (λ text. text ≡ word.now) }
{
    Ok(Text::new(String::from_str(alloc, word)?))
}

#[tactic(auto, unfolding(crate::specs::Places::drive_of))]
pub fn drive_of(blocks: &[u8], dies: &[u8]) -> Option<Geometry>
    ensures { result ≡ drive_of blocks.now dies.now }
{
    let blocks = number_in(1, 65536, blocks)?;
    let dies = number_in(1, 16, dies)?;
    Geometry::new(blocks, dies)
}

/// How many bytes a record has, 1 to 4,096. Contracts see it as a number.
#[derive(Drop)]
pub struct Width {
    bytes: u32,
}

impl Model for Width {
    ghost use Rattle.std.specs.Prelude.{ℕ, ◌≤◌};

    ghost Value = { ℕ };

    ghost view = { λ w. w.bytes };

    ghost invariant = { λ w. (1 ≤ w.bytes) × (w.bytes ≤ 4096) };
}

impl Width {
    /// The number of bytes.
    pub fn bytes(&self) -> u32
        ensures value { result ≡ self.now }
        ensures some { 1 ≤ self.now }
        ensures short { self.now ≤ 4096 }
    {
        self.bytes
    }
}

pub fn width_of(word: &str) -> Option<Width>
    ensures { result ≡ width_of word.now }
{
    let bytes = number_in(1, 4096, word.as_bytes())?;
    Some(Width { bytes })
}
