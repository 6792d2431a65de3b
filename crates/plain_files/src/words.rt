//! A word in a name's place.
ghost use Rattle.std.specs.Prelude.{◌≡◌, ◌≤◌, length, SomeIff};

use std::marker::Model;

/// The bytes of the longest word.
const MOST_BYTES: usize = 128;

/// A word in a name's place: at most 128 bytes, seen as their list.
/// Whether it is a name is for the machine to say: a word that is none is the name of no file.
#[derive(Debug, Drop)]
pub struct Word {
    bytes: [u8; MOST_BYTES],
    len: usize,
}

impl Model for Word {
    ghost use Rattle.std.specs.Prelude.{◌≤◌, List, ℕ, take};

    ghost Value = { List ℕ };

    ghost view = { λ w. take w.len w.bytes };

    ghost invariant = { λ w. w.len ≤ 128 };
}

impl Word {
    /// A word of these bytes; none exactly where there are more than 128.
    pub fn of(bytes: &[u8]) -> Option<Self>
        ensures { SomeIff result (length bytes.now ≤ 128) bytes.now }
    {
        let len = bytes.len();
        if len > MOST_BYTES {
            return None;
        }
        let mut padded = [0; MOST_BYTES];
        padded[..len].copy_from_slice(bytes);
        Some(Word { bytes: padded, len })
    }

    /// The bytes of the word.
    pub fn as_slice(&self) -> &[u8]
        ensures { result.now ≡ self.now }
    {
        &self.bytes[..self.len]
    }
}

#[cfg(test)]
mod tests {
    use super::*;

    #[test]
    fn words_have_up_to_128_bytes(rt: HostRuntime) {
        let longest = [b'/'; 128];
        let word = Word::of(&longest).expect(&rt, "a word");
        assert!(rt; word.as_slice() == longest.as_slice());
        assert!(rt; Word::of(&[b'/'; 129]).is_none());
    }
}
