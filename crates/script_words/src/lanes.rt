//! Lanes by their names, and the words that name a call of a lane.
ghost use Rattle.std.specs.Prelude.{◌≡◌, ◌≤◌, length};
ghost use Rattle.std.specs.List.{position, position_or_len};
ghost use Rattle.script_words.specs.Lanes.{place_of, is_point, lane_part, number_part};

use crate::script::Lane;

/// Which lane has a name, and how many requests it has; a lane that is new comes last, and has none.
pub fn place_of(lanes: &[Lane], name: &[u8]) -> (usize, usize)
    ensures is { result ≡ place_of name.now 0 lanes.now }
    ensures within { result.0 ≤ length lanes.now }
{
    for (i, lane) in lanes.iter().enumerate() {
        if lane.name.as_str().as_bytes() == name {
            return (i, lane.requests.len());
        }
    }
    (lanes.len(), 0)
}

fn find_point(word: &[u8]) -> Option<usize>
    ensures { result ≡ position is_point word.now }
{
    word.iter().position(|b| *b == b'.')
}

#[tactic(auto, using(crate::proofs::Cuts::position_or))]
fn point_at(word: &[u8]) -> usize
    ensures is { result ≡ position_or_len is_point word.now }
    ensures within { result ≤ length word.now }
{
    find_point(word).unwrap_or(word.len())
}

/// What stands ahead of the first point of a word, and what stands behind it.
pub fn cut_point(word: &[u8]) -> (&[u8], &[u8])
    ensures lane { result.0.now ≡ lane_part word.now }
    ensures number { result.1.now ≡ number_part word.now }
{
    let at = point_at(word);
    if at == word.len() {
        return (word, &[]);
    }
    (&word[..at], &word[at + 1..])
}
