//! Lines and words of a text.
ghost use Rattle.std.specs.Prelude.{◌≡◌, ◌≤◌, IfOk, map, length};
ghost use Rattle.std.specs.List.{list_all, position, position_or_len};
ghost use Rattle.sbpf_text.specs.Lexing.{lines, is_blank, is_not_blank, is_line_byte, behind_blanks, ends_with_colon, without_last};
ghost use Rattle.script_words.specs.Words.{words, first_of, behind_first};

use std::alloc::{AllocError, Global};

/// The parts of a text between its line ends. `Err` comes where memory ran out.
pub fn lines(alloc: Global, text: &[u8]) -> Result<Vec<&[u8]>, AllocError>
    ensures { IfOk result (λ v. map (λ x. x.now) v.items ≡ lines text.now) }
{
    text.split(|b| *b == b'\n').collect(alloc)
}

fn is_blank(b: u8) -> bool
    ensures { result ≡ is_blank b }
{
    b == b' ' || b == b'\t'
}

/// The words of a line, between its blanks. `Err` comes where memory ran out.
pub fn words(alloc: Global, line: &[u8]) -> Result<Vec<&[u8]>, AllocError>
    ensures { IfOk result (λ v. map (λ x. x.now) v.items ≡ words line.now) }
{
    line.split(|b| is_blank(*b))
        .filter(|part| !part.is_empty())
        .collect(alloc)
}

/// Whether all bytes of a line are printable ASCII or tabs.
pub fn is_line(line: &[u8]) -> bool
    ensures { result ≡ list_all is_line_byte line.now }
{
    line.iter()
        .all(|b| (b' ' <= *b && *b <= b'~') || *b == b'\t')
}

fn find_word(text: &[u8]) -> Option<usize>
    ensures { result ≡ position is_not_blank text.now }
{
    text.iter().position(|b| !is_blank(*b))
}

#[tactic(auto, using(crate::proofs::Cuts::position_or))]
fn word_at(text: &[u8]) -> usize
    ensures is { result ≡ position_or_len is_not_blank text.now }
    ensures within { result ≤ length text.now }
{
    find_word(text).unwrap_or(text.len())
}

fn find_blank(text: &[u8]) -> Option<usize>
    ensures { result ≡ position is_blank text.now }
{
    text.iter().position(|b| is_blank(*b))
}

#[tactic(auto, using(crate::proofs::Cuts::position_or))]
fn blank_at(text: &[u8]) -> usize
    ensures is { result ≡ position_or_len is_blank text.now }
    ensures within { result ≤ length text.now }
{
    find_blank(text).unwrap_or(text.len())
}

fn behind_blanks(text: &[u8]) -> &[u8]
    ensures { result.now ≡ behind_blanks text.now }
{
    text.split_at(word_at(text)).1
}

/// The first word, which is empty where there is none, and what stands behind it.
#[tactic(auto, using(crate::proofs::WordCuts::word_cut))]
pub fn cut_word(text: &[u8]) -> (&[u8], &[u8])
    ensures word { result.0.now ≡ first_of (words text.now) }
    ensures rest { words result.1.now ≡ behind_first (words text.now) }
{
    let left = behind_blanks(text);
    left.split_at(blank_at(left))
}

/// Whether a word ends with a colon.
pub fn ends_with_colon(word: &[u8]) -> bool
    ensures { result ≡ ends_with_colon word.now }
{
    match word {
        [.., b] => *b == b':',
        [] => false,
    }
}

/// A word without its last byte.
pub fn without_last(word: &[u8]) -> &[u8]
    ensures { result.now ≡ without_last word.now }
{
    word.split_at(word.len().saturating_sub(1)).0
}
