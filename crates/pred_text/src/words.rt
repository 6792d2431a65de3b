//! The tokens of a text.
ghost use Rattle.std.specs.Prelude.{◌≡◌, ◌≤◌, length};
ghost use Rattle.std.specs.List.{position, position_or_len};
ghost use Rattle.pred_text.specs.Words.{is_blank, is_paren, ends_run, run_of, is_open, is_shut, cond_of};

use predicates::PredCond;

pub fn is_blank(b: u8) -> bool
    ensures { result ≡ is_blank b }
{
    b == b' ' || b == b'\n'
}

pub fn is_paren(b: u8) -> bool
    ensures { result ≡ is_paren b }
{
    b == b'(' || b == b')'
}

fn ends_run(b: u8) -> bool
    ensures { result ≡ ends_run b }
{
    is_blank(b) || is_paren(b)
}

fn find_end(text: &[u8]) -> Option<usize>
    ensures { result ≡ position ends_run text.now }
{
    text.iter().position(|b| ends_run(*b))
}

#[tactic(auto, using(crate::proofs::Cuts::position_or))]
fn end_at(text: &[u8]) -> usize
    ensures is { result ≡ position_or_len ends_run text.now }
    ensures within { result ≤ length text.now }
{
    find_end(text).unwrap_or(text.len())
}

// The longest run from the text's beginning.
pub fn run_of(text: &[u8]) -> &[u8]
    ensures { result.now ≡ run_of text.now }
{
    text.split_at(end_at(text)).0
}

pub fn is_open(word: &[u8]) -> bool
    ensures { result ≡ is_open word.now }
{
    word == b"(".as_slice()
}

pub fn is_shut(word: &[u8]) -> bool
    ensures { result ≡ is_shut word.now }
{
    word == b")".as_slice()
}

// The comparison of a word.
#[tactic(auto, unfolding(crate::specs::Words::cond_of))]
pub fn cond_of(word: &[u8]) -> Option<PredCond>
    ensures { result ≡ cond_of word.now }
{
    if word == b"eq".as_slice() {
        return Some(PredCond::Eq);
    }
    if word == b"ne".as_slice() {
        return Some(PredCond::Ne);
    }
    if word == b"gt".as_slice() {
        return Some(PredCond::Gt);
    }
    if word == b"ge".as_slice() {
        return Some(PredCond::Ge);
    }
    if word == b"lt".as_slice() {
        return Some(PredCond::Lt);
    }
    if word == b"le".as_slice() {
        return Some(PredCond::Le);
    }
    None
}
