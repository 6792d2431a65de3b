// The form of an operand, which is judged by its place.
ghost use Rattle.std.specs.Prelude.{◌≡◌, ◌≤◌, length, true};
ghost use Rattle.std.specs.List.{position, position_or_len};
ghost use Rattle.sbpf_text.specs.Lexing.{begins_with};
ghost use Rattle.sbpf_text.specs.Forms.{is_sign, begins_number, is_register, is_number, is_value, is_target, inner, has_brackets, is_address, base_of, offset_of};

use crate::lexing::{is_digit, is_label};

pub(crate) fn is_register(word: &[u8]) -> bool
    ensures { result ≡ is_register word.now }
{
    match word {
        [b'r', ..] => true,
        _ => false,
    }
}

fn begins_number(b: u8) -> bool
    ensures { result ≡ begins_number b }
{
    is_digit(b) || b == b'-'
}

pub(crate) fn is_number(word: &[u8]) -> bool
    ensures { result ≡ is_number word.now }
{
    match word {
        [b, ..] => begins_number(*b),
        [] => false,
    }
}

pub(crate) fn is_value(word: &[u8]) -> bool
    ensures { result ≡ is_value word.now }
{
    is_register(word) || is_number(word)
}

fn is_sign(b: u8) -> bool
    ensures { result ≡ is_sign b }
{
    b == b'+' || b == b'-'
}

pub(crate) fn begins_with_sign(word: &[u8]) -> bool
    ensures { result ≡ begins_with is_sign word.now }
{
    match word {
        [b, ..] => is_sign(*b),
        [] => false,
    }
}

pub(crate) fn is_target(word: &[u8]) -> bool
    ensures { result ≡ is_target word.now }
{
    begins_with_sign(word) || is_label(word)
}

fn has_brackets(word: &[u8]) -> bool
    ensures { result ≡ has_brackets word.now }
{
    match word {
        [b'[', .., b']'] => true,
        _ => false,
    }
}

fn inner(word: &[u8]) -> &[u8]
    requires { has_brackets word.now ≡ true }
    ensures { result.now ≡ inner word.now }
{
    &word[1..word.len() - 1]
}

fn find_sign(text: &[u8]) -> Option<usize>
    ensures { result ≡ position is_sign text.now }
{
    text.iter().position(|b| is_sign(*b))
}

#[tactic(auto, using(crate::proofs::Cuts::position_or))]
fn sign_at(text: &[u8]) -> usize
    ensures is { result ≡ position_or_len is_sign text.now }
    ensures within { result ≤ length text.now }
{
    find_sign(text).unwrap_or(text.len())
}

pub(crate) fn is_address(word: &[u8]) -> bool
    ensures { result ≡ is_address word.now }
{
    if !has_brackets(word) {
        return false;
    }
    let inner = inner(word);
    if !is_register(inner) {
        return false;
    }
    sign_at(inner) < inner.len()
}

/// The register of an address, and its offset with the sign.
pub(crate) fn cut_address(word: &[u8]) -> (&[u8], &[u8])
    requires { is_address word.now ≡ true }
    ensures base { result.0.now ≡ base_of word.now }
    ensures offset { result.1.now ≡ offset_of word.now }
{
    let inner = inner(word);
    inner.split_at(sign_at(inner))
}
