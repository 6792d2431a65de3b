//! PARAM: a parameter as a word.
ghost use Rattle.std.specs.Prelude.{◌≡◌, ◌≤◌, length, IfOk, OnErr, IsSome};
ghost use Rattle.std.specs.List.{list_all};
ghost use Rattle.hex.specs.Hex.{is_hex_digit};
ghost use Rattle.command_words.specs.Places.{is_hex, is_param, param_of};

use edge_io::Bytes;
use std::alloc::{AllocError, Global};
use std::marker::Model;

/// The most bytes of a word `hex:DIGITS`: `hex:`, and two digits for each byte of a parameter.
const MOST_BYTES: usize = 4 + 2 * 4096;

/// A parameter, of at most 4,096 bytes. Contracts see its bytes.
#[derive(Drop)]
pub struct Param {
    bytes: Bytes,
}

impl Model for Param {
    ghost use Rattle.std.specs.Prelude.{ℕ, List, ◌≤◌, length};

    ghost Value = { List ℕ };

    ghost view = { λ p. p.bytes };

    ghost invariant = { λ p. length p.bytes ≤ 4096 };
}

impl Param {
    /// Its bytes.
    pub fn bytes(&self) -> &Bytes
        ensures value { result.now ≡ self.now }
        ensures few { length self.now ≤ 4096 }
    {
        &self.bytes
    }
}

fn is_hex_digit(b: u8) -> bool
    ensures { result ≡ is_hex_digit b }
{
    matches!(b, b'0'..=b'9' | b'a'..=b'f' | b'A'..=b'F')
}

fn has_hex_digits(digits: &[u8]) -> bool
    ensures { result ≡ list_all is_hex_digit digits.now }
{
    digits.iter().all(|b| is_hex_digit(*b))
}

// Whether the bytes are an even number of hexadecimal digits.
fn is_hex(digits: &[u8]) -> bool
    ensures { result ≡ is_hex digits.now }
{
    digits.len() % 2 == 0 && has_hex_digits(digits)
}

fn is_param(word: &[u8]) -> bool
    ensures { result ≡ is_param word.now }
{
    word.len() <= MOST_BYTES && word.starts_with(b"hex:") && is_hex(&word[4..])
}

// The bytes of a parameter; none where the word is no such one, for which no memory is wanted.
#[tactic(auto, using(crate::proofs::Digits::param_decodes))]
pub fn param_of(alloc: Global, word: &[u8]) -> Result<Option<Param>, AllocError>
    ensures ok { IfOk result (λ param. param ≡ param_of word.now) }
    ensures err { OnErr result (IsSome (param_of word.now)) }
{
    if !is_param(word) {
        return Ok(None);
    }
    match hex::decode(alloc, &word[4..]) {
        Ok(bytes) => Ok(Some(Param {
            bytes: Bytes::new(bytes),
        })),
        Err(_) => Err(AllocError),
    }
}
