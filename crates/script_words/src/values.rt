//! Numbers, lanes and bytes of a script, each a word.
ghost use Rattle.std.specs.Prelude.{◌≡◌, ◌≤◌, ◌<◌, ◌^◌, IsTrue, IfOk, IfSome, option_copied, true};
ghost use Rattle.std.specs.List.{list_all};
ghost use Rattle.std.specs.Option.{option_map};
ghost use Rattle.hex.specs.Hex.{hex_digit_value, is_hex_digit};
ghost use Rattle.sbpf_text.specs.Lexing.{is_digit, is_line_byte};
ghost use Rattle.sbpf_text.specs.Numbers.{digit_value, value_of, in_64_bits, is_decimal, decimal_number};
ghost use Rattle.script_words.specs.Words.{within, number_in, is_lane_byte, is_lane, lane_of, byte_of, fill_of, text_of, hex_of, bytes_of, code_of, size, bytes_size, code_size};

use crate::lexing::{ends_with_colon, is_line, without_last};
use hex::FromHexError;
use std::alloc::{AllocError, Global};

/// The most bytes of a word `fill:HH*N`.
const MOST_FILL: u64 = 1_048_576;

/// Whether a byte is `0` to `9`.
pub fn is_digit(b: u8) -> bool
    ensures { result ≡ is_digit b }
{
    b'0' <= b && b <= b'9'
}

fn has_digits(word: &[u8]) -> bool
    ensures { result ≡ list_all is_digit word.now }
{
    word.iter().all(|b| is_digit(*b))
}

fn is_decimal(word: &[u8]) -> bool
    ensures { result ≡ is_decimal word.now }
{
    match word {
        [] => false,
        [b] => is_digit(*b),
        [b, _, ..] => has_digits(word) && *b != b'0',
    }
}

fn digit_value(b: u8) -> u8
    ensures { result ≡ digit_value b }
{
    if b'a' <= b {
        b - b'a' + 10
    } else if b'A' <= b {
        b - b'A' + 10
    } else {
        b.saturating_sub(b'0')
    }
}

/// The number that digits spell, where it is below 2^64.
pub fn value_of(radix: u64, digits: &[u8]) -> Option<u64>
    requires { 1 ≤ radix }
    ensures { result ≡ in_64_bits (value_of radix digits.now) }
{
    let mut value = 0u64;
    for digit in digits {
        value = value
            .checked_mul(radix)?
            .checked_add(u64::from(digit_value(*digit)))?;
    }
    Some(value)
}

fn decimal_number(digits: &[u8]) -> Option<u64>
    ensures { result ≡ decimal_number digits.now }
{
    if is_decimal(digits) {
        return value_of(10, digits);
    }
    None
}

/// A decimal number within bounds.
pub fn number_in(low: u64, high: u64, word: &[u8]) -> Option<u64>
    ensures is { result ≡ number_in low high word.now }
    ensures within { IfSome result (λ n. n ≤ high) }
{
    let n = decimal_number(word)?;
    if low <= n && n <= high { Some(n) } else { None }
}

fn is_lane_byte(b: u8) -> bool
    ensures { result ≡ is_lane_byte b }
{
    (b'a' <= b && b <= b'z') || is_digit(b)
}

fn has_lane_bytes(name: &[u8]) -> bool
    ensures { result ≡ list_all is_lane_byte name.now }
{
    name.iter().all(|b| is_lane_byte(*b))
}

/// Whether a name is 1 to 16 lower-case letters and digits.
pub fn is_lane(name: &[u8]) -> bool
    ensures { result ≡ is_lane name.now }
{
    let len = name.len();
    if len == 0 || len > 16 {
        return false;
    }
    has_lane_bytes(name)
}

/// The lane of a word that ends with a colon.
pub fn lane_of(word: &[u8]) -> Option<&[u8]>
    ensures { option_copied result ≡ lane_of word.now }
{
    if !ends_with_colon(word) {
        return None;
    }
    let name = without_last(word);
    if is_lane(name) { Some(name) } else { None }
}

// The value of a hexadecimal digit of either case.
fn hex_digit(b: u8) -> Option<u8>
    ensures is { result ≡ hex_digit_value b }
    ensures small { IfSome result (λ n. n < 16) }
{
    if b'A' <= b && b <= b'F' {
        return Some(b - 55);
    }
    if b'a' <= b && b <= b'f' {
        return Some(b - 87);
    }
    if b'0' <= b && b <= b'9' {
        return Some(b - 48);
    }
    None
}

// The byte of two digits.
fn byte_of(high: u8, low: u8) -> Option<u8>
    ensures { result ≡ byte_of (hex_digit_value high) (hex_digit_value low) }
{
    let high = hex_digit(high)?;
    let low = hex_digit(low)?;
    Some(high * 16 + low)
}

// The byte and the number of `HH*N`.
fn fill_of(word: &[u8]) -> Option<(u8, u64)>
    ensures is { result ≡ fill_of word.now }
    ensures few { IfSome result (λ fill. fill.1 ≤ 1048576) }
{
    match word {
        [high, low, b'*', digits @ ..] => {
            let byte = byte_of(*high, *low)?;
            let count = number_in(0, MOST_FILL, digits)?;
            Some((byte, count))
        }
        _ => None,
    }
}

/// The bytes of hexadecimal digits of either case; none where their number is odd, or another byte is among them.
/// `Err` comes where memory ran out.
pub fn hex_of(alloc: Global, digits: &[u8]) -> Result<Option<Vec<u8>>, AllocError>
    ensures { IfOk result (λ found. option_map (λ v. v.items) found ≡ hex_of digits.now) }
{
    match hex::decode(alloc, digits) {
        Ok(bytes) => Ok(Some(bytes)),
        Err(FromHexError::OutOfMemory) => Err(AllocError),
        Err(_) => Ok(None),
    }
}

// Text as bytes.
fn text_of(alloc: Global, text: &[u8]) -> Result<Option<Vec<u8>>, AllocError>
    ensures { IfOk result (λ found. option_map (λ v. v.items) found ≡ text_of text.now) }
{
    if !is_line(text) {
        return Ok(None);
    }
    Ok(Some(text.to_vec(alloc)?))
}

/// The bytes of a word `hex:DIGITS`, `text:TEXT` or `fill:HH*N`; none where it is none of these. `Err` comes where
/// memory ran out.
pub fn bytes_of(alloc: Global, word: &[u8]) -> Result<Option<Vec<u8>>, AllocError>
    ensures { IfOk result (λ found. option_map (λ v. v.items) found ≡ bytes_of word.now) }
{
    if word.starts_with(b"hex:") {
        return hex_of(alloc, &word[4..]);
    }
    if word.starts_with(b"text:") {
        return text_of(alloc, &word[5..]);
    }
    if word.starts_with(b"fill:") {
        return match fill_of(&word[5..]) {
            Some((byte, count)) => Ok(Some(vec![in alloc; byte; count as usize]?)),
            None => Ok(None),
        };
    }
    Ok(None)
}

/// The bytes of a word behind `code`: hexadecimal digits, or `hex:` for none. `Err` comes where memory ran out.
pub fn code_of(alloc: Global, word: &[u8]) -> Result<Option<Vec<u8>>, AllocError>
    ensures { IfOk result (λ found. option_map (λ v. v.items) found ≡ code_of word.now) }
{
    if word == b"hex:".as_slice() {
        return Ok(Some(Vec::new(alloc)));
    }
    hex_of(alloc, word)
}

fn has_hex_digits(digits: &[u8]) -> bool
    ensures { result ≡ list_all is_hex_digit digits.now }
{
    digits.iter().all(|b| hex_digit(*b).is_some())
}

// How many bytes hexadecimal digits give.
#[tactic(auto, using(crate::proofs::HexSizes::odd_gives_none, crate::proofs::HexSizes::others_give_none, crate::proofs::HexSizes::digits_give_half))]
fn hex_size(digits: &[u8]) -> u64
    ensures is { result ≡ size (hex_of digits.now) }
    ensures small { result < 2 ^ 63 }
{
    let len = digits.len();
    if len % 2 == 1 {
        return 0;
    }
    if !has_hex_digits(digits) {
        return 0;
    }
    (len / 2) as u64
}

/// How many bytes a word gives, without making them.
#[tactic(auto, unfolding(crate::specs::Words::bytes_size))]
pub fn bytes_size(word: &[u8]) -> u64
    ensures is { result ≡ bytes_size word.now }
    ensures small { result < 2 ^ 63 }
{
    if word.starts_with(b"hex:") {
        return hex_size(&word[4..]);
    }
    if word.starts_with(b"text:") {
        let text = &word[5..];
        return if is_line(text) { text.len() as u64 } else { 0 };
    }
    if word.starts_with(b"fill:") {
        return match fill_of(&word[5..]) {
            Some((_, count)) => count,
            None => 0,
        };
    }
    0
}

/// How many bytes a word behind `code` gives.
#[tactic(auto, unfolding(crate::specs::Words::code_size))]
pub fn code_size(word: &[u8]) -> u64
    ensures { result ≡ code_size word.now }
{
    if word == b"hex:".as_slice() {
        return 0;
    }
    hex_size(word)
}
