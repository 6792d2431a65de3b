//! Decimal numbers of words.
ghost use Rattle.std.specs.Prelude.{◌≡◌, ◌≤◌, ◌<◌, ◌^◌, IfSome};
ghost use Rattle.std.specs.List.{list_all};
ghost use Rattle.sbpf_text.specs.Lexing.{is_digit};
ghost use Rattle.sbpf_text.specs.Numbers.{digit_value, value_of, in_64_bits, is_decimal, decimal_number};
ghost use Rattle.command_words.specs.Places.{within, number_in};

fn is_digit(b: u8) -> bool
    ensures { result ≡ is_digit b }
{
    b'0' <= b && b <= b'9'
}

fn has_digits(word: &[u8]) -> bool
    ensures { result ≡ list_all is_digit word.now }
{
    word.iter().all(|b| is_digit(*b))
}

fn is_decimal(word: &[u8]) -> bool
    ensures { result ≡ is_decimal word.now }
{
    match word {
        [] => false,
        [b] => is_digit(*b),
        [b, _, ..] => has_digits(word) && *b != b'0',
    }
}

fn digit_value(b: u8) -> u8
    ensures { result ≡ digit_value b }
{
    if b'a' <= b {
        b - b'a' + 10
    } else if b'A' <= b {
        b - b'A' + 10
    } else {
        b.saturating_sub(b'0')
    }
}

// The number that digits spell, where it is below 2^64.
fn value_of(digits: &[u8]) -> Option<u64>
    ensures { result ≡ in_64_bits (value_of 10 digits.now) }
{
    let mut value = 0u64;
    for digit in digits {
        value = value
            .checked_mul(10)?
            .checked_add(u64::from(digit_value(*digit)))?;
    }
    Some(value)
}

// A decimal number below 2^64.
pub fn decimal_number(word: &[u8]) -> Option<u64>
    ensures { result ≡ decimal_number word.now }
{
    if is_decimal(word) {
        return value_of(word);
    }
    None
}

// A decimal number within bounds.
pub fn number_in(low: u32, high: u32, word: &[u8]) -> Option<u32>
    ensures is { result ≡ number_in low high word.now }
    ensures within { IfSome result (λ n. (low ≤ n) × (n ≤ high)) }
{
    let n = decimal_number(word)?;
    if u64::from(low) <= n && n <= u64::from(high) {
        Some(n as u32)
    } else {
        None
    }
}

// The same, with bounds up to 2^64.
pub fn wide_number_in(low: u64, high: u64, word: &[u8]) -> Option<u64>
    ensures is { result ≡ number_in low high word.now }
    ensures within { IfSome result (λ n. (low ≤ n) × (n ≤ high)) }
{
    let n = decimal_number(word)?;
    if low <= n && n <= high { Some(n) } else { None }
}
