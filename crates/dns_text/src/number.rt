//! Numbers as decimal digits.

ghost use Rattle.std.specs.Prelude.{◌≡◌, ◌≤◌, ◌++◌, IfSome, OnOk, decimal};
ghost use Rattle.std.specs.Str.{all_ascii_digits};
ghost use Rattle.dns_text.specs.Number.{number_in, short_number_in, is_digits, digits_in};

use itoa::Buffer;
use std::alloc::AllocError;

/// The greatest number of 8 bits.
pub(crate) const MOST_8: u64 = 255;

/// The greatest number of 16 bits.
pub(crate) const MOST_16: u64 = 65535;

/// The greatest number of 32 bits.
pub(crate) const MOST_32: u64 = 4294967295;

/// Whether each octet of a word is a digit.
fn all_digits(word: &[u8]) -> bool
    ensures { result ≡ all_ascii_digits word.now }
{
    for b in word {
        if !b.is_ascii_digit() {
            return false;
        }
    }
    true
}

/// Whether a word is one digit or more, and nothing else.
pub(crate) fn is_digits(word: &[u8]) -> bool
    ensures { result ≡ is_digits word.now }
{
    match word {
        [] => false,
        _ => all_digits(word),
    }
}

/// The number that digits stand for, no greater than `most`.
#[tactic(auto, unfolding(crate::specs::Number::digits_in))]
fn digits(text: &[u8], most: u64) -> Option<u64>
    ensures value { result ≡ digits_in most 0 text.now }
    ensures bound { IfSome result (λ n. n ≤ most) }
{
    let mut number = 0u64;
    for b in text {
        if !b.is_ascii_digit() {
            return None;
        }
        let next = u128::from(number) * 10 + u128::from(*b - b'0');
        if next > u128::from(most) {
            return None;
        }
        number = next as u64;
    }
    Some(number)
}

/// The number that a word of digits stands for, if it is no greater than `most`. Leading zeros are allowed.
pub fn read_number(word: &[u8], most: u64) -> Option<u64>
    ensures value { result ≡ number_in most word.now }
    ensures bound { IfSome result (λ n. n ≤ most) }
{
    match word {
        [] => None,
        _ => digits(word, most),
    }
}

/// The number that a word of digits without leading zeros stands for, if it is no greater than `most`.
pub(crate) fn read_short_number(word: &[u8], most: u64) -> Option<u64>
    ensures value { result ≡ short_number_in most word.now }
    ensures bound { IfSome result (λ n. n ≤ most) }
{
    match word {
        [b'0', _, ..] => None,
        _ => read_number(word, most),
    }
}

/// Writes a number.
pub(crate) fn push_number(n: u64, out: &mut Vec<u8>) -> Result<(), AllocError>
    ensures { OnOk result (out.new.items ≡ out.old.items ++ decimal n) }
{
    out.extend_from_slice(Buffer::new().format(n).as_bytes())
}
