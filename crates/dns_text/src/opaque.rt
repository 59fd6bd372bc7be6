//! Data of types without a form of their own, as a count and hexadecimal digits (RFC 3597, section 5).

ghost use Rattle.std.specs.Prelude.{◌≡◌, ◌<◌, ◌+◌, ◌++◌, option_map, ℕ, slice_index, length, IfOk, IfSome, OnOk};
ghost use Rattle.hex.specs.Hex.{lower_digits, encode_lower};
ghost use Rattle.dns_text.specs.declared.fault.TextFault.TheVariants.{BadData};
ghost use Rattle.dns_name.specs.Results.{or_fault, result_map};
ghost use Rattle.dns_text.specs.Fault.{Gives};
ghost use Rattle.dns_text.specs.Opaque.{word_or_nothing, octets_of_hex, counted_octets, octets_in, opaque_text};

use crate::fault::TextFault;
use crate::field::next_number;
use crate::number::{MOST_16, push_number};
use crate::word::next_word;
use dns_name::NoMemory;
use hex::FromHexError;
use std::alloc::{AllocError, Global};

/// The only word of a text, or no octets of text if it has none.
fn word_or_nothing(text: &[u8]) -> Option<&[u8]>
    ensures { option_map (λ r. r.now) result ≡ word_or_nothing text.now }
{
    match next_word(text) {
        None => Some(&[]),
        Some((word, rest)) => match next_word(rest) {
            None => Some(word),
            Some(_) => None,
        },
    }
}

/// The octets that pairs of hexadecimal digits stand for.
fn decode_hex(alloc: Global, digits: &[u8]) -> Result<Option<Vec<u8>>, NoMemory>
    ensures { IfOk result (λ o. option_map (λ v. v.items) o ≡ octets_of_hex digits.now) }
{
    match hex::decode(alloc, digits) {
        Ok(octets) => Ok(Some(octets)),
        Err(FromHexError::OutOfMemory) => Err(AllocError),
        Err(_) => Ok(None),
    }
}

/// The octets that pairs of hexadecimal digits stand for, if there are as many as the count says. Otherwise it takes no memory.
fn counted_octets(alloc: Global, count: u64, digits: &[u8]) -> Result<Option<Vec<u8>>, NoMemory>
    ensures value { IfOk result (λ o. option_map (λ v. v.items) o ≡ counted_octets count digits.now) }
    ensures count { IfOk result (λ o. IfSome o (λ v. length v.items ≡ count)) }
{
    if digits.len() as u64 / 2 != count {
        return Ok(None);
    }
    decode_hex(alloc, digits)
}

/// The octets of a text `\# N HEX`.
#[tactic(auto, unfolding(crate::specs::Opaque::octets_in))]
pub(crate) fn read_octets(alloc: Global, text: &[u8]) -> Result<Vec<u8>, TextFault>
    ensures value { Gives (result_map (λ v. v.items) result) (or_fault BadData (octets_in text.now)) }
    ensures few { IfOk result (λ v. length v.items < MOST_16 + 1) }
{
    let (mark, rest) = next_word(text).ok_or(TextFault::BadData)?;
    if mark != b"\\#".as_slice() {
        return Err(TextFault::BadData);
    }
    let (count, rest) = next_number(rest, MOST_16).ok_or(TextFault::BadData)?;
    let digits = word_or_nothing(rest).ok_or(TextFault::BadData)?;
    let octets = counted_octets(alloc, count, digits)?.ok_or(TextFault::BadData)?;
    Ok(octets)
}

/// A hexadecimal digit, a small letter from ten on.
fn lower_digit(n: u8) -> u8
    requires { n < 16 }
    ensures { result ≡ slice_index lower_digits n }
{
    b"0123456789abcdef"[n as usize]
}

/// Writes each octet as two digits.
#[tactic(auto, unfolding(hex::specs::Hex::encode_with))]
fn push_hex(octets: &[u8], out: &mut Vec<u8>) -> Result<(), NoMemory>
    ensures { OnOk result (out.new.items ≡ out.old.items ++ encode_lower octets.now) }
{
    for b in octets {
        out.push(lower_digit(b / 16))?;
        out.push(lower_digit(b % 16))?;
    }
    Ok(())
}

/// Writes octets as `\# N HEX`, or as `\# 0` if there are none.
pub(crate) fn push_octets(octets: &[u8], out: &mut Vec<u8>) -> Result<(), NoMemory>
    ensures text { OnOk result (out.new.items ≡ out.old.items ++ opaque_text octets.now) }
    ensures octets { (i : ℕ) → slice_index octets.now i < 256 }
{
    out.extend_from_slice(b"\\# ")?;
    push_number(octets.len() as u64, out)?;
    if octets.is_empty() {
        return Ok(());
    }
    out.push(b' ')?;
    push_hex(octets, out)
}
