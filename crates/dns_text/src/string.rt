//! Strings of TXT data, each a word with or without quotes.

ghost use Rattle.std.specs.Prelude.{◌≡◌, ◌<◌, ◌≤◌, ◌+◌, ◌++◌, [], List, ℕ, option_map, length, IfOk, IfSome, OnOk, None};
ghost use Rattle.std.specs.List.{flat_map, AllByRecursion};
ghost use Rattle.dns_text.specs.declared.fault.TextFault.TheVariants.{BadData};
ghost use Rattle.dns_name.specs.Results.{or_fault, result_map};
ghost use Rattle.dns_text.specs.Fault.{Gives};
ghost use Rattle.dns_text.specs.Strings.{AreStrings, IsString, strings_of};
ghost use Rattle.dns_text.specs.String.{octet_at, octets_after, before_last_quote, inside_quotes, string_in, strings_after, strings_in, quoted_octet, quoted_text, strings_text, AreOctets, TakesOctet};

use crate::fault::TextFault;
use crate::strings::{Strings, push_string};
use crate::word::next_word;
use arrayvec::ArrayVec;
use dns_name::{NoMemory, read_escape};
use std::alloc::Global;

/// The most octets of a string: in a message its length is one octet (RFC 1035, section 3.3).
pub const MOST_STRING: usize = 255;

/// The octet at the front of a text, escaped or not, and how many octets of text it takes; none at a bare quote.
fn next_octet(text: &[u8]) -> Option<(u8, usize)>
    ensures value { result ≡ octet_at text.now }
    ensures within { IfSome result (λ a. (0 < a.1) × (a.1 ≤ length text.now)) }
{
    match text {
        [] => None,
        [b'"', ..] => None,
        [b'\\', rest @ ..] => read_escape(rest),
        [c, ..] => Some((*c, 1)),
    }
}

/// Reads one more octet of a string, which has 255 at most, and returns the text after it.
fn take_octet<'a>(text: &'a [u8], octets: &mut ArrayVec<u8, MOST_STRING>) -> Option<&'a [u8]>
    requires { 0 < length text.now }
    ensures { TakesOctet octets.old.items text.now octets.new.items result }
{
    let (octet, taken) = next_octet(text)?;
    if octets.len() >= MOST_STRING {
        return None;
    }
    octets.push(octet);
    Some(&text[taken..])
}

/// The octets of a string.
fn read_string_octets(text: &[u8]) -> Option<ArrayVec<u8, MOST_STRING>>
    ensures { option_map (λ v. v.items) result ≡ octets_after [] 0 text.now }
{
    let mut octets: ArrayVec<u8, MOST_STRING> = ArrayVec::new();
    let mut rest = text;
    while !rest.is_empty() {
        rest = take_octet(rest, &mut octets)?;
    }
    Some(octets)
}

/// The text inside the quotes of a word, or the word itself if it does not begin with a quote.
fn inside_quotes(word: &[u8]) -> Option<&[u8]>
    ensures { option_map (λ r. r.now) result ≡ inside_quotes word.now }
{
    match word {
        [b'"', rest @ ..] => before_last_quote(rest),
        _ => Some(word),
    }
}

/// The text before the quote at its end.
fn before_last_quote(text: &[u8]) -> Option<&[u8]>
    ensures { option_map (λ r. r.now) result ≡ before_last_quote text.now }
{
    let (last, front) = text.split_last()?;
    if *last == b'"' { Some(front) } else { None }
}

/// The octets of a word.
#[tactic(auto, unfolding(crate::specs::String::string_in))]
fn read_string(word: &[u8]) -> Option<ArrayVec<u8, MOST_STRING>>
    ensures { option_map (λ v. v.items) result ≡ string_in word.now }
{
    let inside = inside_quotes(word)?;
    read_string_octets(inside)
}

/// The octets of the strings of a text, each string preceded by its length.
fn read_all_strings(alloc: Global, text: &[u8]) -> Result<Vec<u8>, TextFault>
    ensures value { Gives (result_map (λ v. strings_of v.items) result) (or_fault BadData (strings_after [] (length text.now) text.now)) }
    ensures are { IfOk result (λ v. AreStrings v.items) }
{
    let mut octets = Vec::new(alloc);
    let mut rest = text;
    while let Some((word, after)) = next_word(rest) {
        match read_string(word) {
            None => return Err(TextFault::BadData),
            Some(string) => push_string(string.as_slice(), &mut octets)?,
        }
        rest = after;
    }
    Ok(octets)
}

/// The strings of a text, one or more.
#[tactic(auto, unfolding(crate::specs::String::strings_in))]
pub(crate) fn read_strings(alloc: Global, text: &[u8]) -> Result<Strings, TextFault>
    ensures value { Gives result (or_fault BadData (strings_in text.now)) }
    ensures sized { IfOk result (λ strings. (0 < length strings) × AllByRecursion (λ octets. length octets < MOST_STRING + 1) strings) }
{
    let octets = read_all_strings(alloc, text)?;
    if octets.is_empty() {
        return Err(TextFault::BadData);
    }
    Ok(Strings::of(alloc, &octets)?)
}

/// Writes an octet in quotes.
fn push_quoted_octet(b: u8, out: &mut Vec<u8>) -> Result<(), NoMemory>
    ensures { OnOk result (out.new.items ≡ out.old.items ++ quoted_octet b) }
{
    match b {
        b'"' | b'\\' => out.extend_from_slice(&[b'\\', b]),
        32..=126 => out.extend_from_slice(&[b]),
        _ => out.extend_from_slice(&[b'\\', b / 100 + b'0', b / 10 % 10 + b'0', b % 10 + b'0']),
    }
}

/// Writes a string in quotes.
fn push_quoted(octets: &[u8], out: &mut Vec<u8>) -> Result<(), NoMemory>
    ensures text { OnOk result (out.new.items ≡ out.old.items ++ quoted_text octets.now) }
    ensures octets { AreOctets octets.now }
{
    out.push(b'"')?;
    for b in octets {
        push_quoted_octet(*b, out)?;
    }
    out.push(b'"')?;
    Ok(())
}

/// Writes strings in quotes, with a blank between each two.
pub(crate) fn push_strings(strings: &Strings, out: &mut Vec<u8>) -> Result<(), NoMemory>
    ensures text { OnOk result (out.new.items ≡ out.old.items ++ strings_text strings.now) }
    ensures each { AllByRecursion IsString strings.now }
{
    let mut left = strings.iter();
    let Some(first) = left.next() else {
        return Ok(());
    };
    push_quoted(first, out)?;
    while let Some(octets) = left.next() {
        out.push(b' ')?;
        push_quoted(octets, out)?;
    }
    Ok(())
}
