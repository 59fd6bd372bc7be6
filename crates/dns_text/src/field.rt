//! Names and numbers in data, each a word.

ghost use Rattle.std.specs.Prelude.{◌≡◌, ◌≤◌, ◌++◌, option_map, IfOk, IfSome, OnOk};
ghost use Rattle.dns_name.specs.Labels.{IsName};
ghost use Rattle.dns_name.specs.Text.{text_of};
ghost use Rattle.dns_text.specs.Field.{named, name_at, last_name, number_at, last_number};

use crate::number::read_number;
use crate::word::{next_word, only_word};
use dns_name::{Name, NameFault, NoMemory};
use std::alloc::{AllocError, Global};

/// The name that a word stands for.
pub(crate) fn read_name(alloc: Global, word: &[u8]) -> Result<Option<Name>, NoMemory>
    ensures { IfOk result (λ name. name ≡ named word.now) }
{
    match Name::from_text(alloc, word) {
        Ok(name) => Ok(Some(name)),
        Err(NameFault::NoMemory) => Err(AllocError),
        Err(_) => Ok(None),
    }
}

/// Writes a name.
pub(crate) fn push_name(name: &Name, out: &mut Vec<u8>) -> Result<(), NoMemory>
    ensures text { OnOk result (out.new.items ≡ out.old.items ++ text_of name.now) }
    ensures name { IsName name.now }
{
    // The contract of `labels` says that the name is valid.
    let _labels = name.labels();
    name.push_text(out)
}

/// The name that is the first word of a text, and the text after it.
pub(crate) fn next_name(alloc: Global, text: &[u8]) -> Result<Option<(Name, &[u8])>, NoMemory>
    ensures { IfOk result (λ r. option_map (λ p. (p.0, p.1.now)) r ≡ name_at text.now) }
{
    let Some((word, rest)) = next_word(text) else {
        return Ok(None);
    };
    match read_name(alloc, word)? {
        Some(name) => Ok(Some((name, rest))),
        None => Ok(None),
    }
}

/// The name that is the only word of a text.
pub(crate) fn last_name(alloc: Global, text: &[u8]) -> Result<Option<Name>, NoMemory>
    ensures { IfOk result (λ name. name ≡ last_name text.now) }
{
    match only_word(text) {
        Some(word) => read_name(alloc, word),
        None => Ok(None),
    }
}

/// The number that is the first word of a text, no greater than `most`, and the text after it.
pub(crate) fn next_number(text: &[u8], most: u64) -> Option<(u64, &[u8])>
    ensures value { option_map (λ r. (r.0, r.1.now)) result ≡ number_at most text.now }
    ensures bound { IfSome result (λ r. r.0 ≤ most) }
{
    let (word, rest) = next_word(text)?;
    let number = read_number(word, most)?;
    Some((number, rest))
}

/// The number that is the only word of a text, no greater than `most`.
pub(crate) fn last_number(text: &[u8], most: u64) -> Option<u64>
    ensures value { result ≡ last_number most text.now }
    ensures bound { IfSome result (λ n. n ≤ most) }
{
    read_number(only_word(text)?, most)
}
