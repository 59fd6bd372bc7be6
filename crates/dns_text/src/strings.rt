//! The strings of TXT data, in one block of memory.

ghost use Rattle.std.specs.Prelude.{◌≡◌, ◌≢◌, ◌↔◌, List, ℕ, IfOk, IfSome, IfNone, IsTrue, MatchOption, OnOk, length, ◌++◌, ◌+◌, ◌<◌, []};
ghost use Rattle.std.specs.List.{AllByRecursion};
ghost use Rattle.std.specs.Iterator.{YieldsFirstBy, item_count};
ghost use Rattle.dns_name.specs.Labels.{spelled, with_length};
ghost use Rattle.dns_text.specs.declared.string.TheConstants.{MOST_STRING};
ghost use Rattle.dns_text.specs.Strings.{BeginsWithString, IsString, SpellStrings, strings_of};

use dns_name::NoMemory;
use std::alloc::Global;
use std::marker::Model;

/// The strings of a TXT record (RFC 1035, section 3.3.14), of at most 255 octets each, which contracts see as a list.
///
/// They take one block of memory, of as many octets as they have in a message. So a sender who makes them short makes it no longer.
#[derive(Drop)]
pub struct Strings {
    // Each string preceded by its length.
    octets: Vec<u8>,
}

impl Model for Strings {
    ghost use Rattle.std.specs.Prelude.{List, ℕ};
    ghost use Rattle.dns_text.specs.Strings.{AreStrings, strings_of};

    ghost Value = { List (List ℕ) };

    ghost view = { λ s. strings_of s.octets.items };

    ghost invariant = { λ s. AreStrings s.octets.items };
}

impl Strings {
    /// The strings that octets spell, each preceded by its length. None if the octets end within a string; that takes no memory.
    pub fn from_octets(alloc: Global, octets: &[u8]) -> Result<Option<Strings>, NoMemory>
        ensures some { IfOk result (λ found. IfSome found (λ strings. octets.now ≡ spelled strings)) }
        ensures none { IfOk result (λ found. IfNone found ((strings : List (List ℕ)) → octets.now ≢ spelled strings)) }
    {
        if spell_strings(octets) {
            Ok(Some(Strings::of(alloc, octets)?))
        } else {
            Ok(None)
        }
    }

    /// The strings that octets spell.
    pub(crate) fn of(alloc: Global, octets: &[u8]) -> Result<Strings, NoMemory>
        requires { SpellStrings octets.now }
        ensures { IfOk result (λ strings. strings ≡ strings_of octets.now) }
    {
        // A slice's copy has no room to spare.
        Ok(Strings {
            octets: Vec::from_slice(alloc, octets)?,
        })
    }

    /// The octets of the strings in order, each string preceded by its length, as in a message.
    pub fn octets(&self) -> &[u8]
        ensures value { result.now ≡ spelled self.now }
        ensures each { AllByRecursion IsString self.now }
    {
        &self.octets
    }

    /// The strings, the first first. It takes no memory.
    pub fn iter(&self) -> StringsIter<'_>
        ensures value { result ≡ self.now }
        ensures each { AllByRecursion IsString self.now }
    {
        StringsIter {
            octets: &self.octets,
        }
    }

    /// A copy, in a block of its own.
    pub fn copy(&self, alloc: Global) -> Result<Strings, NoMemory>
        ensures { IfOk result (λ copy. copy ≡ self.now) }
    {
        Strings::of(alloc, &self.octets)
    }
}

impl PartialEq for Strings {
    ghost use Rattle.std.specs.Prelude.{nat_eq};
    ghost use Rattle.std.specs.Cmp.Lexicographic.{pointwise};
    ghost use Rattle.std.proofs.Common.{rules};
    ghost use Rattle.std.specs.Cmp.Rules.{comparing};

    ghost eq = { pointwise (pointwise nat_eq) };

    ghost laws = { Prim.search (comparing, rules) };

    fn eq(&self, other: &Strings) -> bool {
        self.octets() == other.octets()
    }
}

/// An iterator over strings. Contracts see the strings that are left.
#[derive(Drop)]
pub struct StringsIter<'a> {
    octets: &'a [u8],
}

impl<'a> Model for StringsIter<'a> {
    ghost use Rattle.std.specs.Prelude.{List, ℕ};
    ghost use Rattle.dns_text.specs.Strings.{SpellStrings, strings_of};

    ghost Value = { List (List ℕ) };

    ghost view = { λ s. strings_of s.octets.now };

    ghost invariant = { λ s. SpellStrings s.octets.now };
}

impl<'a> Iterator for StringsIter<'a> {
    type Item = &'a [u8];

    ghost next_gives = { YieldsFirstBy (λ string. string.now) (λ s. s) };

    ghost remaining = { item_count (λ s. s) };

    fn next(&mut self) -> Option<&'a [u8]> {
        let (string, rest) = split_string(self.octets)?;
        self.octets = rest;
        Some(string)
    }
}

/// The first string of octets, and the octets after it.
fn split_string(octets: &[u8]) -> Option<(&[u8], &[u8])>
    requires { SpellStrings octets.now }
    ensures { MatchOption result (strings_of octets.now ≡ []) (λ r. BeginsWithString octets.now r.0.now r.1.now) }
{
    let (n, rest) = octets.split_first()?;
    Some(rest.split_at(*n as usize))
}

/// Whether octets spell strings, each preceded by its length, and end with the last one.
pub fn spell_strings(octets: &[u8]) -> bool
    ensures { IsTrue result ↔ SpellStrings octets.now }
{
    let mut rest = octets;
    while let Some((first, behind)) = rest.split_first() {
        let n = *first as usize;
        if behind.len() < n {
            return false;
        }
        let (_, after) = behind.split_at(n);
        rest = after;
    }
    true
}

/// Adds a string, preceded by its length.
pub(crate) fn push_string(string: &[u8], out: &mut Vec<u8>) -> Result<(), NoMemory>
    requires { length string.now < MOST_STRING + 1 }
    ensures octets { OnOk result (out.new.items ≡ out.old.items ++ with_length string.now) }
    ensures fits { IsString string.now }
{
    out.push(string.len() as u8)?;
    out.extend_from_slice(string)
}
