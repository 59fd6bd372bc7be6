//! Data of one type without duplicates.

ghost use Rattle.std.specs.Prelude.{◌≡◌, ◌≤◌, ◌∷◌, [], false, length, map, take, IfOk, OnOk, OnErr};
ghost use Rattle.dns_text.specs.Data.{HasForm, data_text};
ghost use Rattle.dns_text.specs.Equal.{data_eq};
ghost use Rattle.ranked.specs.Set.{is_among};
ghost use Rattle.harvest.specs.Distinct.{added, ReadsBack};

use dns_name::NoMemory;
use dns_text::{Data, push_data};
use std::alloc::{AllocError, Global};
use std::collections::BTreeSet;
use std::marker::Model;

/// The most data that a new datum is compared with, one by one. Those after them are found by their texts. Few sets have more.
pub(crate) const MOST_COMPARED: usize = 8;

/// Borrowed data of one type in order, without duplicates.
#[derive(Drop)]
pub(crate) struct Distinct<'a> {
    kind: u16,
    data: Vec<&'a Data>,
    /// The texts of the data after the first `MOST_COMPARED`.
    texts: BTreeSet<Vec<u8>>,
}

impl<'a> Model for Distinct<'a> {
    ghost use Rattle.std.specs.Prelude.{map, drop};
    ghost use Rattle.harvest.specs.declared.distinct.TheConstants.{MOST_COMPARED};
    ghost use Rattle.harvest.specs.Distinct.{DataOf, HasTexts};

    ghost Value = { DataOf };

    ghost view = { λ x. record { kind = x.kind; data_in = map (λ d. d.now) x.data.items } };

    ghost invariant = { λ x. HasTexts x.kind x.texts (drop MOST_COMPARED (map (λ d. d.now) x.data.items)) };
}

/// The text of a datum, which no other datum of its type has.
fn text_of(alloc: Global, kind: u16, datum: &Data) -> Result<Vec<u8>, NoMemory>
    requires { HasForm kind datum.now }
    ensures text { IfOk result (λ text. text.items ≡ data_text datum.now) }
    ensures back { OnOk result (ReadsBack kind datum.now) }
{
    let mut text = Vec::new(alloc);
    push_data(datum, &mut text)?;
    Ok(text)
}

impl<'a> Distinct<'a> {
    /// One datum.
    pub(crate) fn new(alloc: Global, kind: u16, first: &'a Data) -> Result<Distinct<'a>, NoMemory>
        ensures { IfOk result (λ x. x ≡ record { kind = kind; data_in = first.now ∷ [] }) }
    {
        let mut data = Vec::new(alloc);
        data.push(first)?;
        Ok(Distinct {
            kind,
            data,
            texts: BTreeSet::new(alloc),
        })
    }

    /// The type of the data.
    pub(crate) fn kind(&self) -> u16
        ensures { result ≡ self.now.kind }
    {
        self.kind
    }

    /// The data, the first first.
    pub(crate) fn as_slice(&self) -> &[&'a Data]
        ensures { map (λ d. d.now) result.now ≡ self.now.data_in }
    {
        &self.data
    }

    /// Adds a datum after the first `MOST_COMPARED`, unless one with its text is there.
    fn add_behind(&mut self, alloc: Global, datum: &'a Data) -> Result<(), NoMemory>
        requires form { HasForm self.old.kind datum.now }
        requires behind { MOST_COMPARED ≤ length self.old.data_in }
        requires apart { is_among data_eq (take MOST_COMPARED self.old.data_in) datum.now ≡ false }
        ensures ok { OnOk result (self.new ≡ added self.old datum.now) }
        ensures err { OnErr result (self.new ≡ self.old) }
    {
        let text = text_of(alloc, self.kind, datum)?;
        if self.texts.contains(&text) {
            return Ok(());
        }
        self.data.push(datum)?;
        if self.texts.insert(text).is_ok() {
            return Ok(());
        }
        self.data.pop();
        Err(AllocError)
    }

    /// Adds a datum, unless it is there.
    pub(crate) fn add(&mut self, alloc: Global, datum: &'a Data) -> Result<(), NoMemory>
        requires { HasForm self.old.kind datum.now }
        ensures ok { OnOk result (self.new ≡ added self.old datum.now) }
        ensures err { OnErr result (self.new ≡ self.old) }
    {
        let first = self.data.len().min(MOST_COMPARED);
        if self.data[..first].contains(&datum) {
            return Ok(());
        }
        if first == MOST_COMPARED {
            return self.add_behind(alloc, datum);
        }
        self.data.push(datum)?;
        Ok(())
    }
}
