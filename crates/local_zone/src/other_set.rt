//! The records of one owner and TYPE on the other side of a change, read through those of this side.

ghost use Rattle.std.specs.Prelude.{◌≡◌, ◌==◌, ◌++◌, ◌∷◌, [], None, Some, IfOk, IsOk, length, map, slice_get};
ghost use Rattle.std.specs.Option.{option_map};
ghost use Rattle.local_zone.specs.Show.{shown_as, timed_as};

use crate::record::LocalRecord;
use crate::shared_answer::{SeenRecord, share_set};
use dns_name::{Name, NoMemory};
use dns_text::{Items, Record, Shared, Ttl};
use std::alloc::Global;
use std::marker::Model;

/// The record as one of the table, if there is one. It takes no memory.
fn share_last(last: Option<&Shared<Record>>) -> Result<Option<LocalRecord>, NoMemory>
    ensures ok { IfOk result (λ shared. shared ≡ option_map (λ r. r.now) last.entry) }
    ensures free { last.entry ≡ None → IsOk result }
{
    match last {
        Some(new) => Ok(Some(LocalRecord::new(new.share()?))),
        None => Ok(None),
    }
}

/// The records of a set on the other side of a change: those of this side, all with another TTL if there is one, and then one more
/// if there is one. It takes no memory. Contracts see the records there.
#[derive(Drop)]
pub(crate) struct OtherSet<'a> {
    records: &'a [LocalRecord],
    ttl: Option<Ttl>,
    last: Option<&'a Shared<Record>>,
}

impl<'a> Model for OtherSet<'a> {
    ghost use Rattle.std.specs.Prelude.{List, map};
    ghost use Rattle.dns_text.specs.declared.record.Record.{Record};
    ghost use Rattle.local_zone.specs.OtherSet.{with_last};
    ghost use Rattle.local_zone.specs.Show.{timed_as};

    ghost Value = { List Record };

    ghost view = { λ s. with_last (map (timed_as s.ttl) s.records.now) s.last };
}

impl<'a> OtherSet<'a> {
    /// The records as they are.
    pub(crate) fn same(records: &'a [LocalRecord]) -> OtherSet<'a>
        ensures { result ≡ records.now }
    {
        OtherSet {
            records,
            ttl: None,
            last: None,
        }
    }

    /// The records with another TTL.
    pub(crate) fn timed(records: &'a [LocalRecord], ttl: Ttl) -> OtherSet<'a>
        ensures { result ≡ map (timed_as (Some ttl)) records.now }
    {
        OtherSet {
            records,
            ttl: Some(ttl),
            last: None,
        }
    }

    /// The records with the TTL of a new one, which comes last.
    pub(crate) fn with(records: &'a [LocalRecord], new: &'a Shared<Record>) -> OtherSet<'a>
        ensures { result ≡ map (timed_as (Some new.now.ttl)) records.now ++ new.now ∷ [] }
    {
        OtherSet {
            records,
            ttl: Some(new.get().ttl),
            last: Some(new),
        }
    }

    /// How many records there are.
    fn len(&self) -> usize
        ensures { result ≡ length self.now }
    {
        match self.last {
            Some(_) => self.records.len() + 1,
            None => self.records.len(),
        }
    }

    /// Whether the set has no record.
    pub(crate) fn is_empty(&self) -> bool
        ensures { result ≡ (length self.now == 0) }
    {
        self.records.is_empty() && self.last.is_none()
    }

    /// A share of the first record.
    pub(crate) fn share_first(&self) -> Result<Option<LocalRecord>, NoMemory>
        ensures ok { IfOk result (λ first. first ≡ slice_get self.now 0) }
        ensures free { self.now ≡ [] → IsOk result }
    {
        match self.records.first() {
            Some(first) => Ok(Some(first.share_timed(self.ttl)?)),
            None => share_last(self.last),
        }
    }

    /// Shares of the records, each shown as one of `shown`.
    pub(crate) fn to_items(
        &self,
        alloc: Global,
        shown: &Name,
    ) -> Result<Items<SeenRecord>, NoMemory>
        ensures { IfOk result (λ items. items ≡ map (shown_as shown.now) self.now) }
    {
        let mut seen = share_set(alloc, self.records, self.ttl, shown, self.len())?;
        if let Some(last) = share_last(self.last)? {
            seen.push_reserved(SeenRecord::new(shown, last)?);
        }
        Ok(Items::new(seen))
    }
}
