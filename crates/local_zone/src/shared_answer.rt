//! An answer that shares the table's records, so that it outlives a borrow of the table.

ghost use Rattle.std.specs.Prelude.{◌≡◌, ◌≤◌, IfOk, length, map};
ghost use Rattle.std.specs.Vec.{vec_len, vec_capacity};
ghost use Rattle.local_zone.specs.Show.{shown_as, timed_as};

use crate::local_answer::LocalSet;
use crate::record::LocalRecord;
use dns_name::{Name, NoMemory};
use dns_text::{Data, Items, Record, Ttl};
use std::alloc::Global;
use std::marker::Model;

/// A record as it was answered: a local one, with the owner of which it is shown.
#[derive(Drop)]
pub struct SeenRecord {
    owner: Name,
    said: LocalRecord,
}

impl Model for SeenRecord {
    ghost use Rattle.dns_text.specs.declared.record.Record.{Record};
    ghost use Rattle.local_zone.specs.Show.{shown_as};

    ghost Value = { Record };

    ghost view = { λ r. shown_as r.owner r.said };
}

impl SeenRecord {
    /// A record, shown as one of `owner`.
    pub(crate) fn new(owner: &Name, said: LocalRecord) -> Result<SeenRecord, NoMemory>
        ensures { IfOk result (λ r. r ≡ shown_as owner.now said) }
    {
        Ok(SeenRecord {
            owner: owner.clone()?,
            said,
        })
    }

    /// Another share of the record. It fails only if the record has more shares than can be counted.
    pub fn share(&self) -> Result<SeenRecord, NoMemory>
        ensures { IfOk result (λ r. r ≡ self.now) }
    {
        SeenRecord::new(&self.owner, self.said.share()?)
    }

    /// The owner that the answer shows.
    pub fn owner(&self) -> &Name
        ensures { result.now ≡ self.now.owner }
    {
        &self.owner
    }

    /// The TYPE.
    pub fn kind(&self) -> u16
        ensures { result ≡ self.now.kind }
    {
        self.said.kind()
    }

    /// The TTL.
    pub fn ttl(&self) -> Ttl
        ensures { result ≡ self.now.ttl }
    {
        self.said.ttl()
    }

    /// The RDATA.
    pub fn body(&self) -> &Data
        ensures { result.now ≡ self.now.body }
    {
        self.said.body()
    }
}

impl PartialEq for SeenRecord {
    ghost use Rattle.dns_text.specs.contracts.record.RecordPartialEq.TheImpl.Laws.{laws-law};

    ghost eq = { ⟦<Record as PartialEq>⟧.eq };

    ghost laws = { laws-law };

    fn eq(&self, other: &SeenRecord) -> bool {
        *self.owner() == *other.owner()
            && self.kind() == other.kind()
            && self.ttl() == other.ttl()
            && *self.body() == *other.body()
    }
}

/// Shares of the records, all with another TTL if there is one, each shown as one of `shown`, in a vector
/// with this room.
pub(crate) fn share_set(
    alloc: Global,
    records: &[LocalRecord],
    ttl: Option<Ttl>,
    shown: &Name,
    room: usize,
) -> Result<Vec<SeenRecord>, NoMemory>
    requires { length records.now ≤ room }
    ensures items { IfOk result (λ v. v.items ≡ map (λ r. shown_as shown.now (timed_as ttl r)) records.now) }
    ensures len { IfOk result (λ v. vec_len v ≡ length records.now) }
    ensures room { IfOk result (λ v. vec_capacity v ≡ room) }
{
    let mut seen = Vec::with_capacity(alloc, room)?;
    for r in records {
        seen.push_reserved(SeenRecord::new(shown, r.share_timed(ttl)?)?);
    }
    Ok(seen)
}

impl LocalSet<'_> {
    /// The same with shares of the records.
    pub fn to_items(&self, alloc: Global) -> Result<Items<SeenRecord>, NoMemory>
        ensures { IfOk result (λ items. items ≡ self.now) }
    {
        let seen = share_set(alloc, self.records, None, self.shown, self.records.len())?;
        Ok(Items::new(seen))
    }
}

/// The same records once more, each shared.
pub fn share_seen(alloc: Global, records: &[SeenRecord]) -> Result<Items<SeenRecord>, NoMemory>
    ensures { IfOk result (λ items. items ≡ records.now) }
{
    let mut shared = Vec::new(alloc);
    for r in records {
        shared.push(r.share()?)?;
    }
    Ok(Items::new(shared))
}
