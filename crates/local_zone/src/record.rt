//! A record of the table.

ghost use Rattle.std.specs.Prelude.{◌≡◌, IfOk, map};
ghost use Rattle.local_zone.specs.Change.{retimed_by};
ghost use Rattle.local_zone.specs.Show.{timed_as};

use crate::mask::mask_of;
use crate::sought::Sought;
use crate::tag::tag_of;
use dns_name::{Name, NoMemory};
use dns_text::{Data, Record, Shared, Ttl};
use std::marker::Model;

/// A record of local data. Its owner and RDATA are shared, so that a new TTL copies neither.
#[derive(Drop)]
pub struct LocalRecord {
    said: Shared<Record>,
    ttl: Ttl,
    // A hash of the owner's octets. Most other owners have another one, so their names need not be read.
    tag: u32,
    // The bits of the owner and of all names above it. Most other names have a bit that is not among them.
    mask: u64,
}

impl Model for LocalRecord {
    ghost use Rattle.std.specs.Prelude.{◌≡◌};
    ghost use Rattle.dns_text.specs.declared.record.Record.{Record};
    ghost use Rattle.local_zone.specs.Mask.{mask_of};
    ghost use Rattle.local_zone.specs.Tag.{tag_of};

    ghost Value = { Record };

    ghost view = { λ r. record r.said { ttl = r.ttl } };

    ghost invariant = { λ r. (r.tag ≡ tag_of r.said.owner) × (r.mask ≡ mask_of r.said.owner) };
}

impl LocalRecord {
    ghost use Rattle.dns_name.specs.Below.{is_at_or_below};
    ghost use Rattle.dns_name.specs.Order.{name_eq};
    ghost use Rattle.local_zone.specs.Tables.{is_of_set, is_same};
    ghost use Rattle.local_zone.specs.Tag.{tag_of};

    pub(crate) fn new(said: Shared<Record>) -> LocalRecord
        ensures { result ≡ said }
    {
        let ttl = said.get().ttl;
        let owner = &said.get().owner;
        let tag = tag_of(owner);
        let mask = mask_of(owner);
        LocalRecord {
            said,
            ttl,
            tag,
            mask,
        }
    }

    /// Another share of the record. It takes no memory, and fails only if there are more shares than can be counted.
    pub fn share(&self) -> Result<LocalRecord, NoMemory>
        ensures { IfOk result (λ r. r ≡ self.now) }
    {
        self.with_ttl(self.ttl)
    }

    pub(crate) fn with_ttl(&self, ttl: Ttl) -> Result<LocalRecord, NoMemory>
        ensures { IfOk result (λ r. r ≡ record self.now { ttl = ttl }) }
    {
        Ok(LocalRecord {
            said: self.said.share()?,
            ttl,
            tag: self.tag,
            mask: self.mask,
        })
    }

    /// A share of the record, with another TTL if there is one. It takes no memory.
    pub(crate) fn share_timed(&self, ttl: Option<Ttl>) -> Result<LocalRecord, NoMemory>
        ensures { IfOk result (λ shared. shared ≡ timed_as ttl self.now) }
    {
        match ttl {
            Some(ttl) => self.with_ttl(ttl),
            None => self.share(),
        }
    }

    pub(crate) fn set_ttl(&mut self, ttl: Ttl)
        ensures { self.new ≡ record self.old { ttl = ttl } }
    {
        self.ttl = ttl;
    }

    /// The owner.
    pub fn owner(&self) -> &Name
        ensures { result.now ≡ self.now.owner }
    {
        &self.said.get().owner
    }

    /// The TYPE.
    pub fn kind(&self) -> u16
        ensures { result ≡ self.now.kind }
    {
        self.said.get().kind
    }

    /// The TTL of the record's set.
    pub fn ttl(&self) -> Ttl
        ensures { result ≡ self.now.ttl }
    {
        self.ttl
    }

    /// The RDATA.
    pub fn body(&self) -> &Data
        ensures { result.now ≡ self.now.body }
    {
        &self.said.get().body
    }

    /// Whether both have the same owner and TYPE (RFC 2181, section 5).
    pub(crate) fn is_of_set(&self, other: &Record) -> bool
        ensures { result ≡ is_of_set self.now other.now }
    {
        self.kind() == other.kind && *self.owner() == other.owner
    }

    /// The same, with the tag of the other owner.
    #[tactic(auto, using(crate::proofs::TagLaws::other_set))]
    pub(crate) fn is_of_tagged_set(&self, tag: u32, other: &Record) -> bool
        requires { tag ≡ tag_of other.now.owner }
        ensures { result ≡ is_of_set self.now other.now }
    {
        self.tag == tag && self.is_of_set(other)
    }

    /// Whether this name, which has this tag, is the owner.
    #[tactic(auto, using(crate::proofs::TagLaws::other_tag))]
    pub(crate) fn has_tagged_owner(&self, tag: u32, name: &Name) -> bool
        requires { tag ≡ tag_of name.now }
        ensures { result ≡ name_eq self.now.owner name.now }
    {
        self.tag == tag && *self.owner() == *name
    }

    /// Whether the owner is the name that is sought, or lies below it.
    pub(crate) fn is_at_or_below(&self, name: &Sought) -> bool
        ensures { result ≡ is_at_or_below self.now.owner name.now }
    {
        if name.may_cover(self.mask) {
            self.owner().at_or_below(name.name())
        } else {
            false
        }
    }

    /// Whether both are of one set and have the same RDATA.
    pub(crate) fn is_same(&self, other: &Record) -> bool
        ensures { result ≡ is_same self.now other.now }
    {
        // RDATA first: most are shorter than owners, so comparing them is faster.
        *self.body() == other.body && self.is_of_set(other)
    }
}

/// Gives the records of a set a TTL.
pub(crate) fn retime_each(records: &mut [LocalRecord], set: &Record, ttl: Ttl)
    ensures { records.new ≡ map (retimed_by (record set.now { ttl = ttl })) records.old }
{
    let tag = tag_of(&set.owner);
    for i in 0..records.len() {
        let r = &mut records[i];
        if r.is_of_tagged_set(tag, set) {
            r.set_ttl(ttl);
        }
    }
}

impl PartialEq for LocalRecord {
    ghost use Rattle.dns_text.specs.contracts.record.RecordPartialEq.TheImpl.Laws.{laws-law};

    ghost eq = { ⟦<Record as PartialEq>⟧.eq };

    ghost laws = { laws-law };

    fn eq(&self, other: &LocalRecord) -> bool {
        *self.owner() == *other.owner()
            && self.kind() == other.kind()
            && self.ttl == other.ttl
            && *self.body() == *other.body()
    }
}
