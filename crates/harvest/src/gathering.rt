//! The records of one owner, type and rank.

ghost use Rattle.std.specs.Prelude.{◌≡◌, IfOk, OnOk, min};
ghost use Rattle.harvest.specs.Sets.{begun, is_of_set, joined};

use crate::counted::Counted;
use crate::distinct::Distinct;
use dns_name::{Name, NoMemory};
use dns_text::Ttl;
use ranked::{LONGEST_TTL, Rank};
use std::alloc::Global;
use std::marker::Model;

/// A set that is being gathered. Its data are borrowed and without duplicates.
#[derive(Drop)]
pub(crate) struct Gathering<'a> {
    pub(crate) owner: &'a Name,
    pub(crate) rank: Rank,
    pub(crate) ttl: u32,
    pub(crate) data: Distinct<'a>,
}

impl<'a> Model for Gathering<'a> {
    ghost use Rattle.harvest.specs.Sets.{Set, IsGathered};

    ghost Value = { Set };

    ghost view = { λ g. record {
      key = record { owner = g.owner.now; kind = g.data.kind; rank = g.rank };
      ttl = g.ttl;
      data_in = g.data.data_in;
    } };

    ghost invariant = { λ g. IsGathered g.data.kind g.ttl g.data.data_in };
}

/// The lesser of two TTLs.
fn least(ttl: u32, other: Ttl) -> u32
    ensures { result ≡ min ttl other }
{
    ttl.min(other.seconds())
}

impl<'a> Gathering<'a> {
    /// A new set of one record.
    pub(crate) fn new(alloc: Global, first: &Counted<'a>) -> Result<Gathering<'a>, NoMemory>
        ensures { IfOk result (λ g. g ≡ begun first.now) }
    {
        let said = first.said;
        Ok(Gathering {
            owner: &said.owner,
            rank: first.rank,
            ttl: least(LONGEST_TTL, said.ttl),
            data: Distinct::new(alloc, said.kind, &said.body)?,
        })
    }

    /// Whether a record is of this set.
    pub(crate) fn has(&self, r: &Counted<'a>) -> bool
        ensures { result ≡ is_of_set r.now self.now }
    {
        self.rank.level() == r.rank.level()
            && self.data.kind() == r.said.kind
            && *self.owner == r.said.owner
    }

    /// Takes a record if it is of this set, and returns whether it is.
    pub(crate) fn join(&mut self, alloc: Global, r: &Counted<'a>) -> Result<bool, NoMemory>
        ensures set { OnOk result (self.new ≡ joined r.now self.old) }
        ensures told { IfOk result (λ told. told ≡ is_of_set r.now self.old) }
    {
        if !self.has(r) {
            return Ok(false);
        }
        self.data.add(alloc, &r.said.body)?;
        self.ttl = least(self.ttl, r.said.ttl);
        Ok(true)
    }
}
