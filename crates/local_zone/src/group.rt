//! The records of one owner.

ghost use Rattle.std.specs.Prelude.{◌≡◌, ◌∷◌, [], true, false, length, map, OnErr, OnOk};
ghost use Rattle.local_zone.specs.Change.{retimed_by};
ghost use Rattle.local_zone.specs.Group.{records_held};
ghost use Rattle.local_zone.specs.Index.{of_kind, HoldAllButLast, HoldOneMore};
ghost use Rattle.local_zone.specs.Show.{or_list};
ghost use Rattle.dns_text.specs.declared.types.TheConstants.{CNAME};

use crate::record::LocalRecord;
use crate::sets::Sets;
use dns_name::NoMemory;
use dns_text::types::CNAME;
use dns_text::{Record, Ttl};
use std::alloc::Global;
use std::{mem, slice};

/// The records of one owner. Most owners have one, which needs no block of its own.
#[derive(Drop)]
pub(crate) enum Group {
    Empty,
    One(LocalRecord),
    Many(Sets),
}

impl Group {
    /// How many records there are.
    pub(crate) fn len(&self) -> usize
        ensures { result ≡ length (records_held self.now) }
    {
        match self {
            Group::Empty => 0,
            Group::One(_) => 1,
            Group::Many(many) => many.len(),
        }
    }

    /// The records of a TYPE, in the order of arrival.
    pub(crate) fn of_kind(&self, kind: u16) -> &[LocalRecord]
        ensures { result.now ≡ of_kind kind (records_held self.now) }
    {
        match self {
            Group::Empty => &[],
            Group::One(one) => of_one(one, kind),
            Group::Many(many) => many.of_kind(kind),
        }
    }

    /// Its CNAME records, else those of the TYPE (RFC 1034, section 3.6.2).
    pub(crate) fn data_for(&self, kind: u16) -> &[LocalRecord]
        ensures { result.now ≡ or_list (of_kind CNAME (records_held self.now)) (of_kind kind (records_held self.now)) }
    {
        let aliases = self.of_kind(CNAME);
        if aliases.is_empty() {
            return self.of_kind(kind);
        }
        aliases
    }

    /// Puts a record behind those of its TYPE. If memory is refused, nothing has changed.
    pub(crate) fn push(&mut self, alloc: Global, new: LocalRecord) -> Result<(), NoMemory>
        ensures ok { OnOk result (HoldOneMore new (records_held self.old) (records_held self.new)) }
        ensures err { OnErr result (records_held self.new ≡ records_held self.old) }
    {
        match mem::replace(self, Group::Empty) {
            Group::Empty => {
                *self = Group::One(new);
                Ok(())
            }
            Group::One(first) => self.hold_two(alloc, first, new),
            Group::Many(many) => {
                let mut many = many;
                let pushed = many.push(new);
                *self = Group::Many(many);
                pushed
            }
        }
    }

    // Holds two records, or the first alone if memory is refused.
    fn hold_two(
        &mut self,
        alloc: Global,
        first: LocalRecord,
        second: LocalRecord,
    ) -> Result<(), NoMemory>
        ensures ok { OnOk result (HoldOneMore second (first ∷ []) (records_held self.new)) }
        ensures err { OnErr result (records_held self.new ≡ first ∷ []) }
    {
        match Sets::of_two(alloc, &first, second) {
            Ok(many) => {
                *self = Group::Many(many);
                Ok(())
            }
            Err(e) => {
                *self = Group::One(first);
                Err(e)
            }
        }
    }

    /// Gives the records of a set a TTL.
    pub(crate) fn retime(&mut self, set: &Record, ttl: Ttl)
        ensures { records_held self.new ≡ map (retimed_by (record set.now { ttl = ttl })) (records_held self.old) }
    {
        match self {
            Group::Empty => {}
            Group::One(one) => retime_one(one, set, ttl),
            Group::Many(many) => many.retime(set, ttl),
        }
    }

    /// Takes the last record of a TYPE out, and returns whether none is left. It takes no memory.
    pub(crate) fn pop(&mut self, kind: u16) -> bool
        ensures left { HoldAllButLast kind (records_held self.old) (records_held self.new) }
        ensures none { result ≡ true → records_held self.new ≡ [] }
        ensures some { result ≡ false → records_held self.new ≡ [] → ⊥ }
    {
        match mem::replace(self, Group::Empty) {
            Group::Empty => true,
            Group::One(_) => true,
            Group::Many(many) => {
                let mut many = many;
                many.pop(kind);
                let is_empty = many.len() == 0;
                *self = Group::Many(many);
                is_empty
            }
        }
    }
}

/// A record, if it is of the TYPE.
fn of_one(one: &LocalRecord, kind: u16) -> &[LocalRecord]
    ensures { result.now ≡ of_kind kind (one.now ∷ []) }
{
    if one.kind() == kind {
        return slice::from_ref(one);
    }
    &[]
}

/// Gives a record a TTL, if it is of the set.
fn retime_one(one: &mut LocalRecord, set: &Record, ttl: Ttl)
    ensures { one.new ≡ retimed_by (record set.now { ttl = ttl }) one.old }
{
    if one.is_of_set(set) {
        one.set_ttl(ttl);
    }
}
