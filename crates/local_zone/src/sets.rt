//! The records of an owner that has several, with those of each TYPE side by side.

ghost use Rattle.std.specs.Prelude.{◌≡◌, ◌<◌, ◌≤◌, ◌∷◌, [], map, length, IfOk, OnErr, OnOk};
ghost use Rattle.std.specs.List.{AllWithin};
ghost use Rattle.local_zone.specs.Change.{retimed_by};
ghost use Rattle.local_zone.specs.Index.{of_kind, HoldAllButLast, HoldOneMore};
ghost use Rattle.local_zone.specs.Sets.{AreInOrder};

use crate::record::{LocalRecord, retime_each};
use dns_name::NoMemory;
use dns_text::{Record, Ttl};
use std::alloc::Global;
use std::marker::Model;

/// How many of the records have a lower TYPE.
fn count_lower(records: &[LocalRecord], kind: u16) -> usize
    requires { AreInOrder records.now }
    ensures within { result ≤ length records.now }
    ensures lower { AllWithin (λ r. r.kind < kind) records.now 0 result }
    ensures others { AllWithin (λ r. kind ≤ r.kind) records.now result (length records.now) }
{
    records.partition_point(|r| r.kind() < kind)
}

/// How many of the records have this TYPE or a lower one.
fn count_up_to(records: &[LocalRecord], kind: u16) -> usize
    requires { AreInOrder records.now }
    ensures within { result ≤ length records.now }
    ensures up_to { AllWithin (λ r. r.kind ≤ kind) records.now 0 result }
    ensures others { AllWithin (λ r. kind < r.kind) records.now result (length records.now) }
{
    records.partition_point(|r| r.kind() <= kind)
}

/// Records by TYPE, and those of one TYPE in the order of arrival. So a set is found by halving.
#[derive(Drop)]
pub(crate) struct Sets {
    records: Vec<LocalRecord>,
}

impl Model for Sets {
    ghost use Rattle.std.specs.Prelude.{List};
    ghost use Rattle.dns_text.specs.declared.record.Record.{Record};
    ghost use Rattle.local_zone.specs.Sets.{AreInOrder};

    ghost Value = { List Record };

    ghost view = { λ s. s.records.items };

    ghost invariant = { λ s. AreInOrder s.records.items };
}

impl Sets {
    /// Two records. The first is shared.
    pub(crate) fn of_two(
        alloc: Global,
        first: &LocalRecord,
        second: LocalRecord,
    ) -> Result<Sets, NoMemory>
        ensures { IfOk result (HoldOneMore second (first.now ∷ [])) }
    {
        let mut records = Vec::with_capacity(alloc, 2)?;
        records.push_reserved(first.share()?);
        let mut sets = Sets { records };
        sets.push(second)?;
        Ok(sets)
    }

    /// How many records there are.
    pub(crate) fn len(&self) -> usize
        ensures { result ≡ length self.now }
    {
        self.records.len()
    }

    /// The records of a TYPE, in order.
    pub(crate) fn of_kind(&self, kind: u16) -> &[LocalRecord]
        ensures { result.now ≡ of_kind kind self.now }
    {
        let first = count_lower(&self.records, kind);
        let from = &self.records[first..];
        &from[..count_up_to(from, kind)]
    }

    /// Puts a record behind those of its TYPE. If memory is refused, nothing has changed.
    pub(crate) fn push(&mut self, new: LocalRecord) -> Result<(), NoMemory>
        ensures ok { OnOk result (HoldOneMore new self.old self.new) }
        ensures err { OnErr result (self.new ≡ self.old) }
    {
        let end = count_up_to(&self.records, new.kind());
        Ok(self.records.insert(end, new)?)
    }

    /// Takes the last record of a TYPE out. It takes no memory.
    pub(crate) fn pop(&mut self, kind: u16)
        ensures { HoldAllButLast kind self.old self.new }
    {
        let end = count_up_to(&self.records, kind);
        if end > 0 && self.records[end - 1].kind() == kind {
            self.records.remove(end - 1);
        }
    }

    /// Gives the records of a set a TTL.
    pub(crate) fn retime(&mut self, set: &Record, ttl: Ttl)
        ensures { self.new ≡ map (retimed_by (record set.now { ttl = ttl })) self.old }
    {
        retime_each(self.records.as_mut_slice(), set, ttl);
    }
}
