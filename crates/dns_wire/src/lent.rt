//! Borrowed records, and the sections that lend them.

ghost use Rattle.std.specs.Prelude.{◌≡◌, ◌<◌, get_or, length, slice_get};
ghost use Rattle.dns_wire.specs.Lent.{Parts, part_at};
ghost use Rattle.dns_wire.specs.Write.Question.{in_class_in};

use crate::message::{CLASS_IN, Classed};
use dns_name::Name;
use dns_text::{Data, Items, Record, Ttl};
use std::marker::Model;

/// A record whose name and data are borrowed. Contracts see a record with its class.
#[derive(Drop)]
pub struct LentRecord<'a> {
    pub(crate) owner: &'a Name,
    pub(crate) kind: u16,
    pub(crate) class: u16,
    pub(crate) ttl: Ttl,
    pub(crate) body: &'a Data,
}

impl<'a> Model for LentRecord<'a> {
    ghost use Rattle.dns_text.specs.declared.record.Record.{Record};
    ghost use Rattle.dns_wire.specs.declared.message.Classed.{Classed};

    ghost Value = { Classed Record };

    ghost view = { λ r. record { item = record { owner = r.owner.now; kind = r.kind; ttl = r.ttl; body = r.body.now }; class = r.class } };
}

impl<'a> LentRecord<'a> {
    /// A record of class IN.
    pub fn new(owner: &'a Name, kind: u16, ttl: Ttl, body: &'a Data) -> LentRecord<'a>
        ensures { result ≡ in_class_in (record { owner = owner.now; kind = kind; ttl = ttl; body = body.now }) }
    {
        LentRecord {
            owner,
            kind,
            class: CLASS_IN,
            ttl,
            body,
        }
    }

    /// A record of a message.
    pub fn of(entry: &'a Classed<Record>) -> LentRecord<'a>
        ensures { result ≡ entry.now }
    {
        LentRecord {
            owner: &entry.item.owner,
            kind: entry.item.kind,
            class: entry.class,
            ttl: entry.item.ttl,
            body: &entry.item.body,
        }
    }
}

/// A section of a message that lends its records, part by part. A part is an RRset (RFC 2181, section 5), one record, or
/// whatever else its holder has in one piece. The writer reads each record at least twice.
pub trait Section {
    ghost parts: { Self → Parts };

    /// How many parts there are.
    fn part_count(&self) -> usize
        ensures { result ≡ length (parts self.now) };

    /// How many records a part has; 0 if there is no such part.
    fn record_count(&self, part: usize) -> usize
        ensures { result ≡ length (part_at (parts self.now) part) };

    /// The record at a place of a part, both counted from 0; none if there is no such record.
    fn record(&self, part: usize, place: usize) -> Option<LentRecord<'_>>
        ensures { result ≡ slice_get (part_at (parts self.now) part) place };
}

/// A record of a part, which has one at this place.
pub(crate) fn record_in<S: Section>(section: &S, part: usize, place: usize) -> LentRecord<'_>
    requires { place < length (part_at (S.parts section.now) part) }
    ensures { result ≡ get_or (part_at (S.parts section.now) part) place result }
{
    section.record(part, place).unwrap()
}

/// A section without records.
#[derive(Clone, Copy)]
pub struct NoRecords;

impl Section for NoRecords {
    ghost parts = { λ _. [] };

    ghost use Rattle.std.specs.Prelude.{[]};

    fn part_count(&self) -> usize {
        0
    }

    fn record_count(&self, _part: usize) -> usize {
        0
    }

    fn record(&self, _part: usize, _place: usize) -> Option<LentRecord<'_>> {
        None
    }
}

/// The records of a message's section are one part.
impl Section for Items<Classed<Record>> {
    ghost use Rattle.std.specs.Prelude.{[], ◌∷◌};

    ghost parts = { λ records. records ∷ [] };

    fn part_count(&self) -> usize {
        1
    }

    fn record_count(&self, part: usize) -> usize {
        if part > 0 {
            return 0;
        }
        self.as_slice().len()
    }

    fn record(&self, part: usize, place: usize) -> Option<LentRecord<'_>> {
        if part > 0 {
            return None;
        }
        match self.as_slice().get(place) {
            Some(entry) => Some(LentRecord::of(entry)),
            None => None,
        }
    }
}

/// The sections of a message after its questions. Contracts see the records of each.
#[derive(Drop)]
pub(crate) struct Sections<'a, A: Section, B: Section, C: Section> {
    pub answer: &'a A,
    pub authority: &'a B,
    pub additional: &'a C,
}

impl<'a, A: Section, B: Section, C: Section> Model for Sections<'a, A, B, C> {
    ghost use Rattle.dns_wire.specs.Lent.{Records, records_in};

    ghost Value = { Records };

    ghost view = { λ s. records_in (A.parts s.answer.now) (B.parts s.authority.now) (C.parts s.additional.now) };
}
