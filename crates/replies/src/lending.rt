//! The records of an answer, lent as the sections of a reply.

ghost use Rattle.std.specs.Prelude.{◌≡◌, ℕ, ◌++◌, length, slice_get};
ghost use Rattle.std.specs.Option.{option_copied, option_to_list};
ghost use Rattle.dns_wire.specs.Lent.{part_at};
ghost use Rattle.replies.specs.Lending.{answer_parts, authority_parts, records_found, records_written, seconds_written, soa_written};

use dns_text::{Items, MOST_TTL, Ttl};
use dns_wire::{LentRecord, Section};
use iterate::{AnswerSet, Soa};
use ranked::{Body, Find, Scope};

/// A TTL of so many seconds, or the longest there is (RFC 2181, section 8).
fn ttl_of(seconds: u32) -> Ttl
    ensures { result ≡ seconds_written seconds }
{
    Ttl::from_seconds(seconds.min(MOST_TTL as u32)).unwrap()
}

/// The number of records that a find gives: 0 for a negative answer.
fn found_count(find: &Find) -> usize
    ensures { (ttl : ℕ) → result ≡ length (records_found ttl find.now) }
{
    match (&find.scope, &find.body) {
        (Scope::One(_), Body::Set(data)) => data.as_slice().len(),
        _ => 0,
    }
}

/// The record at a place among those of a find.
fn found_record(find: &Find, ttl: u32, place: usize) -> Option<LentRecord<'_>>
    ensures { result ≡ slice_get (records_found ttl find.now) place }
{
    let Scope::One(kind) = find.scope else {
        return None;
    };
    let Body::Set(data) = &find.body else {
        return None;
    };
    let body = data.as_slice().get(place)?;
    Some(LentRecord::new(&find.owner, kind, ttl_of(ttl), body))
}

/// The number of records in a set.
fn set_count(answer: &AnswerSet) -> usize
    ensures { result ≡ length (records_written answer.now) }
{
    match answer {
        AnswerSet::Find { find, .. } => found_count(find.find()),
        AnswerSet::Local(records) => records.get().as_slice().len(),
        AnswerSet::Passing(set) => set.get().data.as_slice().len(),
    }
}

/// The record at a place in a set.
fn set_record(answer: &AnswerSet, place: usize) -> Option<LentRecord<'_>>
    ensures { result ≡ slice_get (records_written answer.now) place }
{
    match answer {
        AnswerSet::Find { ttl, find } => found_record(find.find(), *ttl, place),
        AnswerSet::Local(records) => {
            let record = records.get().as_slice().get(place)?;
            Some(LentRecord::new(record.owner(), record.kind(), record.ttl(), record.body()))
        }
        AnswerSet::Passing(set) => {
            let set = set.get();
            let body = set.data.as_slice().get(place)?;
            Some(LentRecord::new(&set.owner, set.kind, Ttl::ZERO, body))
        }
    }
}

/// The SOA record of a negative answer, if it has one.
fn soa_record(soa: &Soa) -> Option<LentRecord<'_>>
    ensures { option_to_list result ≡ soa_written soa.now }
{
    match soa {
        Soa::Find { ttl, find } => match &find.find().body {
            Body::Set(_) => None,
            Body::NoData(soa) | Body::NoName(soa) => {
                let soa = soa.get();
                Some(LentRecord::new(&soa.owner, soa.kind, ttl_of(*ttl), &soa.body))
            }
        },
        Soa::Local(record) => Some(LentRecord::new(
            record.owner(),
            record.kind(),
            record.ttl(),
            record.body(),
        )),
    }
}

/// The answer section: the sets of the aliases, and the last set.
#[derive(Drop)]
pub(crate) struct AnswerSection<'a> {
    pub(crate) aliases: &'a Items<AnswerSet>,
    pub(crate) last: &'a Option<AnswerSet>,
}

impl AnswerSection<'_> {
    /// The set at a place: an alias, or the last set after them.
    fn set(&self, part: usize) -> Option<&AnswerSet>
        ensures { option_copied result ≡ slice_get (self.now.aliases.now ++ option_to_list self.now.last.now) part }
    {
        let aliases = self.aliases.as_slice();
        if part == aliases.len() {
            return self.last.as_ref();
        }
        aliases.get(part)
    }
}

impl Section for AnswerSection<'_> {
    ghost parts = { λ s. answer_parts s.aliases.now s.last.now };

    fn part_count(&self) -> usize {
        let last = if self.last.is_some() { 1 } else { 0 };
        self.aliases.as_slice().len() + last
    }

    fn record_count(&self, part: usize) -> usize {
        match self.set(part) {
            Some(set) => set_count(set),
            None => 0,
        }
    }

    fn record(&self, part: usize, place: usize) -> Option<LentRecord<'_>> {
        match self.set(part) {
            Some(set) => set_record(set, place),
            None => None,
        }
    }
}

/// The authority section: the SOA record of a negative answer.
#[derive(Drop)]
pub(crate) struct AuthoritySection<'a> {
    pub(crate) authority: &'a Option<Soa>,
}

impl AuthoritySection<'_> {
    /// The SOA record, which is part 0. None for any other part.
    fn soa(&self, part: usize) -> Option<LentRecord<'_>>
        ensures { option_to_list result ≡ part_at (authority_parts self.now.authority.now) part }
    {
        if part > 0 {
            return None;
        }
        match self.authority {
            Some(soa) => soa_record(soa),
            None => None,
        }
    }
}

impl Section for AuthoritySection<'_> {
    ghost parts = { λ s. authority_parts s.authority.now };

    fn part_count(&self) -> usize {
        if self.authority.is_some() { 1 } else { 0 }
    }

    fn record_count(&self, part: usize) -> usize {
        if self.soa(part).is_some() { 1 } else { 0 }
    }

    fn record(&self, part: usize, place: usize) -> Option<LentRecord<'_>> {
        if place > 0 {
            return None;
        }
        self.soa(part)
    }
}
