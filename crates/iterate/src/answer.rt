//! The answer to a question.

ghost use Rattle.std.specs.Prelude.{◌≡◌, IfOk};

use dns_name::NoMemory;
use dns_text::{Items, Shared};
use dns_wire::Rcode;
use harvest::PassingSet;
use local_zone::{LocalRecord, SeenRecord};
use ranked::SharedFind;
use std::alloc::Global;

/// A set of an answer.
#[derive(Drop)]
pub enum AnswerSet {
    /// A set from the cache or a response, with its TTL in seconds.
    Find { ttl: u32, find: SharedFind },
    /// Local data.
    Local(Shared<Items<SeenRecord>>),
    /// A set of a response that may be answered and not cached, since its TTL is 0 (RFC 1035, section 3.2.1).
    Passing(Shared<PassingSet>),
}

/// The SOA record of a negative answer (RFC 2308, section 3).
#[derive(Drop)]
pub enum Soa {
    /// From a negative find, with its TTL in seconds.
    Find { ttl: u32, find: SharedFind },
    /// From a local zone.
    Local(LocalRecord),
}

/// The answer to a question.
#[derive(Drop)]
pub enum Answer {
    /// A response is sent.
    Reply {
        rcode: Rcode,
        /// Set if local data or a local zone answers (AA; RFC 1035, section 4.1.1).
        aa: bool,
        /// The sets of CNAME records that lead to the last name.
        aliases: Items<AnswerSet>,
        /// The set of the last name, if there is one.
        last: Option<AnswerSet>,
        /// The SOA record of a negative answer.
        authority: Option<Soa>,
    },
    /// No response is sent.
    Silent,
}

impl AnswerSet {
    /// The same set, of which there is one owner more. It takes no memory; there can be too many owners to count.
    pub fn copy(&self) -> Result<AnswerSet, NoMemory>
        ensures { IfOk result (λ x. x ≡ self.now) }
    {
        match self {
            AnswerSet::Find { ttl, find } => Ok(AnswerSet::Find {
                ttl: *ttl,
                find: find.share()?,
            }),
            AnswerSet::Local(records) => Ok(AnswerSet::Local(records.share()?)),
            AnswerSet::Passing(set) => Ok(AnswerSet::Passing(set.share()?)),
        }
    }
}

impl Soa {
    /// The same record, of which there is one owner more. It takes no memory; there can be too many owners to count.
    pub fn copy(&self) -> Result<Soa, NoMemory>
        ensures { IfOk result (λ x. x ≡ self.now) }
    {
        match self {
            Soa::Find { ttl, find } => Ok(Soa::Find {
                ttl: *ttl,
                find: find.share()?,
            }),
            Soa::Local(record) => Ok(Soa::Local(record.share()?)),
        }
    }
}

fn copy_aliases(alloc: Global, aliases: &[AnswerSet]) -> Result<Items<AnswerSet>, NoMemory>
    ensures { IfOk result (λ x. x ≡ aliases.now) }
{
    let mut copies = Vec::new(alloc);
    for told in aliases {
        copies.push(told.copy()?)?;
    }
    Ok(Items::new(copies))
}

fn copy_last(last: &Option<AnswerSet>) -> Result<Option<AnswerSet>, NoMemory>
    ensures { IfOk result (λ x. x ≡ last.now) }
{
    match last {
        Some(told) => Ok(Some(told.copy()?)),
        None => Ok(None),
    }
}

fn copy_authority(authority: &Option<Soa>) -> Result<Option<Soa>, NoMemory>
    ensures { IfOk result (λ x. x ≡ authority.now) }
{
    match authority {
        Some(soa) => Ok(Some(soa.copy()?)),
        None => Ok(None),
    }
}

impl Answer {
    /// The same answer. Its sets are shared, so an answer without aliases takes no memory.
    pub fn copy(&self, alloc: Global) -> Result<Answer, NoMemory>
        ensures { IfOk result (λ x. x ≡ self.now) }
    {
        match self {
            Answer::Reply {
                rcode,
                aa,
                aliases,
                last,
                authority,
            } => Ok(Answer::Reply {
                rcode: *rcode,
                aa: *aa,
                aliases: copy_aliases(alloc, aliases.as_slice())?,
                last: copy_last(last)?,
                authority: copy_authority(authority)?,
            }),
            Answer::Silent => Ok(Answer::Silent),
        }
    }
}
