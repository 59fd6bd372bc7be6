//! Records in words.

use crate::records::push_record;
use dns_name::{Name, NoMemory};
use dns_text::Data;
use iterate::{AnswerSet, Soa};
use ranked::{Body, Find, Scope};
use std::alloc::Global;

/// What stands before each record.
const BAR: &[u8] = b" | ";

/// Writes the records of a find, or the record by which it denies.
pub fn push_find(alloc: Global, find: &Find, ttl: u32, out: &mut Vec<u8>) -> Result<(), NoMemory> {
    match &find.body {
        Body::Set(data) => push_set(alloc, &find.owner, ttl, find.scope, data.as_slice(), out),
        Body::NoData(soa) | Body::NoName(soa) => {
            let soa = soa.get();
            out.extend_from_slice(BAR)?;
            push_record(alloc, &soa.owner, ttl, soa.kind, &soa.body, out)
        }
    }
}

fn push_set(
    alloc: Global,
    owner: &Name,
    ttl: u32,
    scope: Scope,
    data: &[Data],
    out: &mut Vec<u8>,
) -> Result<(), NoMemory> {
    let Scope::One(kind) = scope else {
        return Ok(());
    };
    for datum in data {
        out.extend_from_slice(BAR)?;
        push_record(alloc, owner, ttl, kind, datum, out)?;
    }
    Ok(())
}

/// Writes the records of a set of an answer.
pub fn push_told(alloc: Global, told: &AnswerSet, out: &mut Vec<u8>) -> Result<(), NoMemory> {
    match told {
        AnswerSet::Find { ttl, find } => push_find(alloc, find.find(), *ttl, out),
        AnswerSet::Local(records) => {
            for r in records.get().as_slice() {
                out.extend_from_slice(BAR)?;
                push_record(alloc, r.owner(), r.ttl().seconds(), r.kind(), r.body(), out)?;
            }
            Ok(())
        }
        AnswerSet::Passing(set) => {
            let set = set.get();
            push_set(
                alloc,
                &set.owner,
                0,
                Scope::One(set.kind),
                set.data.as_slice(),
                out,
            )
        }
    }
}

/// Writes the SOA record of a negative answer.
pub fn push_soa(alloc: Global, soa: &Soa, out: &mut Vec<u8>) -> Result<(), NoMemory> {
    match soa {
        Soa::Find { ttl, find } => push_find(alloc, find.find(), *ttl, out),
        Soa::Local(r) => {
            out.extend_from_slice(BAR)?;
            push_record(alloc, r.owner(), r.ttl().seconds(), r.kind(), r.body(), out)
        }
    }
}
