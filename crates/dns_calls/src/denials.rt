//! Calls for the negative answer of a message.

use crate::fault::CallFault;
use crate::words::push_record;
use dns_name::{Name, NoMemory};
use dns_text::{Question, Record, push_type, read_type};
use dns_wire::{CLASS_IN, decode};
use neg_rule::negative_of;
use ranked::{Body, Find, Scope};
use std::alloc::Global;

/// The question for a name and a type, both as text.
pub fn question_of(alloc: Global, owner: &[u8], kind: &[u8]) -> Result<Question, CallFault> {
    let kind = read_type(kind)?;
    let owner = Name::from_text(alloc, owner)?;
    Ok(Question { owner, kind })
}

/// The words for a question, and for the zone whose server is asked it.
#[derive(Clone, Copy)]
pub struct Words<'a> {
    pub owner: &'a [u8],
    pub kind: &'a [u8],
    pub zone: &'a [u8],
}

/// The question and the zone that words say.
pub fn asked_of(alloc: Global, words: Words<'_>) -> Result<(Question, Name), CallFault> {
    let question = question_of(alloc, words.owner, words.kind)?;
    Ok((question, Name::from_text(alloc, words.zone)?))
}

/// Writes ` TYPE`, or nothing if the scope is every type.
pub fn push_scope(scope: Scope, out: &mut Vec<u8>) -> Result<(), NoMemory> {
    match scope {
        Scope::One(kind) => {
            out.push(b' ')?;
            push_type(kind, out)
        }
        Scope::Whole => Ok(()),
    }
}

/// The SOA record of a negative answer.
fn soa_of(find: &Find) -> Option<&Record> {
    match &find.body {
        Body::NoData(soa) | Body::NoName(soa) => Some(soa.get()),
        Body::Set(_) => None,
    }
}

/// `nodata` or `noname`, the rank, the TTL, the name and type denied, and the SOA record after a bar.
pub fn denial_words(alloc: Global, find: &Find) -> Result<Vec<u8>, NoMemory> {
    let word = match find.body {
        Body::NoData(_) => "nodata",
        Body::NoName(_) => "noname",
        Body::Set(_) => "set",
    };
    let rank = find.rank.level();
    let ttl = find.ttl;
    let mut told = format!(in alloc; "{word} {rank} {ttl} ")?.into_bytes();
    find.owner.push_text(&mut told)?;
    push_scope(find.scope, &mut told)?;
    if let Some(soa) = soa_of(find) {
        told.extend_from_slice(b" | ")?;
        push_record(alloc, soa, CLASS_IN, &mut told)?;
    }
    Ok(told)
}

/// The negative answer of a message from a zone to a question of this name and type, or `none`.
pub fn denial_in(alloc: Global, octets: &[u8], words: Words<'_>) -> Result<Vec<u8>, CallFault> {
    let (question, zone) = asked_of(alloc, words)?;
    let message = decode(alloc, octets)?;
    match negative_of(alloc, &message, &question, &zone)? {
        Some(find) => Ok(denial_words(alloc, &find)?),
        None => Ok(Vec::from_slice(alloc, b"none")?),
    }
}
