//! Calls for the harvest of a message.

use crate::denials::{Words, asked_of, denial_words, push_scope};
use crate::fault::CallFault;
use dns_name::NoMemory;
use dns_text::{Data, push_data, push_type};
use dns_wire::decode;
use harvest::{Harvest, PassingSet, harvest};
use ranked::{Body, Find};
use std::alloc::Global;

/// Writes data, each after a blank, with commas between them.
fn push_each(data: &[Data], out: &mut Vec<u8>) -> Result<(), NoMemory> {
    let mut mark = b" ".as_slice();
    for datum in data {
        out.extend_from_slice(mark)?;
        push_data(datum, out)?;
        mark = b", ".as_slice();
    }
    Ok(())
}

/// `set`, the rank, the TTL, the owner, the type and the data; or the negative answer.
pub fn find_words(alloc: Global, find: &Find) -> Result<Vec<u8>, NoMemory> {
    let Body::Set(data) = &find.body else {
        return denial_words(alloc, find);
    };
    let rank = find.rank.level();
    let ttl = find.ttl;
    let mut told = format!(in alloc; "set {rank} {ttl} ")?.into_bytes();
    find.owner.push_text(&mut told)?;
    push_scope(find.scope, &mut told)?;
    push_each(data.as_slice(), &mut told)?;
    Ok(told)
}

/// `passing`, the rank, the owner, the type and the data.
pub fn passing_words(alloc: Global, set: &PassingSet) -> Result<Vec<u8>, NoMemory> {
    let rank = set.rank.level();
    let mut told = format!(in alloc; "passing {rank} ")?.into_bytes();
    set.owner.push_text(&mut told)?;
    told.push(b' ')?;
    push_type(set.kind, &mut told)?;
    push_each(set.data.as_slice(), &mut told)?;
    Ok(told)
}

/// Writes a part after a slash, unless it is the first.
fn push_part(part: &[u8], out: &mut Vec<u8>) -> Result<(), NoMemory> {
    if !out.is_empty() {
        out.extend_from_slice(b" / ")?;
    }
    out.extend_from_slice(part)
}

/// The finds in order, and then the passing sets; `none` if there are none.
fn harvest_words(alloc: Global, harvest: &Harvest) -> Result<Vec<u8>, NoMemory> {
    let mut told = Vec::new(alloc);
    for find in harvest.finds.as_slice() {
        push_part(&find_words(alloc, find.find())?, &mut told)?;
    }
    for set in harvest.passing.as_slice() {
        push_part(&passing_words(alloc, set.get())?, &mut told)?;
    }
    if told.is_empty() {
        told.extend_from_slice(b"none")?;
    }
    Ok(told)
}

/// The harvest of a message from a server of a zone that was asked a question of this name and type.
pub fn harvest_in(alloc: Global, octets: &[u8], words: Words<'_>) -> Result<Vec<u8>, CallFault> {
    let (question, zone) = asked_of(alloc, words)?;
    let message = decode(alloc, octets)?;
    Ok(harvest_words(alloc, &harvest(alloc, &message, &question, &zone)?)?)
}
