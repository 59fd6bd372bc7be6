//! The negative answer of a response, and its TTL.

ghost use Rattle.std.specs.Prelude.{◌≡◌, IfOk, OnErr, IsSome};
ghost use Rattle.std.specs.Option.{option_map};
ghost use Rattle.neg_rule.specs.Negative.{denied_for, denied_in, denies, has_answer, may_deny, negative_in, said_by, soa_for};

use crate::alias::{is_for, last_of};
use dns_name::{Name, NoMemory};
use dns_text::types::SOA;
use dns_text::{Data, Question, Record, Shared};
use dns_wire::{CLASS_IN, Classed, Message, Rcode};
use ranked::Find;
use std::alloc::Global;

/// Whether a response may deny: it is authoritative, and its RCODE is no error or no such name.
fn may_deny(message: &Message) -> bool
    ensures { result ≡ may_deny message.now }
{
    let rcode = message.head.rcode;
    message.head.aa && (rcode == Rcode::NAME_ERROR || rcode == Rcode::NO_ERROR)
}

/// Whether a record is an SOA of class IN, owned at or above a name and at or below a zone.
fn denies(r: &Classed<Record>, zone: &Name, name: &Name) -> bool
    ensures { result ≡ denies zone.now name.now r.now }
{
    r.class == CLASS_IN
        && r.item.kind == SOA
        && name.at_or_below(&r.item.owner)
        && r.item.owner.at_or_below(zone)
}

/// The first such SOA record of the authority section.
fn soa_for<'a>(message: &'a Message, zone: &Name, name: &Name) -> Option<&'a Record>
    ensures { option_map (λ soa. soa.now) result ≡ soa_for message.now zone.now name.now }
{
    let first = message
        .authority
        .as_slice()
        .iter()
        .find(|r| denies(r, zone, name))?;
    Some(&first.item)
}

/// Whether the answer section has a record of the type asked for at a name.
fn has_answer(message: &Message, question: &Question, name: &Name) -> bool
    ensures { result ≡ has_answer message.now question.now name.now }
{
    message
        .answer
        .as_slice()
        .iter()
        .any(|r| is_for(r, name, question.kind))
}

/// The last name of a question, and the SOA record that denies it or its data.
fn denied_in<'a>(
    message: &'a Message,
    question: &'a Question,
    zone: &Name,
) -> Option<(&'a Name, &'a Record)>
    ensures { option_map (λ found. (found.0.now, found.1.now)) result ≡ denied_in message.now question.now zone.now }
{
    if !may_deny(message) {
        return None;
    }
    let last = last_of(message.answer.as_slice(), question)?;
    if has_answer(message, question, last) {
        return None;
    }
    let soa = soa_for(message, zone, last)?;
    Some((last, soa))
}

/// The TTL of the negative answer of an SOA record.
fn denied_for(soa: &Record) -> u32
    ensures { result ≡ denied_for soa.now }
{
    match &soa.body {
        Data::Soa { minimum, .. } => soa.ttl.seconds().min(*minimum),
        _ => 0,
    }
}

/// The SOA record of a response, copied to a block of its own.
fn shared_copy(alloc: Global, soa: &Record) -> Result<Shared<Record>, NoMemory>
    ensures { IfOk result (λ copied. copied ≡ soa.now) }
{
    let copy = soa.copy(alloc)?;
    Ok(Shared::new(alloc, copy)?)
}

/// The negative answer of a response from a server of `zone` to a question. It takes memory only if there is one.
pub fn negative_of(
    alloc: Global,
    message: &Message,
    question: &Question,
    zone: &Name,
) -> Result<Option<Find>, NoMemory>
    ensures ok { IfOk result (λ found. option_map said_by found ≡ negative_in message.now question.now zone.now) }
    ensures memory { OnErr result (IsSome (negative_in message.now question.now zone.now)) }
{
    let Some((last, soa)) = denied_in(message, question, zone) else {
        return Ok(None);
    };
    let ttl = denied_for(soa);
    if ttl == 0 {
        return Ok(None);
    }
    let owner = last.clone()?;
    let record = shared_copy(alloc, soa)?;
    if message.head.rcode == Rcode::NAME_ERROR {
        return Ok(Find::no_name(owner, ttl, record));
    }
    Ok(Find::no_data(owner, question.kind, ttl, record))
}
