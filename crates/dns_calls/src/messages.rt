//! Calls for messages and queries.

ghost use Rattle.std.specs.Prelude.{◌≡◌, [], ◌∷◌};
ghost use Rattle.std.specs.Bool.{OnTrue};
ghost use Rattle.dns_wire.specs.Write.Question.{in_class_in};

use crate::fault::CallFault;
use crate::names::digits;
use crate::words::{message_words, push_question};
use dns_text::equality_law;
use dns_wire::{
    Asked, CLASS_IN, Message, Query, Rcode, cut_for_udp, decode, encode, encode_reply, fault_reply,
    read_question,
};
use std::alloc::Global;

/// The message that octets are, in words.
pub fn words_of(alloc: Global, octets: &[u8]) -> Result<Vec<u8>, CallFault> {
    Ok(message_words(alloc, &decode(alloc, octets)?)?)
}

/// The octets to which a message is written, after it was read from octets.
pub fn encoding_of(alloc: Global, octets: &[u8]) -> Result<Vec<u8>, CallFault> {
    let written = encode(alloc, &decode(alloc, octets)?)?;
    Ok(digits(alloc, &written)?)
}

/// Whether a written message is read back as the same message.
pub fn is_read_again(alloc: Global, octets: &[u8]) -> Result<Vec<u8>, CallFault> {
    let message = decode(alloc, octets)?;
    let written = encode(alloc, &message)?;
    let is_same = decode(alloc, &written)? == message;
    Ok(format!(in alloc; "{is_same}")?.into_bytes())
}

fn query_words(alloc: Global, query: &Query) -> Result<Vec<u8>, CallFault> {
    let id = query.id;
    let rd = u8::from(query.rd);
    let mut told = format!(in alloc; "query ID {id} RD {rd} ")?.into_bytes();
    push_question(alloc, &query.question, CLASS_IN, &mut told)?;
    told.push(b' ')?;
    told.extend_from_slice(&digits(alloc, query.octets.as_slice())?)?;
    Ok(told)
}

/// The request in octets that a server received: `drop`, an RCODE, or a question with its octets.
pub fn verdict_on(alloc: Global, octets: &[u8]) -> Result<Vec<u8>, CallFault> {
    match read_question(alloc, octets)? {
        Asked::Drop => Ok(Vec::from_slice(alloc, b"drop")?),
        Asked::Fault(rcode) => {
            let number = rcode.number();
            Ok(format!(in alloc; "rcode {number}")?.into_bytes())
        }
        Asked::Good(query) => query_words(alloc, &query),
    }
}

/// The error reply to octets with an RCODE of one octet, or `none`.
pub fn fault_reply_to(alloc: Global, octets: &[u8], rcode: &[u8]) -> Result<Vec<u8>, CallFault> {
    let [number] = rcode else {
        return Err(CallFault::NoCall);
    };
    let Some(rcode) = Rcode::from_number(*number) else {
        return Err(CallFault::NoCall);
    };
    match fault_reply(octets, rcode) {
        Some(reply) => Ok(digits(alloc, &reply)?),
        None => Ok(Vec::from_slice(alloc, b"none")?),
    }
}

/// The query in octets that ask for an answer.
pub fn query_in(alloc: Global, octets: &[u8]) -> Result<Query, CallFault> {
    match read_question(alloc, octets)? {
        Asked::Good(query) => Ok(query),
        _ => Err(CallFault::NoCall),
    }
}

/// A reply to a query, truncated for UDP.
pub fn reply_over_udp(alloc: Global, query: &[u8], reply: &[u8]) -> Result<Vec<u8>, CallFault> {
    let query = query_in(alloc, query)?;
    let mut octets = Vec::from_slice(alloc, reply)?;
    cut_for_udp(&mut octets, &query);
    Ok(digits(alloc, &octets)?)
}

/// Whether a message asks what a query asks, and nothing else.
fn is_reply(query: &Query, message: &Message) -> bool
    ensures { OnTrue result (message.now.questions ≡ in_class_in query.now.question ∷ []) }
{
    equality_law();
    match message.questions.as_slice() {
        [only] => only.class == CLASS_IN && only.item == query.question,
        _ => false,
    }
}

/// A message written as the reply to a query. Its only question is that of the query.
pub fn reply_octets(alloc: Global, query: &[u8], reply: &[u8]) -> Result<Vec<u8>, CallFault> {
    let query = query_in(alloc, query)?;
    let reply = decode(alloc, reply)?;
    if !is_reply(&query, &reply) {
        return Err(CallFault::NoCall);
    }
    let octets = encode_reply(alloc, &query, &reply)?;
    Ok(digits(alloc, &octets)?)
}
