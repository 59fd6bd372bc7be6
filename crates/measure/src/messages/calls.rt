//! One call, many times. Each answers a sum over what came of the calls, so that none can be left out.

use crate::messages::octets::{QUERY, REPLY, TEXT, long_reply, unknown};
use anyhow::anyhow;
use dns_name::Name;
use dns_wire::{Asked, decode, encode, encode_lent, read_question};
use std::alloc::Global;
use std::cmp::Ordering;

fn added(sum: u32, number: usize) -> u32 {
    sum.wrapping_mul(31).wrapping_add((number % 65_536) as u32)
}

/// Messages from their octets.
pub fn decode_many(alloc: Global, octets: &[u8], count: u32) -> anyhow::Result<u32> {
    let mut sum = 0;
    for _ in 0..count {
        let message = decode(alloc, octets)?;
        sum = added(sum, message.answer.as_slice().len());
    }
    Ok(sum)
}

/// Messages as octets.
pub fn encode_many(alloc: Global, octets: &[u8], count: u32) -> anyhow::Result<u32> {
    let message = decode(alloc, octets)?;
    let mut sum = 0;
    for _ in 0..count {
        let out = encode(alloc, &message)?;
        sum = added(sum, out.len());
    }
    Ok(sum)
}

/// Replies whose records are lent.
pub fn encode_lent_many(
    alloc: Global,
    query: &[u8],
    octets: &[u8],
    count: u32,
) -> anyhow::Result<u32> {
    let Asked::Good(query) = read_question(alloc, query)? else {
        return Err(anyhow!("it is no query"));
    };
    let message = decode(alloc, octets)?;
    let mut sum = 0;
    for _ in 0..count {
        let out = encode_lent(
            Vec::new(alloc),
            &query,
            &message.head,
            &message.answer,
            &message.authority,
        )?;
        sum = added(sum, out.len());
    }
    Ok(sum)
}

/// What a query asks for.
pub fn read_question_many(alloc: Global, octets: &[u8], count: u32) -> anyhow::Result<u32> {
    let mut sum = 0;
    for _ in 0..count {
        match read_question(alloc, octets)? {
            Asked::Good(query) => sum = added(sum, usize::from(query.id)),
            Asked::Fault(_) => sum = added(sum, 1),
            Asked::Drop => sum = added(sum, 0),
        }
    }
    Ok(sum)
}

/// Names from text.
pub fn from_text_many(alloc: Global, text: &[u8], count: u32) -> anyhow::Result<u32> {
    let mut sum = 0;
    for _ in 0..count {
        let name = Name::from_text(alloc, text)?;
        sum = added(sum, name.wire_len());
    }
    Ok(sum)
}

/// Names as text.
pub fn to_text_many(alloc: Global, text: &[u8], count: u32) -> anyhow::Result<u32> {
    let name = Name::from_text(alloc, text)?;
    let mut sum = 0;
    for _ in 0..count {
        let out = name.to_text(alloc)?;
        sum = added(sum, out.len());
    }
    Ok(sum)
}

/// Names that are asked about in turn.
fn names(alloc: Global) -> anyhow::Result<[Name; 2]> {
    Ok([
        Name::from_text(alloc, b"www.example.to.")?,
        Name::from_text(alloc, b"mail.example.to.")?,
    ])
}

/// Whether a name is at or below a zone.
pub fn at_or_below_many(alloc: Global, count: u32) -> anyhow::Result<u32> {
    let names = names(alloc)?;
    let zone = Name::from_text(alloc, b"example.to.")?;
    let mut sum = 0;
    for _ in 0..count {
        // What is asked about hangs on the answer before.
        let name = if sum % 2 == 0 { &names[0] } else { &names[1] };
        sum = added(sum, usize::from(name.at_or_below(&zone)));
    }
    Ok(sum)
}

/// The order of two names.
pub fn compare_many(alloc: Global, count: u32) -> anyhow::Result<u32> {
    let names = names(alloc)?;
    let other = Name::from_text(alloc, b"ns.example.to.")?;
    let mut sum = 0;
    for _ in 0..count {
        let name = if sum % 2 == 0 { &names[0] } else { &names[1] };
        let told = match name.cmp(&other) {
            Ordering::Less => 1,
            Ordering::Equal => 2,
            Ordering::Greater => 3,
        };
        sum = added(sum, told);
    }
    Ok(sum)
}

/// The call of this name so many times.
pub fn make_many(alloc: Global, call: &str, count: u32) -> anyhow::Result<u32> {
    let query = unknown(alloc, QUERY, count)?;
    let reply = unknown(alloc, REPLY, count)?;
    let long = unknown(alloc, &long_reply(alloc)?, count)?;
    let text = unknown(alloc, TEXT, count)?;
    match call {
        "decode_query" => decode_many(alloc, &query, count),
        "decode_reply" => decode_many(alloc, &reply, count),
        "decode_long" => decode_many(alloc, &long, count),
        "encode_query" => encode_many(alloc, &query, count),
        "encode_reply" => encode_many(alloc, &reply, count),
        "encode_long" => encode_many(alloc, &long, count),
        "encode_lent" => encode_lent_many(alloc, &query, &reply, count),
        "read_question" => read_question_many(alloc, &query, count),
        "from_text" => from_text_many(alloc, &text, count),
        "to_text" => to_text_many(alloc, &text, count),
        "at_or_below" => at_or_below_many(alloc, count),
        "compare" => compare_many(alloc, count),
        _ => Err(anyhow!("there is no call of this name")),
    }
}
