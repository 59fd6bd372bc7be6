//! Lookups of many names, in an order that jumps about.

use dns_name::Name;
use dns_text::types::A;
use dns_text::{Data, Question};
use history::{Book, Look};
use local_zone::{Local, LocalRecord, LocalSet};
use ranked::{Body, Held};
use std::alloc::Global;

/// How far apart two names are that are looked up in turn. It is a prime number, so each name has its turn.
const STEP: usize = 7_919;

/// The questions for the address of each name.
pub fn questions<F: FnMut(u32) -> anyhow::Result<String>>(
    alloc: Global,
    names: u32,
    mut owner: F,
) -> anyhow::Result<Vec<Question>>
    requires { F.IsAlwaysCallable owner }
{
    let mut questions = Vec::new(alloc);
    for place in 0..names {
        questions.push(question(alloc, &owner(place)?)?)?;
    }
    Ok(questions)
}

/// The question for the address of a name.
fn question(alloc: Global, owner: &String) -> anyhow::Result<Question> {
    Ok(Question {
        owner: Name::from_text(alloc, owner.as_str().as_bytes())?,
        kind: A,
    })
}

/// The last octet of an address.
fn last_octet(data: &Data) -> u32 {
    match data {
        Data::A([_, _, _, last]) => u32::from(*last),
        _ => 0,
    }
}

/// The rank, the seconds left and the last octet of the first address, in a sum.
fn held_number(held: Held) -> u32 {
    match &held.body.find().body {
        Body::Set(data) => held
            .left
            .wrapping_add(u32::from(held.rank.level()))
            .wrapping_add(data.as_slice().first().map_or(0, |data| last_octet(data))),
        _ => 0,
    }
}

/// The TTL and the last octet of the first address, in a sum.
fn local_number(local: Local<LocalSet<'_>, &LocalRecord>) -> u32 {
    match local {
        Local::Data(mut set) => match set.next() {
            Some(record) => record.ttl.seconds().wrapping_add(last_octet(record.body)),
            None => 0,
        },
        other => {
            drop(other);
            0
        }
    }
}

/// A number that depends on the data that a lookup shows.
fn number_of(look: Look) -> u32 {
    match look {
        Look::Unknown => 0,
        Look::Held(held) => held_number(held),
        Look::Local(local) => local_number(local),
    }
}

/// The next place, which is far from the last one.
fn place_after(place: usize, places: usize) -> usize {
    if places == 0 {
        0
    } else {
        place.wrapping_add(STEP) % places
    }
}

/// So many lookups, and a sum over what they show.
pub fn look_many<B: Book>(book: &B, questions: &[Question], count: u32) -> u32 {
    let mut sum = 0u32;
    let mut place = 0;
    for _ in 0..count {
        place = place_after(place, questions.len());
        if let Some(question) = questions.get(place) {
            sum = sum.wrapping_add(number_of(book.look(question, 0)));
        }
    }
    sum
}
