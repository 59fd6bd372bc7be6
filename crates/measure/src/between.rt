//! The name to forget first of a shared book, after another caller moved its clock between a sweep and the look.
ghost use Rattle.shared_book.specs.Fresh.{CanShare, IsKnownAs};

use crate::books::{find_in, shelves_of};
use anyhow::anyhow;
use dns_name::Name;
use dns_text::Shared;
use dns_text::types::A;
use history::{Ask, Book, Event, Reply, Seen};
use shared_book::{Blank, CallLedger, Pass, SharedBook};
use std::alloc::Global;
use std::marker::Brand;
use std::sync::Wait;
use undo_book::ShelfBook;

/// The second in which half of the names end. The others end an hour later.
const END: u32 = 60;

/// When the look is made: at the clock of the book, as by a task, or at the second in which half of the names end.
#[derive(Clone, Copy)]
pub enum At {
    Clock,
    End,
}

/// A look at a question, or at the name to forget first.
fn look(alloc: Global, moment: u64, ask: Ask) -> anyhow::Result<Shared<Event>> {
    Ok(Shared::new(alloc, Event::Look { moment, ask })?)
}

/// A question about a name.
fn address_of(alloc: Global, owner: &[u8]) -> anyhow::Result<Ask> {
    let question = dns_text::Question {
        owner: Name::from_text(alloc, owner)?,
        kind: A,
    };
    Ok(Ask::Answer(question))
}

/// An admission of a name, at the first second.
fn admission(alloc: Global, place: u32) -> anyhow::Result<Shared<Event>> {
    let [_, high, middle, low] = place.to_be_bytes();
    let ttl = if place % 2 == 0 { END } else { END + 3_600 };
    let text = format!(in alloc; "n{place}.test {ttl} A 192.{high}.{middle}.{low}")?;
    let find = find_in(alloc, text.as_str().as_bytes())?;
    Ok(Shared::new(alloc, Event::Admit { moment: 0, find })?)
}

/// 1 for a reply that tells a name.
fn named(reply: &Reply) -> u32 {
    match reply {
        Reply::Seen(Seen::Oldest(Some(_))) => 1,
        _ => 0,
    }
}

/// Fills a book, sweeps it, lets another caller move its clock to the second in which half of the names end, if the look is to be at the
/// clock, and asks for the name to forget first.
fn ask_between<B: Book, L: CallLedger, R: Wait>(
    rt: &R,
    alloc: Global,
    book: &SharedBook<B, L>,
    pass: &mut Pass<L>,
    other: &mut Pass<L>,
    names: u32,
    at: At,
) -> anyhow::Result<u32> {
    for place in 0..names {
        drop(book.call(rt, pass, admission(alloc, place)?)?);
    }
    let sweep = Shared::new(alloc, Event::Sweep { moment: 0 })?;
    drop(book.call(rt, pass, sweep)?);
    let (moved, moment) = match at {
        At::Clock => (u64::from(END), 0),
        At::End => (0, u64::from(END)),
    };
    drop(book.call(
        rt,
        other,
        look(alloc, moved, address_of(alloc, b"n1.test")?)?,
    )?);
    let receipt = book.call(rt, pass, look(alloc, moment, Ask::Oldest)?)?;
    let told = named(&receipt.reply);
    drop(receipt);
    Ok(told)
}

/// The same with a new book, whose call log has one call.
fn between_with<B: Book, L: CallLedger, R: Wait>(
    rt: &R,
    alloc: Global,
    blank: Blank,
    book: B,
    opening: B,
    names: u32,
    at: At,
) -> anyhow::Result<u32>
    requires known { IsKnownAs L.name L.parts L.limit L.settings blank 1 (B.settings book) }
    requires books { CanShare B.stands_for B.settings book opening }
{
    let (book, mut pass) = SharedBook::<B, L>::new(alloc, blank, book, opening, 1)?;
    let mut other = book.split(rt, &mut pass)?;
    ask_between(rt, alloc, &book, &mut pass, &mut other, names, at)
}

fn between<R: Wait>(rt: &R, alloc: Global, names: u32, at: At) -> anyhow::Result<u32> {
    let (book, opening) = shelves_of(alloc, names as usize)?;
    between_with::<ShelfBook, Brand, R>(rt, alloc, Blank::new(2), book, opening, names, at)
}

/// Does so with so many books, and returns how often a name was told.
pub fn ask_many<R: Wait>(
    rt: &R,
    alloc: Global,
    names: u32,
    at: At,
    count: u32,
) -> anyhow::Result<u32> {
    let mut sum = 0u32;
    for _ in 0..count {
        sum = sum.wrapping_add(between(rt, alloc, names, at)?);
    }
    Ok(sum)
}
