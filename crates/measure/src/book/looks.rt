//! Looks of each kind, many times. A book that replays looks at all that it was given, so each book is asked few times.
ghost use Rattle.shared_book.specs.Fresh.{CanShare, IsKnownAs};

use crate::book::events::{admission, look, seen_in};
use crate::books::{empty_book, empty_books, give};
use anyhow::anyhow;
use dns_text::Shared;
use history::{Book, Event};
use shared_book::{Blank, CallLedger, Pass, SharedBook};
use std::alloc::Global;
use std::marker::Brand;
use std::sync::Wait;
use undo_book::PlainBook;

/// How often one book is asked.
const LOOKS: u32 = 16;

/// 1 for a look at which a book shows a find.
fn look_once<B: Book>(book: &mut B, event: &Event) -> anyhow::Result<u32> {
    let reply = book.step(event.copy()?)?;
    let seen = seen_in(&reply);
    drop(reply);
    Ok(seen)
}

/// Looks at a book that one caller has alone. It is any book, since the prover follows the drop of a certain one field by field.
fn alone_with<B: Book>(alloc: Global, mut book: B) -> anyhow::Result<u32> {
    let event = look(alloc)?;
    let admission = admission(alloc)?;
    give(&mut book, admission.get().copy()?)?;
    let mut seen = 0u32;
    for _ in 0..LOOKS {
        seen = seen.wrapping_add(look_once(&mut book, event.get())?);
    }
    Ok(seen)
}

fn alone(alloc: Global) -> anyhow::Result<u32> {
    alone_with(alloc, empty_book(alloc)?)
}

/// 1 for a call at which a shared book shows a find.
fn call_once<B: Book, L: CallLedger, R: Wait>(
    rt: &R,
    book: &SharedBook<B, L>,
    pass: &mut Pass<L>,
    event: Shared<Event>,
) -> anyhow::Result<u32> {
    let receipt = book.call(rt, pass, event)?;
    let seen = seen_in(&receipt.reply);
    drop(receipt);
    Ok(seen)
}

/// Looks through the lock, with a window of so many calls.
fn shared<B: Book, L: CallLedger, R: Wait>(
    rt: &R,
    alloc: Global,
    blank: Blank,
    book: B,
    opening: B,
    limit: u64,
) -> anyhow::Result<u32>
    requires known { IsKnownAs L.name L.parts L.limit L.settings blank limit (B.settings book) }
    requires books { CanShare B.stands_for B.settings book opening }
{
    let event = look(alloc)?;
    let (book, mut pass) = SharedBook::<B, L>::new(alloc, blank, book, opening, limit)?;
    call_once(rt, &book, &mut pass, admission(alloc)?)?;
    let mut seen = 0u32;
    for _ in 0..LOOKS {
        seen = seen.wrapping_add(call_once(rt, &book, &mut pass, event.share()?)?);
    }
    Ok(seen)
}

fn shared_as<R: Wait>(rt: &R, alloc: Global, limit: u64) -> anyhow::Result<u32> {
    let (book, opening) = empty_books(alloc)?;
    shared::<PlainBook, Brand, R>(rt, alloc, Blank::new(1), book, opening, limit)
}

/// Looks at one book.
fn some<R: Wait>(rt: &R, alloc: Global, call: &str) -> anyhow::Result<u32> {
    match call {
        "alone" => alone(alloc),
        "shared" => shared_as(rt, alloc, 1),
        "recorded" => shared_as(rt, alloc, 1_000),
        _ => Err(anyhow!("there is no such call")),
    }
}

/// So many looks, rounded up, and how many saw the set.
pub fn look_many<R: Wait>(rt: &R, alloc: Global, call: &str, count: u32) -> anyhow::Result<u32> {
    let mut seen = 0u32;
    for _ in 0..count.div_ceil(LOOKS) {
        seen = seen.wrapping_add(some(rt, alloc, call)?);
    }
    Ok(seen)
}
