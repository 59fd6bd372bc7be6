//! A sweep in turns, after a flush has gone: what callers see of the names that then wait for a visit, whether the flush covers them or not.

ghost use Rattle.std.specs.Prelude.{◌≡◌};
ghost use Rattle.shelf.specs.Told.{IsShelf};

use crate::books::left;
use crate::checks::Checks;
use crate::finds::{address, letters};
use crate::new_books::shelf_book;
use crate::outcome::{Outcome, give};
use anyhow::anyhow;
use dns_name::Name;
use dns_text::{Question, types};
use history::{Ask, Book, Command, Event, Seen, StepFault};
use ranked::{Flush, Rank, Reach};
use shelf::{Shelf, StoreFault};
use std::alloc::Global;

/// The place of the name that expires first. A turn comes to it after 256 names that wait for a visit.
const SHORT: u16 = 254;

/// Caches the addresses of 301 names, of which one lives for 60 seconds.
fn fill(alloc: Global, shelf: &mut Shelf) -> anyhow::Result<()>
    requires { IsShelf shelf.old }
    ensures whole { IsShelf shelf.new }
    ensures top { shelf.new.top ≡ shelf.old.top }
{
    for number in 0..301u16 {
        let ttl = if number == SHORT { 60 } else { 1_000 };
        shelf.admit(address(alloc, &letters(number), Rank::Answer, ttl)?, 0)?;
    }
    Ok(())
}

/// Caches the others again with a lower rank.
fn mix(alloc: Global, shelf: &mut Shelf) -> anyhow::Result<()>
    requires { IsShelf shelf.old }
    ensures whole { IsShelf shelf.new }
    ensures top { shelf.new.top ≡ shelf.old.top }
{
    for number in 0..301u16 {
        if number != SHORT {
            shelf.admit(address(alloc, &letters(number), Rank::Additional, 900)?, 0)?;
        }
    }
    Ok(())
}

/// Caches 301 names, of which 300 have another version since a flush of everything.
fn fill_and_mix(alloc: Global, shelf: &mut Shelf) -> anyhow::Result<()>
    requires whole { IsShelf shelf.old }
    requires newest { shelf.old.top ≡ 0 }
    ensures whole { IsShelf shelf.new }
{
    fill(alloc, shelf)?;
    let flush = Flush {
        name: Name::root(alloc),
        reach: Reach::Zone,
    };
    shelf.open_flush(flush, 1)?;
    mix(alloc, shelf)?;
    shelf.sweep(0);
    Ok(())
}

/// A turn that ends the rest of the names in doubt, one that visits 256 of them, of which nothing can be freed, and an admission after it.
fn turn(checks: &mut Checks, alloc: Global, shelf: &mut Shelf) -> anyhow::Result<()>
    requires { IsShelf shelf.old }
{
    checks.that(shelf.sweep_some(60));
    checks.that(shelf.sweep_some(60));
    checks.that(shelf.stored() == 301);
    let other = shelf.admit(address(alloc, b"new.test", Rank::Answer, 60)?, 60);
    checks.that(matches!(other, Err(StoreFault::Full { stored: 301 })));
    checks.that(!shelf.sweep_some(60));
    checks.that(shelf.stored() == 300);
    Ok(())
}

fn flush_of_another_name(
    checks: &mut Checks,
    alloc: Global,
    shelf: &mut Shelf,
) -> anyhow::Result<()>
    requires whole { IsShelf shelf.old }
    requires newest { shelf.old.top ≡ 0 }
{
    fill_and_mix(alloc, shelf)?;
    let flush = Flush {
        name: Name::from_text(alloc, b"zz.test")?,
        reach: Reach::OneType(types::A),
    };
    let number = shelf.top.checked_add(1).ok_or(anyhow!("no number"))?;
    shelf.open_flush(flush, number)?;
    shelf.settle(number);
    turn(checks, alloc, shelf)
}

/// A flush that is dropped has each name with several versions visited, also if it covers none of them.
pub fn a_flush_that_is_dropped_fills_a_turn(
    checks: &mut Checks,
    alloc: Global,
) -> anyhow::Result<()> {
    flush_of_another_name(checks, alloc, &mut Shelf::new(alloc, 301))
}

fn no_flush(checks: &mut Checks, alloc: Global, shelf: &mut Shelf) -> anyhow::Result<()>
    requires whole { IsShelf shelf.old }
    requires newest { shelf.old.top ≡ 0 }
{
    fill_and_mix(alloc, shelf)?;
    shelf.settle(2);
    checks.that(!shelf.sweep_some(60));
    checks.that(shelf.stored() == 300);
    Ok(())
}

/// A number of which no flush is kept leaves no name in doubt.
pub fn a_number_that_is_not_kept_leaves_no_name_in_doubt(
    checks: &mut Checks,
    alloc: Global,
) -> anyhow::Result<()> {
    no_flush(checks, alloc, &mut Shelf::new(alloc, 301))
}

fn admits<B: Book>(
    book: &mut B,
    alloc: Global,
    moment: u64,
    owner: &[u8],
    rank: Rank,
    ttl: u32,
) -> anyhow::Result<Outcome> {
    let find = address(alloc, owner, rank, ttl)?;
    Ok(give(book, Event::Admit { moment, find }))
}

fn flushes<B: Book>(
    book: &mut B,
    alloc: Global,
    moment: u64,
    zone: &[u8],
) -> anyhow::Result<Outcome> {
    let name = Name::from_text(alloc, zone)?;
    let command = Command::FlushZone { name };
    Ok(give(book, Event::Do { moment, command }))
}

/// Caches 281 names, of which 280 have another version since a flush of everything. The other one lives for 10 seconds.
fn fill_book<B: Book>(book: &mut B, alloc: Global) -> anyhow::Result<()> {
    for number in 0..280u16 {
        if number == SHORT {
            admits(book, alloc, 0, b"x.test", Rank::AuthoritativeAnswer, 10)?;
        }
        admits(
            book,
            alloc,
            0,
            &letters(number),
            Rank::AuthoritativeAnswer,
            1_000,
        )?;
    }
    flushes(book, alloc, 0, b".")?;
    for number in 0..280u16 {
        admits(book, alloc, 0, &letters(number), Rank::Answer, 900)?;
    }
    give(book, Event::Sweep { moment: 0 });
    Ok(())
}

/// The address of `aa`.
fn address_of_first(alloc: Global) -> anyhow::Result<Question> {
    Ok(Question {
        owner: Name::from_text(alloc, b"aa")?,
        kind: types::A,
    })
}

/// Whether `aa` is the name to forget first.
fn is_first<B: Book>(book: &B, alloc: Global, moment: u64) -> anyhow::Result<bool> {
    let first = Name::from_text(alloc, b"aa")?;
    let seen = book.seen(&Ask::Oldest, moment)?;
    let is_first = match &seen {
        Seen::Oldest(Some(name)) => *name == first,
        _ => false,
    };
    drop(seen);
    Ok(is_first)
}

/// Drops an undone flush by a later one, and sweeps for one turn.
fn drop_flush<B: Book>(checks: &mut Checks, alloc: Global, book: &mut B) -> anyhow::Result<()> {
    checks.that(flushes(book, alloc, 0, b"other.test")? == Outcome::Done(2));
    checks.that(give(book, Event::Undo { moment: 20 }) == Outcome::Undone(2));
    checks.that(flushes(book, alloc, 20, b"another.test")? == Outcome::Done(3));
    checks.that(book.sweep_some());
    checks.that(book.stored() == 281);
    Ok(())
}

/// Forgets the name to forget first, to make room.
fn make_room<B: Book>(checks: &mut Checks, alloc: Global, book: &mut B) -> anyhow::Result<()> {
    let full = Outcome::Fault(StepFault::Full { stored: 281 });
    let asked = address_of_first(alloc)?;
    checks.that(admits(book, alloc, 20, b"y.test", Rank::Answer, 60)? == full);
    checks.that(is_first(book, alloc, 20)?);
    checks.that(left(book, &asked, 20) == Some(880));
    let owner = Name::from_text(alloc, b"aa")?;
    give(book, Event::Forget { moment: 20, owner });
    checks.that(admits(book, alloc, 20, b"y.test", Rank::Answer, 60)? == Outcome::Taken);
    checks.that(left(book, &asked, 20) == None);
    Ok(())
}

fn full_between_turns<B: Book>(
    checks: &mut Checks,
    alloc: Global,
    mut book: B,
) -> anyhow::Result<()> {
    fill_book(&mut book, alloc)?;
    drop_flush(checks, alloc, &mut book)?;
    make_room(checks, alloc, &mut book)
}

/// Between two turns the book is full, since the turn visited other names than the one that has expired.
pub fn a_book_is_full_between_turns(checks: &mut Checks, alloc: Global) -> anyhow::Result<()> {
    full_between_turns(checks, alloc, shelf_book(alloc, 64, 281)?)
}
