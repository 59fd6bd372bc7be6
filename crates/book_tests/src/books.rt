//! The plain book, by the calls and events that no line of a script makes.

use crate::checks::Checks;
use crate::finds::address;
use crate::new_books::plain_book;
use crate::outcome::{Outcome, give, outcome_of};
use dns_name::Name;
use dns_text::Question;
use history::{
    Ask, Book, Command, Event, Look, MOMENT_END, MOST_CELLS, MOST_COMMANDS, MakeFault, Reply,
    RunFault, Seen, StepFault, run,
};
use ranked::Rank;
use std::alloc::Global;

fn question(alloc: Global) -> anyhow::Result<Question> {
    Ok(Question {
        owner: Name::from_text(alloc, b"a.test")?,
        kind: 1,
    })
}

fn admit(alloc: Global, moment: u64, rank: Rank, ttl: u32) -> anyhow::Result<Event> {
    let find = address(alloc, b"a.test", rank, ttl)?;
    Ok(Event::Admit { moment, find })
}

fn flush(alloc: Global, moment: u64) -> anyhow::Result<Event> {
    let command = Command::FlushType(question(alloc)?);
    Ok(Event::Do { moment, command })
}

/// Admits a find.
fn admits<B: Book>(
    book: &mut B,
    alloc: Global,
    moment: u64,
    rank: Rank,
    ttl: u32,
) -> anyhow::Result<Outcome> {
    Ok(give(book, admit(alloc, moment, rank, ttl)?))
}

/// Flushes the cell of the question.
fn flushes<B: Book>(book: &mut B, alloc: Global, moment: u64) -> anyhow::Result<Outcome> {
    Ok(give(book, flush(alloc, moment)?))
}

fn undoes<B: Book>(book: &mut B, moment: u64) -> Outcome {
    give(book, Event::Undo { moment })
}

fn redoes<B: Book>(book: &mut B, moment: u64) -> Outcome {
    give(book, Event::Redo { moment })
}

/// The seconds that what is held of a question has left.
pub fn left<B: Book>(book: &B, asked: &Question, moment: u64) -> Option<u32> {
    let look = book.look(asked, moment);
    let left = match &look {
        Look::Held(shown) => Some(shown.left),
        _ => None,
    };
    drop(look);
    left
}

/// The journal and the cells have ranges.
pub fn settings_have_ranges(checks: &mut Checks, alloc: Global) -> anyhow::Result<()> {
    for (journal, cells) in [(1, 1), (MOST_COMMANDS, MOST_CELLS)] {
        checks.that(plain_book(alloc, journal, cells).err() == None);
    }
    for (journal, cells) in [(0, 1), (MOST_COMMANDS + 1, 1), (1, 0), (1, MOST_CELLS + 1)] {
        checks.that(plain_book(alloc, journal, cells).err() == Some(MakeFault::BadSettings));
    }
    Ok(())
}

/// An undo shows again what a flush hid, and a redo hides it.
fn put_back<B: Book>(checks: &mut Checks, alloc: Global, mut book: B) -> anyhow::Result<()> {
    let asked = question(alloc)?;
    checks.that(admits(&mut book, alloc, 0, Rank::AuthoritativeAnswer, 60)? == Outcome::Taken);
    checks.that(flushes(&mut book, alloc, 1)? == Outcome::Done(1));
    checks.that(left(&book, &asked, 1) == None);
    checks.that(undoes(&mut book, 1) == Outcome::Undone(1));
    checks.that(left(&book, &asked, 1) == Some(59));
    checks.that(redoes(&mut book, 1) == Outcome::Redone(1));
    checks.that(left(&book, &asked, 1) == None);
    Ok(())
}

/// A redo hides again what its undo showed.
pub fn redo_puts_back(checks: &mut Checks, alloc: Global) -> anyhow::Result<()> {
    put_back(checks, alloc, plain_book(alloc, 64, 100)?)
}

fn no_redo<B: Book>(checks: &mut Checks, alloc: Global, mut book: B) -> anyhow::Result<()> {
    checks.that(redoes(&mut book, 0) == Outcome::NothingToRedo);
    checks.that(flushes(&mut book, alloc, 0)? == Outcome::Done(1));
    checks.that(undoes(&mut book, 0) == Outcome::Undone(1));
    checks.that(flushes(&mut book, alloc, 0)? == Outcome::Done(2));
    checks.that(redoes(&mut book, 0) == Outcome::NothingToRedo);
    checks.that(undoes(&mut book, 0) == Outcome::Undone(2));
    Ok(())
}

/// A new command leaves nothing to redo.
pub fn nothing_to_redo(checks: &mut Checks, alloc: Global) -> anyhow::Result<()> {
    no_redo(checks, alloc, plain_book(alloc, 64, 100)?)
}

/// Whether a lookup sees nothing.
fn is_unknown<B: Book>(book: &B, ask: &Ask, moment: u64) -> anyhow::Result<bool> {
    let seen = book.seen(ask, moment)?;
    let is_unknown = matches!(&seen, Seen::Unknown);
    drop(seen);
    Ok(is_unknown)
}

/// What was admitted at the moment 5 is alive to the moment 14, and earlier moments count as 5.
fn looks<B: Book>(
    checks: &mut Checks,
    asked: &Question,
    ask: &Ask,
    book: &B,
) -> anyhow::Result<()> {
    checks.that(left(book, asked, u64::MAX) == None);
    checks.that(left(book, asked, 0) == Some(9));
    checks.that(is_unknown(book, ask, u64::MAX)?);
    checks.that(!is_unknown(book, ask, 0)?);
    Ok(())
}

fn admit_and_look<B: Book>(checks: &mut Checks, alloc: Global, mut book: B) -> anyhow::Result<()> {
    let asked = question(alloc)?;
    let ask = Ask::Answer(question(alloc)?);
    let outcome = admits(&mut book, alloc, 5, Rank::AuthoritativeAnswer, 9)?;
    checks.that(outcome == Outcome::Taken);
    looks(checks, &asked, &ask, &book)
}

/// Looks from outside read every moment, and move no clock.
pub fn looks_take_every_moment(checks: &mut Checks, alloc: Global) -> anyhow::Result<()> {
    admit_and_look(checks, alloc, plain_book(alloc, 64, 100)?)
}

fn filled<B: Book>(checks: &mut Checks, alloc: Global, mut book: B) -> anyhow::Result<()> {
    let first = admits(&mut book, alloc, 0, Rank::AuthoritativeAnswer, 60)?;
    checks.that(first == Outcome::Taken);
    let second = admits(&mut book, alloc, 0, Rank::Answer, 60)?;
    checks.that(second == Outcome::Outranked);
    let third = admits(&mut book, alloc, 0, Rank::AuthoritativeAnswer, 60)?;
    checks.that(third == Outcome::Fault(StepFault::Full { stored: 2 }));
    checks.that(book.stored() == 2);
    Ok(())
}

/// What is outranked is stored too, and what meets a fault is not.
pub fn stored_counts(checks: &mut Checks, alloc: Global) -> anyhow::Result<()> {
    filled(checks, alloc, plain_book(alloc, 64, 2)?)
}

/// A flush, an undo at a moment that no book takes, and another undo.
fn late_events(alloc: Global) -> anyhow::Result<Vec<Event>> {
    let late = Event::Undo { moment: MOMENT_END };
    Ok(vec![in alloc; flush(alloc, 0)?, late, Event::Undo { moment: 0 }]?)
}

/// The first reply without its data.
fn first_outcome(replies: &[Reply]) -> Outcome {
    match replies.first() {
        Some(reply) => outcome_of(reply),
        None => Outcome::Other,
    }
}

fn stopped<B: Book>(checks: &mut Checks, alloc: Global, mut book: B) -> anyhow::Result<()> {
    let events = late_events(alloc)?;
    let mut replies = Vec::new(alloc);
    let stopped = run(&mut book, events, &mut replies);
    checks.that(stopped == Err(RunFault::Step(StepFault::BadMoment)));
    checks.that(replies.len() == 1);
    checks.that(first_outcome(replies.as_slice()) == Outcome::Done(1));
    Ok(())
}

/// The replies before a fault are there, and what comes after it is not taken.
pub fn run_stops_at_a_fault(checks: &mut Checks, alloc: Global) -> anyhow::Result<()> {
    stopped(checks, alloc, plain_book(alloc, 64, 100)?)
}
