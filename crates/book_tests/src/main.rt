//! Tests of finds, cells and books, by calls that no line of a script makes, and random calls of books. With the argument `tests` the
//! program runs the tests alone. Each says how many checks it made; a test that fails is named on standard error, and then the program
//! fails. Only a test, or a function over any book, owns a book. All others borrow it, so that no early return drops it, since the prover
//! follows each drop field by field.
//!
//! With no argument come next eight callers, in threads of their own, who make drawn calls of every kind on a shared book, each a drawn
//! number of them, with passes that are split before and joined after. The events of their receipts are given to a fresh book, whose
//! replies are counted where they are those of the receipts, and the book is closed with the receipts. That is done with 40 books, whose
//! windows have 1, 2, 4 and 1,000 calls. Each window moves on by its length or more.
//!
//! Then 21 pairs of a book that replays and a book that keeps no history are given 10,000 drawn events each, with journals of
//! 1, 3 and 64 commands, and the events to which both reply the same are counted. Every other pair is swept after each event. The
//! arguments `pairs N EVENTS` do that with N pairs for each journal and so many events, and with nothing else.
//!
//! For tests/cli_memory.py: with the argument `steps` one caller makes such calls of a book that lies under no lock. With `threads
//! plain` and `threads shelf` two callers, in threads of their own, call a book that replays or one that keeps no history, and with
//! `steps two` one caller makes their calls. With `steps moving` one caller makes four calls of a book whose window has two.
#![tactic(auto)]

ghost use Rattle.shared_book.specs.Fresh.{CanShare, IsKnownAs};

mod checks; // what the checks of tests find
mod finds; // finds of one record
mod new_books; // new books, and opening books to them
mod outcome; // the reply of a book, without its data
mod stop; // the end of a drawn run
mod handed; // what a caller hands in
mod events; // events for callers of a shared book
mod cells; // tests: finds and cells at their edges
mod ends; // tests: a tree of moments
mod shelves; // tests: the cache without a history
mod oldest; // tests: the name to forget first
mod turns; // tests: a sweep in turns, after a flush has gone
mod drawn; // tests: drawn calls to two caches, one of which is swept whole
mod books; // tests: the plain book
mod shared; // tests: one book for two callers
mod all_tests; // every test, in the order in which they run
mod drawn_calls; // drawn calls of books

use all_tests::run_tests;
use dns_text::Shared;
use drawn_calls::both::both;
use drawn_calls::callers::eight;
use drawn_calls::in_threads::two_threads;
use drawn_calls::replayed::{CELLS, Closing, JOURNAL, closed};
use drawn_calls::steps::{MOVING, RECORDED, drawn_events, steps};
use events::{four_about_zones, of_both};
use history::{Book, Event};
use local_zone::ZoneType;
use new_books::{plain_books, shelf_books};
use shared_book::{Blank, CallLedger, SharedBook};
use std::alloc::Global;
use std::marker::Brand;
use std::sync::Wait;
use std::thread::Threads;
use std::{env, io};
use stop::Stop;
use undo_book::{PlainBook, ShelfBook};

/// What closing a book comes to, whose window can have so many calls. None if it is not closed.
fn one_book<B: Book + Send + Sync, L: CallLedger + Send + Sync, R: Threads + Wait + Sync>(
    rt: &R,
    alloc: Global,
    blank: Blank,
    book: B,
    opening: B,
    limit: u64,
    seed: u64,
) -> Result<Option<Closing>, Stop>
    requires known { IsKnownAs L.name L.parts L.limit L.settings blank limit (B.settings book) }
    requires books { CanShare B.stands_for B.settings book opening }
{
    let Ok((shared, pass)) = SharedBook::<B, L>::new(alloc, blank, book, opening, limit) else {
        return Err(Stop);
    };
    let handed = eight(rt, alloc, &shared, pass, limit, seed)?;
    closed(alloc, shared, handed)
}

fn one_book_as<R: Threads + Wait + Sync>(
    rt: &R,
    alloc: Global,
    limit: u64,
    seed: u64,
) -> Result<Option<Closing>, Stop> {
    let Ok((book, opening)) = plain_books(alloc, JOURNAL, CELLS) else {
        return Err(Stop);
    };
    one_book::<PlainBook, Brand, R>(rt, alloc, Blank::new(1 << 10), book, opening, limit, seed)
}

/// The calls that the windows can have.
const WINDOWS: [u64; 4] = [1, 2, 4, 1_000];

fn called_by_eight<R: Print + Threads + Wait + Sync>(rt: &R, alloc: Global) -> io::Result<()> {
    let mut windows = 0u64;
    let mut moved = 0u64;
    let mut same = 0u64;
    for limit in WINDOWS {
        for seed in 0..10u64 {
            if let Ok(Some(closed)) = one_book_as(rt, alloc, limit, seed ^ limit << 8) {
                if closed.recorded == closed.calls.min(limit as usize) {
                    windows = windows.wrapping_add(1);
                }
                if closed.behind >= limit {
                    moved = moved.wrapping_add(1);
                }
                if closed.alike == closed.calls {
                    same = same.wrapping_add(1);
                }
            }
        }
    }
    println!(rt;
        "books closed with the last calls in their windows {}",
        windows
    )?;
    println!(rt;
        "books whose windows moved on by their length or more {}",
        moved
    )?;
    println!(rt; "books whose replies a fresh book repeats {}", same)
}

/// How long the journals of the compared books are.
const JOURNALS: [usize; 3] = [1, 3, 64];

/// Compares so many pairs of books for each length of a journal, over so many events each.
fn compared<R: Print>(rt: &R, alloc: Global, pairs: u64, events: u64) -> io::Result<()> {
    let mut given = 0u64;
    let mut same = 0u64;
    for journal in JOURNALS {
        for seed in 0..pairs {
            if let Ok(alike) = both(alloc, seed, journal, events) {
                given = given.wrapping_add(events);
                same = same.wrapping_add(alike);
            }
        }
    }
    println!(rt; "events {}, both books replied alike {}", given, same)
}

fn steps_as<R: Print>(
    rt: &R,
    alloc: Global,
    limit: u64,
    events: Vec<Shared<Event>>,
) -> Result<(), Stop> {
    let Ok((book, opening)) = plain_books(alloc, JOURNAL, CELLS) else {
        return Err(Stop);
    };
    steps::<PlainBook, Brand, R>(rt, alloc, Blank::new(1), book, opening, limit, events)
}

/// The two callers of a book that replays its history.
fn of_plain<R: Print + Threads + Wait + Sync>(rt: &R, alloc: Global) -> Result<(), Stop> {
    let Ok((book, opening)) = plain_books(alloc, JOURNAL, CELLS) else {
        return Err(Stop);
    };
    two_threads::<PlainBook, Brand, R>(rt, alloc, Blank::new(2), book, opening)
}

/// The two callers of a book that keeps no history.
fn of_shelf<R: Print + Threads + Wait + Sync>(rt: &R, alloc: Global) -> Result<(), Stop> {
    let Ok((book, opening)) = shelf_books(alloc, JOURNAL, CELLS) else {
        return Err(Stop);
    };
    two_threads::<ShelfBook, Brand, R>(rt, alloc, Blank::new(2), book, opening)
}

fn main(rt: HostRuntime) -> anyhow::Result<()> {
    let words: Vec<String> = env::args(&rt)?.collect(rt.alloc())?;
    match words.as_slice() {
        [_, word] if word.as_str() == "tests" => run_tests(&rt, rt.alloc()),
        [_, word] if word.as_str() == "steps" => {
            let events = drawn_events(rt.alloc())?;
            Ok(steps_as(&rt, rt.alloc(), RECORDED, events)?)
        }
        [_, word, which] if word.as_str() == "steps" && which.as_str() == "two" => {
            let events = of_both(rt.alloc())?;
            Ok(steps_as(&rt, rt.alloc(), RECORDED, events)?)
        }
        [_, word, which] if word.as_str() == "steps" && which.as_str() == "moving" => {
            let events = four_about_zones(rt.alloc(), ZoneType::Static)?;
            Ok(steps_as(&rt, rt.alloc(), MOVING, events)?)
        }
        [_, word, which] if word.as_str() == "threads" && which.as_str() == "plain" => {
            Ok(of_plain(&rt, rt.alloc())?)
        }
        [_, word, which] if word.as_str() == "threads" && which.as_str() == "shelf" => {
            Ok(of_shelf(&rt, rt.alloc())?)
        }
        [_, word, pairs, events] if word.as_str() == "pairs" => {
            let pairs: u64 = pairs.as_str().parse()?;
            let events: u64 = events.as_str().parse()?;
            Ok(compared(&rt, rt.alloc(), pairs, events)?)
        }
        _ => {
            run_tests(&rt, rt.alloc())?;
            called_by_eight(&rt, rt.alloc())?;
            Ok(compared(&rt, rt.alloc(), 7, 10_000)?)
        }
    }
}
