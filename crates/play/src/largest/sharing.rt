//! A book that workers share, and an operator after them.
ghost use Rattle.shared_book.specs.Fresh.{CanShare, IsKnownAs};
ghost use Rattle.shared_book.specs.declared.kept.TheConstants.{MOST_RECORDED};

use crate::largest::largest_books;
use crate::largest::workers::{Told, Worker, run_all, work, workers_for};
use crate::serve::serving::tell_octets;
use crate::stop::Stop;
use crate::words::pieces_in;
use history::Book;
use shared_book::{Blank, CallLedger, MOST_RECORDED, Pass, SharedBook};
use std::marker::Brand;
use std::sync::Wait;
use std::thread::Threads;
use undo_book::ShelfBook;

/// The parts of the first pass: enough to halve them once for each worker.
const PARTS: u64 = 1 << 32;

/// Writes the replies to each worker.
fn tell_all(rt: &HostRuntime, all: Vec<Told>) -> Result<(), Stop> {
    for told in all {
        let text = told?;
        tell_octets(rt, b"wrote", text.as_slice())?;
    }
    Ok(())
}

/// Runs a worker for each text, and then obeys the last text.
fn work_all<B: Book + Send, L: CallLedger + Send + Sync, W: Threads + Wait + Sync>(
    rt: &HostRuntime,
    waiting: &W,
    book: &SharedBook<B, L>,
    mut pass: Pass<L>,
    texts: Vec<Vec<u8>>,
    last: Vec<u8>,
) -> Result<(), Stop> {
    let workers = workers_for(waiting, rt.alloc(), book, &mut pass, texts)?;
    tell_all(rt, run_all(waiting, rt.alloc(), book, workers)?)?;
    let text = work(waiting, rt.alloc(), book, Worker { pass, text: last })?;
    tell_octets(rt, b"wrote", text.as_slice())
}

/// Shares a book among workers, with the longest window.
fn share<B: Book + Send, L: CallLedger + Send + Sync, W: Threads + Wait + Sync>(
    rt: &HostRuntime,
    waiting: &W,
    blank: Blank,
    book: B,
    opening: B,
    texts: Vec<Vec<u8>>,
    last: Vec<u8>,
) -> Result<(), Stop>
    requires known { IsKnownAs L.name L.parts L.limit L.settings blank MOST_RECORDED (B.settings book) }
    requires books { CanShare B.stands_for B.settings book opening }
{
    let made = SharedBook::<B, L>::new(rt.alloc(), blank, book, opening, MOST_RECORDED);
    let Ok((shared, pass)) = made else {
        return Err(Stop::NoMemory);
    };
    let done = work_all(rt, waiting, &shared, pass, texts, last);
    drop(shared);
    done
}

/// Shares a book of the largest settings.
fn share_largest<W: Threads + Wait + Sync>(
    rt: &HostRuntime,
    waiting: &W,
    texts: Vec<Vec<u8>>,
    last: Vec<u8>,
) -> Result<(), Stop> {
    let (book, opening) = largest_books(rt.alloc())?;
    share::<ShelfBook, Brand, W>(rt, waiting, Blank::new(PARTS), book, opening, texts, last)
}

/// Shares a book of the largest settings among workers, one for each text but the last.
pub fn work_in_threads<W: Threads + Wait + Sync>(
    rt: &HostRuntime,
    waiting: &W,
    text: &[u8],
) -> Result<(), Stop> {
    let mut texts = pieces_in(rt.alloc(), text)?;
    match texts.pop() {
        Some(last) => share_largest(rt, waiting, texts, last),
        None => Err(Stop::Device),
    }
}
