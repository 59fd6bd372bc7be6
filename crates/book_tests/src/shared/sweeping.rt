//! Sweeps of a shared book. They are done in turns: a worker's ends as soon as there is room, an operator's when nothing is left.
ghost use Rattle.shared_book.specs.Fresh.{CanShare, IsKnownAs};

use crate::checks::Checks;
use crate::finds::{address, letters};
use crate::new_books::shelf_books;
use history::{Book, Desk, Event, Reply};
use ranked::Rank;
use shared_book::{Blank, CallLedger, Seat, SharedBook};
use std::alloc::Global;
use std::marker::Brand;
use std::sync::Wait;
use undo_book::ShelfBook;

/// The names for which there is room. A turn visits 256.
const ROOM: u16 = 300;

/// Admits an address of each of as many names as there is room for, each for a minute. Returns how many were taken.
fn fill<D: Desk>(alloc: Global, desk: &mut D, moment: u64, first: u16) -> anyhow::Result<u32> {
    let mut taken = 0u32;
    for place in 0..ROOM {
        let owner = letters(first.wrapping_add(place));
        let find = address(alloc, &owner, Rank::Answer, 60)?;
        match desk.call(Event::Admit { moment, find }) {
            Ok(Reply::Taken) => taken = taken.wrapping_add(1),
            other => drop(other),
        }
    }
    Ok(taken)
}

/// Fills a book, sweeps it once all has expired, and fills it again. Returns how many names had room then.
fn refill<D: Desk + Drop>(alloc: Global, mut desk: D) -> anyhow::Result<u32> {
    fill(alloc, &mut desk, 0, 0)?;
    drop(desk.call(Event::Sweep { moment: 60 }));
    fill(alloc, &mut desk, 60, ROOM)
}

fn refilled<B: Book, L: CallLedger, R: Wait>(
    rt: &R,
    alloc: Global,
    blank: Blank,
    book: B,
    opening: B,
    is_thorough: bool,
) -> anyhow::Result<u32>
    requires known { IsKnownAs L.name L.parts L.limit L.settings blank 10 (B.settings book) }
    requires books { CanShare B.stands_for B.settings book opening }
{
    let (book, pass) = SharedBook::<B, L>::new(alloc, blank, book, opening, 10)?;
    if is_thorough {
        return refill(alloc, Seat::thorough(rt, &book, pass));
    }
    refill(alloc, Seat::new(rt, &book, pass))
}

fn refilled_shelf<R: Wait>(rt: &R, alloc: Global, is_thorough: bool) -> anyhow::Result<u32> {
    let (book, opening) = shelf_books(alloc, 64, usize::from(ROOM))?;
    refilled::<ShelfBook, Brand, R>(rt, alloc, Blank::new(1), book, opening, is_thorough)
}

/// A worker's sweep ends as soon as there is room.
pub fn a_worker_sweeps_until_there_is_room<R: Wait>(
    rt: &R,
    checks: &mut Checks,
    alloc: Global,
) -> anyhow::Result<()> {
    checks.that(refilled_shelf(rt, alloc, false)? == 256);
    Ok(())
}

/// An operator's sweep ends when nothing is left.
pub fn an_operator_sweeps_everything<R: Wait>(
    rt: &R,
    checks: &mut Checks,
    alloc: Global,
) -> anyhow::Result<()> {
    checks.that(refilled_shelf(rt, alloc, true)? == u32::from(ROOM));
    Ok(())
}
