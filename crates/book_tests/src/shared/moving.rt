//! A window of two calls, of four: two zones are set, the second is taken back, and the zones are looked up.
ghost use Rattle.shared_book.specs.Fresh.{CanShare, IsKnownAs};

use crate::checks::Checks;
use crate::events::four_about_zones;
use crate::handed::Handed;
use crate::new_books::plain_books;
use crate::shared::callers::call_all;
use crate::shared::closing::again;
use anyhow::anyhow;
use history::Book;
use local_zone::ZoneType;
use shared_book::{Blank, CallLedger, CloseFault, Kept, NotClosed, Receipt, SharedBook};
use std::alloc::Global;
use std::marker::Brand;
use std::sync::Wait;
use undo_book::PlainBook;

/// Which receipts are handed in.
#[derive(Clone, Copy, PartialEq, Eq)]
enum Case {
    All,
    ThirdAndFourth,
    FirstAndFourth,
    /// The third is replaced by a second fourth.
    FourthTwice,
}

/// Whether the receipt of a number is handed in.
fn is_handed_in(case: Case, number: u64) -> bool {
    match case {
        Case::All => true,
        Case::ThirdAndFourth => number >= 3,
        Case::FirstAndFourth => number == 1 || number == 4,
        Case::FourthTwice => number == 4,
    }
}

fn change(case: Case, receipts: &mut Vec<Receipt>) -> anyhow::Result<()> {
    receipts.retain(|receipt| is_handed_in(case, receipt.number));
    if case == Case::FourthTwice {
        let fourth = again(receipts.first().ok_or(anyhow!("no receipt"))?)?;
        receipts.push(fourth)?;
    }
    Ok(())
}

/// What closing tells, the numbers of the window's calls, and how many zones the opening book and the book have.
#[derive(PartialEq, Drop)]
struct Found {
    fault: Option<CloseFault>,
    numbers: (u64, u64),
    zones: (usize, usize),
}

fn told<B: Book, L: CallLedger>(
    fault: Option<CloseFault>,
    kept: &Kept<B, L>,
) -> anyhow::Result<Found> {
    let first = kept.window().front().ok_or(anyhow!("no call"))?.number;
    let last = kept.window().back().ok_or(anyhow!("no call"))?.number;
    let opened = kept.opening().zones().zones().len();
    Ok(Found {
        fault,
        numbers: (first, last),
        zones: (opened, kept.book().zones().zones().len()),
    })
}

fn closed<B: Book, L: CallLedger, R: Wait>(
    rt: &R,
    alloc: Global,
    blank: Blank,
    book: B,
    opening: B,
    case: Case,
) -> anyhow::Result<Found>
    requires known { IsKnownAs L.name L.parts L.limit L.settings blank 2 (B.settings book) }
    requires books { CanShare B.stands_for B.settings book opening }
{
    let (book, pass) = SharedBook::<B, L>::new(alloc, blank, book, opening, 2)?;
    let events = four_about_zones(alloc, ZoneType::Deny)?;
    let Handed { pass, mut receipts } = call_all(rt, alloc, &book, pass, events)?;
    change(case, &mut receipts)?;
    match book.close(vec![in alloc; pass]?, receipts) {
        Ok(kept) => told(None, &kept),
        Err(NotClosed { fault, kept }) => told(Some(fault), &kept),
    }
}

fn closed_as<R: Wait>(rt: &R, alloc: Global, case: Case) -> anyhow::Result<Found> {
    let (book, opening) = plain_books(alloc, 64, 100)?;
    closed::<PlainBook, Brand, R>(rt, alloc, Blank::new(1), book, opening, case)
}

/// Calls that the window has moved on past need no receipt. Those in it do.
pub fn a_window_moves_on<R: Wait>(
    rt: &R,
    checks: &mut Checks,
    alloc: Global,
) -> anyhow::Result<()> {
    let cases = [
        (Case::All, None),
        (Case::ThirdAndFourth, None),
        (Case::FirstAndFourth, Some(CloseFault::Missing { count: 1 })),
        (Case::FourthTwice, Some(CloseFault::Mismatch { number: 3 })),
    ];
    for (case, fault) in cases {
        let told = closed_as(rt, alloc, case)?;
        let expected = Found {
            fault,
            numbers: (3, 4),
            zones: (2, 1),
        };
        checks.that(told == expected);
    }
    Ok(())
}
