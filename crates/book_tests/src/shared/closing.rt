//! Closing with what two callers hand in, whole and with something wrong.
ghost use Rattle.shared_book.specs.Fresh.{CanShare, IsKnownAs};

use crate::checks::Checks;
use crate::events::{of_the_first, of_the_second};
use crate::handed::{Handed, with_receipts};
use crate::new_books::plain_books;
use crate::outcome::{Outcome, outcome_of};
use crate::shared::callers::{are_told, both};
use anyhow::anyhow;
use history::{Book, Reply};
use shared_book::{Blank, CallLedger, CloseFault, Kept, NotClosed, Pass, Receipt, SharedBook};
use std::alloc::Global;
use std::marker::Brand;
use std::sync::Wait;
use std::thread::Threads;
use undo_book::PlainBook;

/// What is done to the six receipts before they are handed in.
#[derive(Clone, Copy, PartialEq, Eq)]
enum Case {
    /// Nothing; those of the second caller come after those of the first.
    Whole,
    /// They are the other way round.
    Reversed,
    OneLess,
    /// Receipt 4 is replaced by a second receipt 3.
    ThirdForFourth,
    /// There is a second receipt 3.
    ThirdTwice,
    /// Receipt 2 is replaced by one with another reply.
    OfAnotherBook,
    /// There is a seventh.
    PastTheEnd,
    /// All receipts, but not the first caller's pass.
    FirstPassLess,
}

/// A receipt of this number and reply, and else like another.
fn receipt(number: u64, like: &Receipt, reply: Reply) -> anyhow::Result<Receipt> {
    match like.event.copy() {
        Ok(event) => Ok(Receipt {
            number,
            caller: like.caller,
            event,
            reply,
        }),
        Err(fault) => {
            drop(reply);
            Err(fault.into())
        }
    }
}

/// The same receipt, if its reply has no more than a ticket.
pub fn again(like: &Receipt) -> anyhow::Result<Receipt> {
    let reply = match outcome_of(&like.reply) {
        Outcome::Done(ticket) => Reply::Done { ticket },
        Outcome::Undone(ticket) => Reply::Undone { ticket },
        _ => Reply::Taken,
    };
    receipt(like.number, like, reply)
}

/// The receipt of a number.
fn numbered(receipts: &[Receipt], number: u64) -> anyhow::Result<&Receipt> {
    Ok(
        receipts
            .iter()
            .find(|receipt| receipt.number == number)
            .ok_or(anyhow!("no receipt"))?,
    )
}

/// Takes out the receipt of a number.
fn take_out(receipts: &mut Vec<Receipt>, number: u64) {
    receipts.retain(|receipt| receipt.number != number);
}

/// Adds the third receipt once more.
fn add_third(receipts: &mut Vec<Receipt>) -> anyhow::Result<()> {
    let third = again(numbered(receipts.as_slice(), 3)?)?;
    Ok(receipts.push(third)?)
}

/// Adds a receipt of this number which no book gave.
fn add_invented(receipts: &mut Vec<Receipt>, number: u64) -> anyhow::Result<()> {
    let first = numbered(receipts.as_slice(), 1)?;
    let invented = receipt(number, first, Reply::NothingToRedo)?;
    Ok(receipts.push(invented)?)
}

fn change(case: Case, receipts: &mut Vec<Receipt>) -> anyhow::Result<()> {
    match case {
        Case::Whole | Case::FirstPassLess => {}
        Case::Reversed => receipts.reverse(),
        Case::OneLess => take_out(receipts, 5),
        Case::ThirdForFourth => {
            add_third(receipts)?;
            take_out(receipts, 4);
        }
        Case::ThirdTwice => add_third(receipts)?,
        Case::OfAnotherBook => {
            take_out(receipts, 2);
            add_invented(receipts, 2)?;
        }
        Case::PastTheEnd => add_invented(receipts, 7)?,
    }
    Ok(())
}

/// What closing tells, how many entries there are, and what it tells when it is asked again with nothing.
pub type Told = (Option<CloseFault>, usize, Option<CloseFault>);

fn asked_again<B: Book, L: CallLedger>(
    alloc: Global,
    kept: Kept<B, L>,
) -> (usize, Option<CloseFault>) {
    let entries = kept.window().len();
    match kept.close(Vec::new(alloc), Vec::new(alloc)) {
        Ok(_) => (entries, None),
        Err(not_closed) => (entries, Some(not_closed.fault)),
    }
}

pub fn told<B: Book, L: CallLedger>(
    alloc: Global,
    closed: Result<Kept<B, L>, NotClosed<B, L>>,
) -> Told {
    let (fault, kept) = match closed {
        Ok(kept) => (None, kept),
        Err(NotClosed { fault, kept }) => (Some(fault), kept),
    };
    let (entries, again) = asked_again(alloc, kept);
    (fault, entries, again)
}

fn passes_of<L: CallLedger>(
    alloc: Global,
    case: Case,
    one: Pass<L>,
    two: Pass<L>,
) -> anyhow::Result<Vec<Pass<L>>> {
    if case == Case::FirstPassLess {
        return Ok(vec![in alloc; two]?);
    }
    Ok(vec![in alloc; two, one]?)
}

/// Both callers call.
fn called<B: Book + Send + Sync, L: CallLedger + Send + Sync, R: Threads + Wait + Sync>(
    rt: &R,
    alloc: Global,
    book: &SharedBook<B, L>,
    mut one: Pass<L>,
) -> anyhow::Result<(Handed<L>, Handed<L>)> {
    let two = book.split(rt, &mut one)?;
    let events = (of_the_first(alloc)?, of_the_second(alloc)?);
    both(rt, alloc, book, (one, two), events)
}

/// What both hand in, with something wrong.
fn handed_in<L: CallLedger>(
    alloc: Global,
    case: Case,
    first: Handed<L>,
    second: Handed<L>,
) -> anyhow::Result<(Vec<Pass<L>>, Vec<Receipt>)> {
    let Handed {
        pass: two,
        receipts: more,
    } = second;
    let Handed {
        pass: one,
        mut receipts,
    } = with_receipts(first, more)?;
    change(case, &mut receipts)?;
    Ok((passes_of(alloc, case, one, two)?, receipts))
}

/// Whether each caller was told what it did, and what closing tells.
fn two_callers<B: Book + Send + Sync, L: CallLedger + Send + Sync, R: Threads + Wait + Sync>(
    rt: &R,
    alloc: Global,
    blank: Blank,
    book: B,
    opening: B,
    case: Case,
) -> anyhow::Result<(bool, Told)>
    requires known { IsKnownAs L.name L.parts L.limit L.settings blank 100 (B.settings book) }
    requires books { CanShare B.stands_for B.settings book opening }
{
    let (book, pass) = SharedBook::<B, L>::new(alloc, blank, book, opening, 100)?;
    let (first, second) = called(rt, alloc, &book, pass)?;
    let is_so = are_told(first.receipts.as_slice(), second.receipts.as_slice());
    let (passes, receipts) = handed_in(alloc, case, first, second)?;
    Ok((is_so, told(alloc, book.close(passes, receipts))))
}

fn closed_as<R: Threads + Wait + Sync>(
    rt: &R,
    alloc: Global,
    case: Case,
) -> anyhow::Result<(bool, Told)> {
    let (book, opening) = plain_books(alloc, 64, 100)?;
    two_callers::<PlainBook, Brand, R>(rt, alloc, Blank::new(1 << 20), book, opening, case)
}

/// The passes are given up when closing is asked first, so all six calls are missing then.
const GIVEN_UP: Option<CloseFault> = Some(CloseFault::Missing { count: 6 });

/// A book is closed whatever the order of the receipts.
pub fn receipts_come_in_any_order<R: Threads + Wait + Sync>(
    rt: &R,
    checks: &mut Checks,
    alloc: Global,
) -> anyhow::Result<()> {
    for case in [Case::Whole, Case::Reversed] {
        let (are_told, told) = closed_as(rt, alloc, case)?;
        checks.that(are_told);
        checks.that(told == (None, 6, GIVEN_UP));
    }
    Ok(())
}

/// Closing says how many receipts are missing.
pub fn some_are_missing<R: Threads + Wait + Sync>(
    rt: &R,
    checks: &mut Checks,
    alloc: Global,
) -> anyhow::Result<()> {
    for (case, count) in [(Case::OneLess, 1), (Case::FirstPassLess, 4)] {
        let (are_told, told) = closed_as(rt, alloc, case)?;
        checks.that(are_told);
        checks.that(told == (Some(CloseFault::Missing { count }), 6, GIVEN_UP));
    }
    Ok(())
}

/// Closing names the first receipt that is not in the window.
pub fn one_is_not_in_the_record<R: Threads + Wait + Sync>(
    rt: &R,
    checks: &mut Checks,
    alloc: Global,
) -> anyhow::Result<()> {
    let cases = [
        (Case::ThirdForFourth, 4),
        (Case::ThirdTwice, 4),
        (Case::OfAnotherBook, 2),
        (Case::PastTheEnd, 7),
    ];
    for (case, number) in cases {
        let (are_told, told) = closed_as(rt, alloc, case)?;
        checks.that(are_told);
        checks.that(told == (Some(CloseFault::Mismatch { number }), 6, GIVEN_UP));
    }
    Ok(())
}
