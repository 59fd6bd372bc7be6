//! A pass whose call the book refuses, and two passes in one.
ghost use Rattle.shared_book.specs.Fresh.{CanShare, IsKnownAs};

use crate::checks::Checks;
use crate::events::{of_the_second, too_late};
use crate::handed::Handed;
use crate::new_books::plain_books;
use crate::shared::callers::call_all;
use crate::shared::closing::{Told, told};
use history::{Book, StepFault};
use shared_book::{Blank, CallFault, CallLedger, CloseFault, SharedBook};
use std::alloc::Global;
use std::marker::Brand;
use std::sync::Wait;
use undo_book::PlainBook;

/// The fault of a call that the book refuses, and what closing tells after two more calls.
fn refused_and_taken<B: Book, L: CallLedger, R: Wait>(
    rt: &R,
    alloc: Global,
    blank: Blank,
    book: B,
    opening: B,
) -> anyhow::Result<(Option<CallFault>, Told)>
    requires known { IsKnownAs L.name L.parts L.limit L.settings blank 100 (B.settings book) }
    requires books { CanShare B.stands_for B.settings book opening }
{
    let (book, mut pass) = SharedBook::<B, L>::new(alloc, blank, book, opening, 100)?;
    let fault = book.call(rt, &mut pass, too_late(alloc)?).err();
    let Handed { pass, receipts } = call_all(rt, alloc, &book, pass, of_the_second(alloc)?)?;
    Ok((
        fault,
        told(alloc, book.close(vec![in alloc; pass]?, receipts)),
    ))
}

fn refused_and_taken_as<R: Wait>(
    rt: &R,
    alloc: Global,
) -> anyhow::Result<(Option<CallFault>, Told)> {
    let (book, opening) = plain_books(alloc, 64, 100)?;
    refused_and_taken::<PlainBook, Brand, R>(rt, alloc, Blank::new(1), book, opening)
}

/// A call that the book refuses is not in the window.
pub fn a_refused_call_is_not_recorded<R: Wait>(
    rt: &R,
    checks: &mut Checks,
    alloc: Global,
) -> anyhow::Result<()> {
    let (fault, told) = refused_and_taken_as(rt, alloc)?;
    checks.that(fault == Some(CallFault::Step(StepFault::BadMoment)));
    checks.that(told == (None, 2, Some(CloseFault::Missing { count: 2 })));
    Ok(())
}

/// What two passes have seen once they are one, where the second made both calls.
fn seen_by_both<B: Book, L: CallLedger, R: Wait>(
    rt: &R,
    alloc: Global,
    blank: Blank,
    book: B,
    opening: B,
    in_order: bool,
) -> anyhow::Result<u64>
    requires known { IsKnownAs L.name L.parts L.limit L.settings blank 100 (B.settings book) }
    requires books { CanShare B.stands_for B.settings book opening }
{
    let (book, mut one) = SharedBook::<B, L>::new(alloc, blank, book, opening, 100)?;
    let two = book.split(rt, &mut one)?;
    let Handed {
        pass: two,
        receipts,
    } = call_all(rt, alloc, &book, two, of_the_second(alloc)?)?;
    drop(receipts);
    let joined = if in_order {
        book.join(rt, one, two)
    } else {
        book.join(rt, two, one)
    };
    Ok(joined.seen())
}

fn seen_by_both_as<R: Wait>(rt: &R, alloc: Global, in_order: bool) -> anyhow::Result<u64> {
    let (book, opening) = plain_books(alloc, 64, 100)?;
    seen_by_both::<PlainBook, Brand, R>(rt, alloc, Blank::new(2), book, opening, in_order)
}

/// Two passes that are joined have seen what either had.
pub fn a_joined_pass_has_seen_what_either_had<R: Wait>(
    rt: &R,
    checks: &mut Checks,
    alloc: Global,
) -> anyhow::Result<()> {
    for in_order in [true, false] {
        let seen = seen_by_both_as(rt, alloc, in_order)?;
        checks.that(seen == 2);
    }
    Ok(())
}
