//! What a book is made with.
ghost use Rattle.shared_book.specs.Fresh.{CanShare, IsKnownAs};

use crate::checks::Checks;
use crate::new_books::plain_books;
use history::{Book, MakeFault};
use shared_book::{Blank, CallLedger, MOST_RECORDED, SharedBook};
use std::alloc::Global;
use std::marker::Brand;
use std::sync::Wait;
use undo_book::PlainBook;

/// Whether a book is refused that is made with these, and whether its first pass can be split.
fn made<B: Book, L: CallLedger, R: Wait>(
    rt: &R,
    alloc: Global,
    blank: Blank,
    book: B,
    opening: B,
    limit: u64,
) -> Result<bool, MakeFault>
    requires known { IsKnownAs L.name L.parts L.limit L.settings blank limit (B.settings book) }
    requires books { CanShare B.stands_for B.settings book opening }
{
    let (book, mut pass) = SharedBook::<B, L>::new(alloc, blank, book, opening, limit)?;
    Ok(book.split(rt, &mut pass).is_ok())
}

fn made_as<R: Wait>(rt: &R, alloc: Global, parts: u64, limit: u64) -> Result<bool, MakeFault> {
    let (book, opening) = plain_books(alloc, 64, 100)?;
    made::<PlainBook, Brand, R>(rt, alloc, Blank::new(parts), book, opening, limit)
}

/// The parts and the window have ranges.
pub fn settings_have_ranges<R: Wait>(
    rt: &R,
    checks: &mut Checks,
    alloc: Global,
) -> anyhow::Result<()> {
    for (parts, limit) in [(2, 0), (2, MOST_RECORDED + 1), (0, 1)] {
        checks.that(made_as(rt, alloc, parts, limit) == Err(MakeFault::BadSettings));
    }
    checks.that(made_as(rt, alloc, 2, MOST_RECORDED) == Ok(true));
    Ok(())
}

/// A pass of one part is not split.
pub fn one_part_is_not_split<R: Wait>(
    rt: &R,
    checks: &mut Checks,
    alloc: Global,
) -> anyhow::Result<()> {
    checks.that(made_as(rt, alloc, 1, 1) == Ok(false));
    Ok(())
}
