//! The calls of all receipts, given to a fresh book, and the closing.

use crate::handed::Handed;
use crate::new_books::plain_book;
use crate::stop::Stop;
use history::{Book, Event, Reply};
use shared_book::{CallLedger, Kept, Receipt, SharedBook};
use std::alloc::Global;

/// How many commands a book of random calls can undo.
pub const JOURNAL: usize = 64;

/// For how many cells it has room.
pub const CELLS: usize = 1_000;

/// Whether a book replies so to an event. Its reply is dropped by a call, since the prover follows any other drop variant by
/// variant.
pub fn replies<B: Book>(book: &mut B, event: Event, expected: &Reply) -> bool {
    match book.step(event) {
        Ok(reply) => {
            let is_alike = reply == *expected;
            drop(reply);
            is_alike
        }
        Err(_) => false,
    }
}

/// To how many entries' events a book replies as the entry says.
fn alike_among<B: Book>(book: &mut B, entries: &[Receipt]) -> usize {
    let mut alike = 0usize;
    for entry in entries {
        if let Ok(event) = entry.event.copy() {
            if replies(book, event, &entry.reply) {
                alike = alike.wrapping_add(1);
            }
        }
    }
    alike
}

/// To how many calls a fresh book replies the same, in the order of their numbers.
fn replayed(alloc: Global, receipts: &mut Vec<Receipt>) -> Result<usize, Stop> {
    let Ok(mut book) = plain_book(alloc, JOURNAL, CELLS) else {
        return Err(Stop);
    };
    if receipts.sort_by_key(|receipt| receipt.number).is_err() {
        return Err(Stop);
    }
    Ok(alike_among(&mut book, receipts.as_slice()))
}

/// What closing comes to.
#[derive(Drop)]
pub struct Closing {
    /// The calls that were made.
    pub calls: usize,
    /// Those of them to which a fresh book replies the same.
    pub alike: usize,
    /// The calls in the window.
    pub recorded: usize,
    /// The calls that it has moved on past.
    pub behind: u64,
}

/// How many calls a window has moved on past, by the number of its first call.
fn calls_behind<B: Book, L: CallLedger>(kept: &Kept<B, L>) -> u64 {
    match kept.window().front() {
        Some(entry) => entry.number.saturating_sub(1),
        None => 0,
    }
}

/// Closes a book with what was handed in. None if it is not closed.
pub fn closed<B: Book, L: CallLedger>(
    alloc: Global,
    book: SharedBook<B, L>,
    handed: Handed<L>,
) -> Result<Option<Closing>, Stop> {
    let Handed { pass, mut receipts } = handed;
    let mut passes = Vec::new(alloc);
    if passes.push(pass).is_err() {
        return Err(Stop);
    }
    let calls = receipts.len();
    let alike = replayed(alloc, &mut receipts)?;
    match book.close(passes, receipts) {
        Ok(kept) => Ok(Some(Closing {
            calls,
            alike,
            recorded: kept.window().len(),
            behind: calls_behind(&kept),
        })),
        Err(_) => Ok(None),
    }
}
