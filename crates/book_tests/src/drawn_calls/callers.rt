//! Eight callers of one book: a pass is split for each, and all are joined again.

use crate::drawn_calls::draws::shared_event;
use crate::handed::{Handed, call_one, with_receipts};
use crate::stop::Stop;
use history::Book;
use rand_core::{Rng, SeedableRng};
use rand_pcg::Pcg32;
use shared_book::{CallLedger, Pass, Receipt, SharedBook};
use std::alloc::Global;
use std::sync::Wait;
use std::thread;
use std::thread::Threads;

/// The most calls that a caller makes beside a quarter of those that a window can have.
const MOST_CALLS: u32 = 62;

/// How many calls a caller of this seed makes, if the window can have so many. Eight callers make more than twice as many, so the window
/// moves on by its length or more.
fn drawn_count(window: u64, seed: u64) -> u64 {
    let mut rng = Pcg32::seed_from_u64(seed);
    (window / 4).saturating_add(u64::from(rng.next_u32() % MOST_CALLS + 1))
}

/// One drawn call, of which the receipt is kept.
fn one_call<B: Book, L: CallLedger, R: Wait>(
    rt: &R,
    alloc: Global,
    book: &SharedBook<B, L>,
    pass: &mut Pass<L>,
    rng: &mut Pcg32,
    receipts: &mut Vec<Receipt>,
) -> Result<(), Stop> {
    let Ok(event) = shared_event(rng, alloc, 0) else {
        return Err(Stop);
    };
    match call_one(rt, book, pass, event, receipts) {
        Ok(()) => Ok(()),
        Err(_) => Err(Stop),
    }
}

/// One caller's drawn calls.
fn calls<B: Book, L: CallLedger, R: Wait>(
    rt: &R,
    alloc: Global,
    book: &SharedBook<B, L>,
    mut pass: Pass<L>,
    seed: u64,
    count: u64,
) -> Result<Handed<L>, Stop> {
    let mut rng = Pcg32::seed_from_u64(seed);
    let mut receipts = Vec::new(alloc);
    for _ in 0..count {
        one_call(rt, alloc, book, &mut pass, &mut rng, &mut receipts)?;
    }
    Ok(Handed { pass, receipts })
}

/// What two have to hand in, as one.
pub fn joined<B: Book, L: CallLedger, R: Wait>(
    rt: &R,
    book: &SharedBook<B, L>,
    one: Handed<L>,
    two: Handed<L>,
) -> Result<Handed<L>, Stop> {
    let Handed { pass, receipts } = one;
    let Handed {
        pass: other,
        receipts: more,
    } = two;
    let pass = book.join(rt, pass, other);
    with_receipts(Handed { pass, receipts }, more)
}

/// Two callers, of whom the first calls once more when the second is done.
fn two<B: Book + Send + Sync, L: CallLedger + Send + Sync, R: Threads + Wait + Sync>(
    rt: &R,
    alloc: Global,
    book: &SharedBook<B, L>,
    mut pass: Pass<L>,
    window: u64,
    seed: u64,
) -> Result<Handed<L>, Stop> {
    let Ok(other) = book.split(rt, &mut pass) else {
        return Err(Stop);
    };
    let (a, b) = thread::join(
        rt,
        || calls(rt, alloc, book, pass, seed, drawn_count(window, seed)),
        || calls(
            rt,
            alloc,
            book,
            other,
            seed ^ 1 << 32,
            drawn_count(window, seed ^ 1 << 32),
        ),
    );
    let Handed { pass, receipts } = joined(rt, book, a?, b?)?;
    let last = calls(rt, alloc, book, pass, seed ^ 1 << 33, 1)?;
    with_receipts(last, receipts)
}

fn four<B: Book + Send + Sync, L: CallLedger + Send + Sync, R: Threads + Wait + Sync>(
    rt: &R,
    alloc: Global,
    book: &SharedBook<B, L>,
    mut pass: Pass<L>,
    window: u64,
    seed: u64,
) -> Result<Handed<L>, Stop> {
    let Ok(other) = book.split(rt, &mut pass) else {
        return Err(Stop);
    };
    let (a, b) = thread::join(
        rt,
        || two(rt, alloc, book, pass, window, seed),
        || two(rt, alloc, book, other, window, seed ^ 1 << 34),
    );
    joined(rt, book, a?, b?)
}

/// Eight callers, each in a thread of its own, of a book whose window can have so many calls.
pub fn eight<B: Book + Send + Sync, L: CallLedger + Send + Sync, R: Threads + Wait + Sync>(
    rt: &R,
    alloc: Global,
    book: &SharedBook<B, L>,
    mut pass: Pass<L>,
    window: u64,
    seed: u64,
) -> Result<Handed<L>, Stop> {
    let Ok(other) = book.split(rt, &mut pass) else {
        return Err(Stop);
    };
    let (a, b) = thread::join(
        rt,
        || four(rt, alloc, book, pass, window, seed),
        || four(rt, alloc, book, other, window, seed ^ 1 << 35),
    );
    joined(rt, book, a?, b?)
}
