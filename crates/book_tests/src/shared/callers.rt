//! Two callers of one book, and their receipts.

use crate::handed::{Handed, call_one};
use crate::outcome::{Outcome, outcome_of};
use dns_text::Shared;
use history::{Book, Event, Reply, Seen};
use shared_book::{CallFault, CallLedger, Pass, Receipt, SharedBook};
use std::alloc::Global;
use std::sync::Wait;
use std::thread;
use std::thread::Threads;

/// Calls with each event, and keeps the receipts.
fn call_each<B: Book, L: CallLedger, R: Wait>(
    rt: &R,
    book: &SharedBook<B, L>,
    pass: &mut Pass<L>,
    events: Vec<Shared<Event>>,
    receipts: &mut Vec<Receipt>,
) -> Result<(), CallFault> {
    for event in events {
        call_one(rt, book, pass, event, receipts)?;
    }
    Ok(())
}

/// Calls with each event.
pub fn call_all<B: Book, L: CallLedger, R: Wait>(
    rt: &R,
    alloc: Global,
    book: &SharedBook<B, L>,
    mut pass: Pass<L>,
    events: Vec<Shared<Event>>,
) -> Result<Handed<L>, CallFault> {
    let mut receipts = Vec::new(alloc);
    call_each(rt, book, &mut pass, events, &mut receipts)?;
    Ok(Handed { pass, receipts })
}

/// Both callers, each in a thread of its own.
pub fn both<B: Book + Send + Sync, L: CallLedger + Send + Sync, R: Threads + Wait + Sync>(
    rt: &R,
    alloc: Global,
    book: &SharedBook<B, L>,
    passes: (Pass<L>, Pass<L>),
    events: (Vec<Shared<Event>>, Vec<Shared<Event>>),
) -> anyhow::Result<(Handed<L>, Handed<L>)> {
    let (one, two) = passes;
    let (ones, twos) = events;
    let (a, b) = thread::join(
        rt,
        || call_all(rt, alloc, book, one, ones),
        || call_all(rt, alloc, book, two, twos),
    );
    Ok((a?, b?))
}

fn sees_zones(reply: &Reply, count: usize) -> bool {
    match reply {
        Reply::Seen(Seen::Zones(zones)) => zones.as_slice().len() == count,
        _ => false,
    }
}

fn sees_left(reply: &Reply, seconds: u32) -> bool {
    match reply {
        Reply::Seen(Seen::Held(shown)) => shown.left == seconds,
        _ => false,
    }
}

/// Whether each caller was told what it had done itself, under a number of its own.
pub fn are_told(ones: &[Receipt], twos: &[Receipt]) -> bool {
    if ones.len() != 4 || twos.len() != 2 || ones[0].caller == twos[0].caller {
        return false;
    }
    outcome_of(&ones[0].reply) == Outcome::Done(1)
        && sees_zones(&ones[1].reply, 1)
        && outcome_of(&ones[2].reply) == Outcome::Undone(1)
        && sees_zones(&ones[3].reply, 0)
        && outcome_of(&twos[0].reply) == Outcome::Taken
        && sees_left(&twos[1].reply, 60)
}
