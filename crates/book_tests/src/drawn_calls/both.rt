//! Drawn events, given to the book that replays its history and to the book that keeps none.

use crate::drawn_calls::draws::event_or_denial;
use crate::drawn_calls::replayed::replies;
use crate::new_books::{plain_book, shelf_book};
use crate::stop::Stop;
use history::{Book, Event, Reply};
use rand_core::SeedableRng;
use rand_pcg::Pcg32;
use std::alloc::Global;

/// For how many cells each book has room.
const CELLS: usize = 100_000;

/// The ticket that a command took, if it took one, or else the newest so far.
fn newest_after(newest: u64, reply: &Reply) -> u64 {
    match reply {
        Reply::Done { ticket } => *ticket,
        _ => newest,
    }
}

/// Whether both books reply the same to an event, of which the second gets a copy, and the newest ticket after it.
fn is_alike<A: Book, B: Book>(
    one: &mut A,
    other: &mut B,
    newest: u64,
    event: Event,
    copy: Event,
) -> (bool, u64) {
    match one.step(event) {
        Ok(reply) => {
            let is_alike = replies(other, copy, &reply);
            let newest = newest_after(newest, &reply);
            drop(reply);
            (is_alike, newest)
        }
        Err(_) => {
            drop(copy);
            (false, newest)
        }
    }
}

/// Gives both books an event, and says whether they reply the same, and which ticket is the newest after it.
fn give<A: Book, B: Book>(one: &mut A, other: &mut B, newest: u64, event: Event) -> (bool, u64) {
    match event.copy() {
        Ok(copy) => is_alike(one, other, newest, event, copy),
        Err(_) => {
            drop(event);
            (false, newest)
        }
    }
}

/// Gives both books an event, and then a sweep at a moment, if there is one. Says whether they reply the same to both, and which
/// ticket is the newest after them.
fn give_and_sweep<A: Book, B: Book>(
    one: &mut A,
    other: &mut B,
    newest: u64,
    event: Event,
    sweep: Option<u64>,
) -> (bool, u64) {
    let (is_alike, newest) = give(one, other, newest, event);
    match sweep {
        Some(moment) => {
            let (is_swept_alike, newest) = give(one, other, newest, Event::Sweep { moment });
            (is_alike && is_swept_alike, newest)
        }
        None => (is_alike, newest),
    }
}

/// To how many of so many events two books reply the same. If the seed is odd, a sweep follows each event.
fn alike<A: Book, B: Book>(
    alloc: Global,
    seed: u64,
    events: u64,
    mut one: A,
    mut other: B,
) -> Result<u64, Stop> {
    let mut rng = Pcg32::seed_from_u64(seed);
    let mut same = 0u64;
    let mut newest = 0u64;
    for number in 0..events {
        // The clock goes on, by a second in 20 events.
        let moment = number / 20;
        let Ok(event) = event_or_denial(&mut rng, alloc, moment, newest) else {
            return Err(Stop);
        };
        let sweep = if seed % 2 == 1 { Some(moment) } else { None };
        let (is_alike, ticket) = give_and_sweep(&mut one, &mut other, newest, event, sweep);
        newest = ticket;
        if is_alike {
            same = same.wrapping_add(1);
        }
    }
    Ok(same)
}

/// To how many of so many events both books reply the same.
pub fn both(alloc: Global, seed: u64, journal: usize, events: u64) -> Result<u64, Stop> {
    let Ok(plain) = plain_book(alloc, journal, CELLS) else {
        return Err(Stop);
    };
    match shelf_book(alloc, journal, CELLS) {
        Ok(shelf) => alike(alloc, seed, events, plain, shelf),
        Err(_) => {
            drop(plain);
            Err(Stop)
        }
    }
}
