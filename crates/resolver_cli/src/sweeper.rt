//! The sweeper: it removes expired data from the cache, so that the cache takes memory only for live data.

use crate::worker::Lent;
use clock::{Clock, Elapsing, MonotonicClock};
use history::{Desk, Event};
use log::{Log, info, warn};
use operators::{BookFigures, read_figure};
use shared_book::{CallLedger, Pass, Seat};
use std::sync::Wait;
use std::sync::atomic::Ordering;
use std::thread;
use std::time::Duration;

/// The time between two looks at the stop flag, in milliseconds. `stop` waits for the sweeper at most that long.
const GLANCE_MILLISECONDS: u64 = 50;

/// The least time between two sweeps, in milliseconds. A TTL counts whole seconds, so more sweeps would remove no more.
const LEAST_MILLISECONDS: u64 = 1_000;

/// A cache of a million names is swept within so many turns, and so is the opening book's: each turn visits 256 names of one of them at
/// most, first for a permanent flush, then to remove what it has emptied.
const MOST_TURNS: u32 = 16_384;

/// The least time between two turns, in microseconds. Whoever waits for the lock is woken within it.
const LEAST_BETWEEN_TURNS: u64 = 50;

/// The next sweep waits for so many times as long as the last one took, its turns and the pauses between them. So sweeps take at most one
/// part in 20 of the time, however full the cache is.
const RESTS: u64 = 19;

/// Sweeps now and then, until the service stops. Each sweep is an event of the history, as an operator's `sweep` is.
pub(crate) fn sweep_often<L: CallLedger, R: Wait + std::rt::Clock + Log>(
    rt: &R,
    lent: &Lent<'_, L>,
    pass: Pass<L>,
) {
    let mut desk = Seat::new(rt, lent.book, pass);
    let mut clock = MonotonicClock::new(rt, lent.terms.start);
    let mut due = LEAST_MILLISECONDS;
    let mut room = CacheRoom::new();
    for _ in rt.forever() {
        if lent.stop.load(Ordering::SeqCst) {
            return;
        }
        thread::sleep(rt, Duration::from_millis(GLANCE_MILLISECONDS));
        let began = clock.millis();
        if began >= due {
            let moment = clock.now();
            // A sweep takes no memory. The only fault is that too many events were taken, and then nothing is cached either.
            let _ = desk.call(Event::Sweep { moment });
            sweep_by_turns(rt, lent);
            due = next_due(began, clock.millis());
            room.tell(rt, lent.gauges.book.get());
        }
    }
}

/// Frees what no reply can show any more, some names a turn, until nothing is left or the service stops. So no lookup waits long for the
/// lock. The sweep before it is a turn too: it moves the clock.
fn sweep_by_turns<L: CallLedger, R: Wait + std::rt::Clock>(rt: &R, lent: &Lent<'_, L>) {
    for _ in 0..MOST_TURNS {
        let began = rt.since(lent.terms.start);
        if lent.stop.load(Ordering::SeqCst) || !lent.book.sweep_some(rt) {
            return;
        }
        thread::sleep(rt, pause_after(began, rt.since(lent.terms.start)));
    }
}

/// The pause after a turn that began and ended then: as long as the turn. So workers have the lock for half of the time at least, and a
/// question that takes it often waits for few turns. `stop` waits for a pause as for a look at its flag.
pub(crate) fn pause_after(began: Option<Duration>, ended: Option<Duration>) -> Duration {
    let least = Duration::from_micros(LEAST_BETWEEN_TURNS);
    let most = Duration::from_millis(GLANCE_MILLISECONDS);
    match (began, ended) {
        (Some(began), Some(ended)) => ended.saturating_sub(began).max(least).min(most),
        _ => least,
    }
}

/// What the log says of the room in the cache.
#[derive(Drop)]
struct CacheRoom {
    /// Whether the last line said that the cache is full.
    is_full: bool,
    /// The admissions that had found no room by then.
    seen: u64,
    /// The names that had been forgotten when the cache was last said not to be full.
    forgotten: u64,
}

impl CacheRoom {
    /// Nothing was said.
    fn new() -> CacheRoom {
        CacheRoom {
            is_full: false,
            seen: 0,
            forgotten: 0,
        }
    }

    /// Logs that the cache is full if data found no room since the last sweep, and that it is not if none did and there is room.
    fn tell<R: Log>(&mut self, rt: &R, book: &BookFigures) {
        let full = read_figure(&book.full);
        let cells = read_figure(&book.cells);
        let most = book.most_cells;
        if full > self.seen {
            self.seen = full;
            if !self.is_full {
                self.is_full = true;
                warn!(rt; "resolver: the cache is full: {most} cells are in use, and for new names others are forgotten");
            }
        } else if self.is_full && cells < most {
            self.is_full = false;
            let forgotten = read_figure(&book.forgotten);
            let names = forgotten.saturating_sub(self.forgotten);
            self.forgotten = forgotten;
            info!(rt; "resolver: the cache is not full any more: {cells} of {most} cells are in use, {names} names were forgotten");
        }
    }
}

/// The moment of the next sweep, in milliseconds, if the last one began and ended then.
fn next_due(began: u64, ended: u64) -> u64 {
    let took = ended.saturating_sub(began);
    let rest = took.saturating_mul(RESTS).max(LEAST_MILLISECONDS);
    ended.saturating_add(rest)
}
