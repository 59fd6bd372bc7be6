//! An operator's pace: the cache keeps up with the flushes of zones that become permanent.

use crate::sweeper::pause_after;
use crate::worker::Lent;
use clock::Elapsing;
use shared_book::CallLedger;
use std::cell::Cell;
use std::rt::Clock;
use std::sync::Wait;
use std::thread;
use std::time::Duration;

/// So many flushes of zones are obeyed at once. Each may become permanent, and each lookup reads the list of those that have names left to
/// reach. No other command makes that list longer than the journal.
const MOST_BEHIND: u64 = 128;

/// The names that a permanent flush reaches in a turn of a sweep.
const REACHED_AT_ONCE: u64 = 256;

/// How long turns take before a pause, in microseconds. Many turns take a few.
const TURNS_MICROSECONDS: u64 = 200;

/// The flushes of zones since a sweep last left nothing.
#[derive(Drop)]
pub(crate) struct Pace {
    behind: Cell<u64>,
}

impl Pace {
    /// None has come.
    pub fn new() -> Pace {
        Pace {
            behind: Cell::new(0),
        }
    }

    /// Counts a flush of a zone that is to be obeyed. If too many came since a sweep last left nothing, the oldest permanent flush first
    /// reaches its names. So their list stays short, however many zones an operator flushes.
    pub fn count<L: CallLedger, R: Wait + Clock>(&self, rt: &R, lent: &Lent<'_, L>) {
        let behind = self.behind.get().saturating_add(1);
        self.behind.set(behind);
        if behind > MOST_BEHIND && !sweep_for_one(rt, lent) {
            self.behind.set(0);
        }
    }
}

/// Sweeps by turns, as many as a permanent flush takes to reach all names that there may be. Returns whether there may be more to sweep.
/// A pause is as long as the turns before it, so that whoever waits for the lock wakes and gets it.
fn sweep_for_one<L: CallLedger, R: Wait + Clock>(rt: &R, lent: &Lent<'_, L>) -> bool {
    let most = lent.gauges.book.get().most_cells / REACHED_AT_ONCE + 2;
    let mut began = rt.since(lent.terms.start);
    for _ in 0..most {
        if !lent.book.sweep_some(rt) {
            return false;
        }
        let pause = pause_after(began, rt.since(lent.terms.start));
        if pause >= Duration::from_micros(TURNS_MICROSECONDS) {
            thread::sleep(rt, pause);
            began = rt.since(lent.terms.start);
        }
    }
    true
}
