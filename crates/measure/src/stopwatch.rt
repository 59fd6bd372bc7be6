//! The time of a processor that calls of a desk take.

use history::{Desk, DeskFault, Event, Reply};
use std::time::{CpuClock, Duration};

/// The times of some calls, in nanoseconds.
#[derive(Clone, Copy)]
pub struct Times {
    count: u64,
    sum: u64,
    pub greatest: u64,
}

impl Times {
    /// Of no call.
    pub fn new() -> Times {
        Times {
            count: 0,
            sum: 0,
            greatest: 0,
        }
    }

    /// Adds the time of a call.
    pub fn add(&mut self, took: u64) {
        self.count = self.count.saturating_add(1);
        self.sum = self.sum.saturating_add(took);
        self.greatest = self.greatest.max(took);
    }

    /// The mean, or 0 of no call.
    pub fn mean(&self) -> u64 {
        if self.count == 0 {
            0
        } else {
            self.sum / self.count
        }
    }
}

/// A desk whose calls are timed. Each time has that of one reading of the clock in it.
#[derive(Drop)]
pub struct Stopwatch<'a, D, R> {
    rt: &'a R,
    desk: D,
    /// The time of the last call, in nanoseconds.
    pub last: u64,
    /// The times of the calls since it was reset, in a sum.
    pub sum: u64,
}

impl<'a, D, R> Stopwatch<'a, D, R> {
    /// A desk of which no call was timed.
    pub fn new(rt: &'a R, desk: D) -> Stopwatch<'a, D, R> {
        Stopwatch {
            rt,
            desk,
            last: 0,
            sum: 0,
        }
    }

    /// Begins a new sum.
    pub fn reset(&mut self) {
        self.sum = 0;
    }
}

impl<'a, D, R: CpuClock> Stopwatch<'a, D, R> {
    /// The time that this thread has run, or 0 if the clock cannot be read.
    fn ran(&self) -> Duration {
        match self.rt.thread_cpu_time() {
            Ok(ran) => ran,
            Err(_) => Duration::ZERO,
        }
    }

    /// The nanoseconds since then.
    fn since(&self, began: Duration) -> u64 {
        let took = self.ran().saturating_sub(began);
        u64::try_from(took.as_nanos()).unwrap_or(u64::MAX)
    }

    /// The time of no call: that of one reading of the clock.
    pub fn idle(&self) -> u64 {
        self.since(self.ran())
    }
}

impl<'a, D: Desk, R: CpuClock> Desk for Stopwatch<'a, D, R> {
    ghost calls = { λ before event answer after. D.calls before.desk event answer after.desk };

    fn call(&mut self, event: Event) -> Result<Reply, DeskFault> {
        let began = self.ran();
        let answer = self.desk.call(event);
        self.last = self.since(began);
        self.sum = self.sum.saturating_add(self.last);
        answer
    }
}
