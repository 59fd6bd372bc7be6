//! The time since a moment, by the system's monotonic clock.

ghost use Rattle.std.specs.Prelude.{◌≡◌, Option};
ghost use Rattle.std.specs.Duration.{as_nanos};
ghost use Rattle.std.specs.declared.time.Duration.{Duration as DurationValue};
ghost use Rattle.std.specs.declared.time.Instant.{Instant};
ghost use Rattle.clock.specs.Moments.{millis_at, seconds_at, IsRead};

use crate::ticks::Clock;
use std::marker::Model;
use std::time::{Duration, Instant};

/// A clock that measures the time since a moment.
pub trait Elapsing {
    /// The time that passed since a moment, or None if the clock could not be read.
    ghost passed: { Instant → Option DurationValue → Type 0 };

    /// The time since the start, or None if the clock cannot be read.
    fn since(&self, start: Instant) -> Option<Duration>
        ensures { passed start result };
}

impl<R: std::rt::Clock> Elapsing for R {
    // Nothing is known of the system's clock.
    ghost passed = { λ _ _. Unit {0} };

    fn since(&self, start: Instant) -> Option<Duration> {
        match start.elapsed(self) {
            Ok(passed) => Some(passed),
            Err(_) => None,
        }
    }
}

/// A clock that counts from a start by the system's monotonic clock. If that cannot be read, it stays at its last moment.
/// Contracts see the start, and the last moment in nanoseconds.
#[derive(Drop)]
pub struct MonotonicClock<'a, R> {
    rt: &'a R,
    start: Instant,
    last: Duration,
}

impl<'a, R> Model for MonotonicClock<'a, R> {
    ghost use Rattle.std.specs.Duration.{as_nanos};
    ghost use Rattle.clock.specs.Moments.{ClockState};

    ghost Value = { ClockState };

    ghost view = { λ clock. record { start = clock.start; last = as_nanos clock.last } };
}

impl<'a, R> MonotonicClock<'a, R> {
    /// A clock that counts from this moment on.
    pub fn new(rt: &'a R, start: Instant) -> MonotonicClock<'a, R>
        ensures { result ≡ record { start = start; last = 0 } }
    {
        MonotonicClock {
            rt,
            start,
            last: Duration::ZERO,
        }
    }

    /// Its last moment: the milliseconds since the start, when it was read last.
    pub fn last_millis(&self) -> u64
        ensures { result ≡ millis_at self.now.last }
    {
        u64::try_from(self.last.as_millis()).unwrap_or(u64::MAX)
    }
}

impl<'a, R: Elapsing> MonotonicClock<'a, R> {
    /// Reads the clock: the time since the start.
    #[tactic(auto, using(crate::proofs::Durations::longer_nanos))]
    fn moment(&mut self) -> Duration
        ensures read { IsRead R.passed self.old self.new }
        ensures moment { as_nanos result ≡ self.new.last }
    {
        if let Some(passed) = self.rt.since(self.start) {
            self.last = self.last.max(passed);
        }
        self.last
    }

    /// Reads the clock: the milliseconds since the start.
    pub fn millis(&mut self) -> u64
        ensures read { IsRead R.passed self.old self.new }
        ensures millis { result ≡ millis_at self.new.last }
    {
        let _ = self.moment();
        self.last_millis()
    }
}

impl<'a, R: Elapsing> Clock for MonotonicClock<'a, R> {
    // The moment is the system clock's, in whole seconds since the start, and never falls.
    ghost ticks = { λ before moment after. IsRead R.passed before after × (moment ≡ seconds_at after.last) };

    fn now(&mut self) -> u64 {
        self.moment().as_secs()
    }
}
