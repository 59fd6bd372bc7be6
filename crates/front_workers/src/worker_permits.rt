//! The permits of one worker's exchanges.

ghost use Rattle.std.specs.Prelude.{◌≡◌, ◌<◌, vec_len, IfOk, MatchResult};
ghost use Rattle.system.specs.Counts.{Rises};
ghost use Rattle.front_workers.specs.declared.limit.TheConstants.{MOST_EXCHANGES};
ghost use Rattle.outside.specs.declared.permits.TheConstants.{COUNTERS};

use crate::limit::MOST_EXCHANGES;
use dns_text::NoMemory;
use outside::{COUNTERS, NoPermit, Permit, Permits};
use std::alloc::Global;

/// The milliseconds after which an exchange that waits is looked at again: another worker may have given a permit back.
pub(crate) const PERMIT_GLANCE: u64 = 20;

/// How an exchange stands to the permits of its question, which a counter counts.
#[derive(Clone, Copy)]
pub(crate) enum Stand {
    /// There is none under the key, or it needs no permit.
    Without,
    /// It waits for a permit.
    Waits(usize),
    /// It holds a permit.
    Holds(usize),
}

/// The permits of one worker's exchanges. It gives back what its exchanges hold when it is dropped.
pub(crate) struct WorkerPermits<'a> {
    permits: &'a Permits,
    /// Under each key, how the exchange stands.
    stands: Vec<Stand>,
    /// How many exchanges wait.
    waiting: usize,
    /// The key at which the next look begins.
    next: usize,
    /// Whether this worker has given a permit back since a look found none.
    gave_back: bool,
    /// The moment of the last look that found none, in milliseconds.
    looked: u64,
    /// How many permits were asked for, up to 2^64 - 1.
    asked: u64,
    ghost each: { vec_len stands ≡ MOST_EXCHANGES },
}

impl<'a> WorkerPermits<'a> {
    /// The permits of a worker that has no exchange. A worker has at most `MOST_EXCHANGES`, under the smallest keys.
    pub fn new(alloc: Global, permits: &'a Permits) -> Result<WorkerPermits<'a>, NoMemory> {
        Ok(WorkerPermits {
            permits,
            stands: Vec::from_elem(alloc, Stand::Without, MOST_EXCHANGES)?,
            waiting: 0,
            next: 0,
            gave_back: false,
            looked: 0,
            asked: 0,
        })
    }

    /// Asks for a permit for the exchange of a query, under this key. If none is free, the exchange waits. Beyond the last key no permit
    /// is counted.
    pub fn ask(&mut self, key: usize, query: &[u8]) -> Result<Permit, NoPermit>
        ensures key { MatchResult result (λ permit. permit.key ≡ key) (λ refused. refused.key ≡ key) }
        ensures counted { key < MOST_EXCHANGES → IfOk result (λ permit. permit.counter < COUNTERS) }
        ensures asked { Rises self.old.asked self.new.asked }
    {
        self.asked = self.asked.saturating_add(1);
        let Some(stand) = self.stands.get_mut(key) else {
            return self.permits.take(COUNTERS, key);
        };
        match self.permits.take(self.permits.counter_of(query), key) {
            Ok(permit) => {
                *stand = Stand::Holds(permit.counter());
                Ok(permit)
            }
            Err(refused) => {
                *stand = Stand::Waits(refused.counter());
                self.waiting = self.waiting.saturating_add(1);
                Err(refused)
            }
        }
    }

    /// Ends the exchange under a key. If it holds a permit, it gives it back.
    pub fn end(&mut self, key: usize)
        ensures { self.new.asked ≡ self.old.asked }
    {
        let Some(stand) = self.stands.get_mut(key) else {
            return;
        };
        match *stand {
            Stand::Without => {}
            Stand::Waits(_) => self.waiting = self.waiting.saturating_sub(1),
            Stand::Holds(counter) => {
                self.permits.give_back(counter);
                self.gave_back = true;
            }
        }
        *stand = Stand::Without;
    }

    /// Whether an exchange waits for a permit.
    pub fn are_wanted(&self) -> bool {
        self.waiting > 0
    }

    /// Whether the exchange under a key waits for a permit that is free by now.
    fn may_begin(&self, key: usize) -> bool {
        match self.stands.get(key) {
            Some(Stand::Waits(counter)) => self.permits.has_one(*counter),
            _ => false,
        }
    }

    /// The key of the next exchange that waits for a permit which is free by now. It looks only if this worker has given one back, or
    /// others had the time to.
    pub fn next(&mut self, now: u64) -> Option<usize> {
        if self.waiting == 0 {
            return None;
        }
        if !self.gave_back && now.saturating_sub(self.looked) < PERMIT_GLANCE {
            return None;
        }
        for _ in 0..MOST_EXCHANGES {
            let key = self.next;
            let after = key.saturating_add(1);
            self.next = if after < MOST_EXCHANGES { after } else { 0 };
            if self.may_begin(key) {
                return Some(key);
            }
        }
        self.gave_back = false;
        self.looked = now;
        None
    }
}

impl<'a> Drop for WorkerPermits<'a> {
    fn drop(self) {
        let WorkerPermits {
            permits,
            stands,
            waiting: _,
            next: _,
            gave_back: _,
            looked: _,
            asked: _,
        } = self;
        for stand in &stands {
            if let Stand::Holds(counter) = stand {
                permits.give_back(*counter);
            }
        }
        drop(stands);
    }
}
