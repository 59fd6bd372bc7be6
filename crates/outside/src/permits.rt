//! The permits of exchanges: a few for each question, over all workers.

ghost use Rattle.std.specs.Prelude.{◌≡◌, ◌<◌, IfOk, MatchResult};

use cell_store::NameSeed;
use dns_text::NoMemory;
use dns_wire::HEADER_OCTETS;
use std::alloc::Global;
use std::hash::{BuildHasher, Hasher};
use std::sync::atomic::{AtomicU64, Ordering};

/// The most exchanges with one question that are under way at once, over all workers. Each is a window for forged replies
/// (RFC 5452, section 4.4).
pub const MOST_EQUAL: u64 = 4;

/// The counters of permits. Where four workers have all their exchanges under way, two in 100,000 wait though no equal one does.
pub const COUNTERS: usize = 16_384;

/// The right to begin the exchange under one key. It cannot be cloned, and only `Permits::take` makes one.
#[derive(Drop)]
pub struct Permit {
    counter: usize,
    key: usize,
}

impl Permit {
    /// The number of the counter that counts it.
    pub fn counter(&self) -> usize
        ensures { result ≡ self.now.counter }
    {
        self.counter
    }

    /// The key of its exchange.
    pub fn key(&self) -> usize
        ensures { result ≡ self.now.key }
    {
        self.key
    }
}

/// No permit was free for the exchange under one key. Only `Permits::take` makes one, so an exchange waits only if it was refused a
/// permit.
#[derive(Drop)]
pub struct NoPermit {
    counter: usize,
    key: usize,
}

impl NoPermit {
    /// The number of the counter of the permits that are held.
    pub fn counter(&self) -> usize
        ensures { result ≡ self.now.counter }
    {
        self.counter
    }
}

/// How many exchanges hold a permit, for each question. All workers share them, without a lock. Questions with one hash share a
/// counter, and wait for one another. Strangers choose the questions, so their hashes are seeded.
#[derive(Drop)]
pub struct Permits {
    seed: NameSeed,
    held: Vec<AtomicU64>,
}

impl Permits {
    /// No permit is held. Strangers do not know the seed.
    pub fn new(alloc: Global, seed: NameSeed) -> Result<Permits, NoMemory>
        ensures { IfOk result (λ permits. permits.seed ≡ seed) }
    {
        let mut held = Vec::with_capacity(alloc, COUNTERS)?;
        for _ in 0..COUNTERS {
            held.push(AtomicU64::new(0))?;
        }
        Ok(Permits { seed, held })
    }

    /// The number of the counter for the question of a query. Names that differ in the case of letters are equal (RFC 1035, section 2.3.3).
    pub fn counter_of(&self, query: &[u8]) -> usize
        ensures { result < COUNTERS }
    {
        let mut hasher = self.seed.build_hasher();
        for octet in query.iter().skip(HEADER_OCTETS) {
            hasher.write(&[octet.to_ascii_lowercase()]);
        }
        (hasher.finish() % COUNTERS as u64) as usize
    }

    /// Whether a permit is free.
    pub fn has_one(&self, counter: usize) -> bool {
        match self.held.get(counter) {
            Some(held) => held.load(Ordering::SeqCst) < MOST_EQUAL,
            None => true,
        }
    }

    /// Takes a permit for the exchange under a key, if one is free. Where there is no such counter, one is.
    pub fn take(&self, counter: usize, key: usize) -> Result<Permit, NoPermit>
        ensures counter { MatchResult result (λ permit. permit.counter ≡ counter) (λ refused. refused.counter ≡ counter) }
        ensures key { MatchResult result (λ permit. permit.key ≡ key) (λ refused. refused.key ≡ key) }
    {
        let Some(held) = self.held.get(counter) else {
            return Ok(Permit { counter, key });
        };
        if held.fetch_add(1, Ordering::SeqCst) < MOST_EQUAL {
            return Ok(Permit { counter, key });
        }
        self.give_back(counter);
        Err(NoPermit { counter, key })
    }

    /// Gives a permit back that was taken.
    pub fn give_back(&self, counter: usize) {
        if let Some(held) = self.held.get(counter) {
            let _ = held.fetch_sub(1, Ordering::SeqCst);
        }
    }
}
