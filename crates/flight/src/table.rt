//! The questions that wait, and when each began to.

ghost use Rattle.std.specs.Prelude.{◌≡◌, ◌<◌, ◌≤◌, ◌+◌, ◌∷◌, ◌++◌, ◌↔◌, [], ℕ, map, max, None, Some};
ghost use Rattle.std.specs.Prelude.{IfOk, IfSome, IsTrue, OnOk, OnSome};
ghost use Rattle.slab.specs.Slab.{HasRoomFor, Updates, get, slab_len};
ghost use Rattle.std.specs.VecDeque.{deque_capacity, deque_len};
ghost use Rattle.flight.specs.Asking.{attempt_of};
ghost use Rattle.flight.specs.Beginning.{BeginsIfMay, DeniesForReason, HasPlaceNow};
ghost use Rattle.flight.specs.Bounds.{EachIsSmall, IsWithin, KeepsMost, KeepsTooMuch, MayKeep, kept_by, kept_of};
ghost use Rattle.flight.specs.Kept.{kept_in};
ghost use Rattle.flight.specs.Queue.{IsFirstDue, IsQueue, is_queued};
ghost use Rattle.flight.specs.Places.{IsAlone, asker_after};
ghost use Rattle.flight.specs.Table.{AreInTime, AreTimely, CountsOneMore, FreesKey, HaveLeft, OneMore};
ghost use Rattle.flight.specs.Waiting.{since_in, time_left};

use crate::asking::Asking;
use crate::engine::Flight;
use crate::in_flight::InFlight;
use crate::job::Job;
use crate::kept::{MOST_ALL_KEPT, MOST_KEPT, kept_in};
use crate::numbered::Numbered;
use crate::refused::{Refused, reserve};
use crate::sockets::Client;
use clock::{Clock, PATIENCE_SECONDS};
use dns_text::Octets;
use rand_core::Rng;
use slab::Slab;
use std::alloc::Global;
use std::collections::VecDeque;

// The cause of a SERVFAIL that is not the answer to the question. It is inside this module, and nothing else may ask the table for room.
mod cause;

pub use cause::{Cause, Unserved};

/// The milliseconds that an exchange may take.
pub const PATIENCE: u64 = 1_000 * PATIENCE_SECONDS;

/// The milliseconds that a question may hold a place, over all its exchanges.
pub const QUESTION_PATIENCE: u64 = 10_000;

/// The milliseconds after the beginning of a question in which an exchange may begin: it may take `PATIENCE` itself.
pub(crate) const LAST_BEGINNING: u64 = QUESTION_PATIENCE - PATIENCE;

/// The questions of one zone hold at most so many times the places that are free.
pub(crate) const ZONE_TIMES_FREE: usize = 16;

/// The questions of one network hold at most so many times the places that are free, unless it is alone. That is more than a zone's,
/// so that the network's questions about other zones find a place beside a zone that holds all it may.
pub(crate) const NETWORK_TIMES_FREE: usize = 32;

/// The milliseconds in which no other network may have asked for a place, so that one may hold all places.
pub(crate) const ALONE_AFTER: u64 = 60_000;

/// The network that asked for a place last, and the moment from which on only it has asked.
#[derive(Clone, Copy)]
pub(crate) struct Asker {
    pub(crate) network: u64,
    pub(crate) since: u64,
}

/// An entry of the queue: an exchange, and the moment at which it began.
#[derive(Clone, Copy)]
pub(crate) struct Wait {
    pub(crate) key: usize,
    pub(crate) since: u64,
}

/// A question wanted to begin an exchange: the moment at which it did, and that at which it began, in milliseconds.
#[derive(Clone, Copy)]
pub(crate) struct BeginAttempt {
    at: u64,
    began: u64,
}

/// What a question that may wait takes with it.
#[derive(Drop)]
pub(crate) struct MadeRoom {
    /// The octets of its client.
    pub(crate) octets: Octets,
    /// The octets that its steps keep.
    pub(crate) kept: usize,
}

/// The reason for which a question may not wait.
#[derive(Drop)]
pub(crate) enum Denied {
    /// It began too long ago to begin an exchange now.
    TooLong,
    /// The table has no place for its exchange.
    TooMany,
    /// It keeps too much to wait beside those in the table.
    TooLarge,
    /// There is no memory.
    NoMemory(Refused),
}

/// The questions that wait. All exchanges have the same patience, so the queue is in the order in which they began. It may
/// still name exchanges that have ended.
#[derive(Drop)]
pub(crate) struct Table<D: Numbered, L: InFlight, C: Clock, G: Rng, K: Client> {
    alloc: Global,
    pub(crate) jobs: Slab<Job<D, L, C, G, K>>,
    waits: VecDeque<Wait>,
    /// The latest moment at which an exchange began.
    latest: u64,
    limit: usize,
    asker: Asker,
    /// The latest attempt to begin an exchange. Contracts alone read it: at that moment a question was refused, if it was.
    tried: BeginAttempt,
    /// The octets that the questions keep, together.
    kept: usize,
    ghost queue: { IsQueue jobs.slots waits.items latest },
    ghost in_time: { AreInTime jobs.slots },
    ghost within: { IsWithin jobs.slots kept },
}

impl<D: Numbered, L: InFlight, C: Clock, G: Rng, K: Client> Table<D, L, C, G, K> {
    /// An empty table for at most `limit` questions. Only a new engine has one.
    fn new(alloc: Global, limit: usize) -> Table<D, L, C, G, K>
        ensures jobs { result.jobs.slots ≡ [] }
        ensures waits { result.waits.items ≡ [] }
        ensures latest { result.latest ≡ 0 }
        ensures limit { result.limit ≡ limit }
        ensures tried { result.tried ≡ record { at = 0; began = 0 } }
    {
        Table {
            alloc,
            jobs: Slab::new(alloc),
            waits: VecDeque::new(alloc),
            latest: 0,
            limit,
            asker: Asker {
                network: 0,
                since: 0,
            },
            tried: BeginAttempt { at: 0, began: 0 },
            kept: 0,
        }
    }

    /// Notes that a question wants to begin an exchange now.
    fn note(&mut self, now: u64, asking: &Asking<G, K>)
        ensures jobs { self.new.jobs ≡ self.old.jobs }
        ensures waits { self.new.waits ≡ self.old.waits }
        ensures latest { self.new.latest ≡ self.old.latest }
        ensures limit { self.new.limit ≡ self.old.limit }
        ensures asker { self.new.asker ≡ asker_after (max now self.old.latest) (K.network asking.now.client) self.old.asker }
        ensures tried { self.new.tried ≡ attempt_of now asking.now }
    {
        self.tried = BeginAttempt {
            at: now,
            began: asking.began,
        };
        let network = asking.client.network();
        if self.asker.network != network {
            let since = self.since(now);
            self.asker = Asker { network, since };
        }
    }

    /// Whether no network but that of a question has asked for a place for long enough.
    fn is_alone(&self, now: u64, asking: &Asking<G, K>) -> bool
        ensures { IsTrue result ↔ IsAlone (max now self.now.latest) (K.network asking.now.client) self.now.asker }
    {
        self.asker.network == asking.client.network()
            && self.since(now).saturating_sub(self.asker.since) >= ALONE_AFTER
    }

    /// Whether a question may begin an exchange beside those under way. They are looked through only if few places are free.
    fn has_place(&self, now: u64, asking: &Asking<G, K>) -> bool
        ensures { IsTrue result ↔ HasPlaceNow K.network now asking.now self.now.latest self.now.asker
            self.now.jobs.slots self.now.limit }
    {
        let taken = self.jobs.len();
        if taken >= self.limit {
            return false;
        }
        let free = self.limit - taken;
        if taken / ZONE_TIMES_FREE < free {
            return true;
        }
        let mut zone = 0;
        let mut network = 0;
        for (_, job) in self.jobs.iter() {
            zone += usize::from(job.is_in_zone_of(asking));
            network += usize::from(job.is_in_network_of(asking));
        }
        if zone / ZONE_TIMES_FREE >= free {
            return false;
        }
        if network / NETWORK_TIMES_FREE < free {
            return true;
        }
        if network < taken {
            return false;
        }
        self.is_alone(now, asking)
    }

    /// Whether a question that keeps so many octets may wait beside those that do.
    fn may_keep(&self, kept: usize) -> bool
        ensures yes { IsTrue result → MayKeep kept self.now.jobs.slots }
        ensures no { ¬ (IsTrue result) → KeepsTooMuch kept self.now.jobs.slots }
    {
        kept <= MOST_KEPT && kept <= MOST_ALL_KEPT - self.kept
    }

    /// Makes room for a question that begins an exchange now, and notes that it wants to. Copies the octets of its client, and counts what
    /// its steps keep.
    fn make_room(
        &mut self,
        now: u64,
        asking: &Asking<G, K>,
        octets: &[u8],
    ) -> Result<MadeRoom, Denied>
        ensures room { OnOk result (HasRoomFor self.new.jobs 1) }
        ensures queue_room { OnOk result (deque_len self.new.waits < deque_capacity self.new.waits) }
        ensures may_begin { BeginsIfMay result K.network now asking.now self.old.latest self.new.asker
            self.old.jobs.slots self.old.limit }
        ensures denied { DeniesForReason result K.network now asking.now self.new.latest self.new.asker
            self.new.jobs.slots self.new.limit }
        ensures takes { IfOk result (λ room. (room.octets ≡ octets.now) × (room.kept ≡ kept_in asking.now.task.steps.items)) }
        ensures jobs { self.new.jobs.slots ≡ self.old.jobs.slots }
        ensures waits { self.new.waits.items ≡ self.old.waits.items }
        ensures limits { (self.new.latest ≡ self.old.latest) × (self.new.limit ≡ self.old.limit) }
        ensures tried { self.new.tried ≡ attempt_of now asking.now }
    {
        self.note(now, asking);
        if self.since(now).saturating_sub(asking.began) > LAST_BEGINNING {
            return Err(Denied::TooLong);
        }
        if !self.has_place(now, asking) {
            return Err(Denied::TooMany);
        }
        let kept = kept_in(asking.task.steps());
        if !self.may_keep(kept) {
            return Err(Denied::TooLarge);
        }
        match reserve(self.alloc, octets, &mut self.waits, &mut self.jobs) {
            Ok(octets) => Ok(MadeRoom { octets, kept }),
            Err(refused) => Err(Denied::NoMemory(refused)),
        }
    }

    /// The key that the next question gets.
    pub(crate) fn vacant_key(&self) -> usize
        ensures { result ≡ self.now.jobs.vacant_key }
    {
        self.jobs.vacant_key()
    }

    /// The moment of an exchange that begins now: no earlier than those before, even if the clock went back.
    pub(crate) fn since(&self, now: u64) -> u64
        ensures { result ≡ max now self.now.latest }
    {
        now.max(self.latest)
    }

    /// Keeps a question whose exchange begins now.
    pub(crate) fn keep(&mut self, job: Job<D, L, C, G, K>)
        requires in_time { job.since ≤ job.origin.began + LAST_BEGINNING }
        requires room { HasRoomFor self.old.jobs 1 }
        requires queue_room { deque_len self.old.waits < deque_capacity self.old.waits }
        requires later { self.old.latest ≤ job.since }
        requires small { MayKeep job.kept self.old.jobs.slots }
        ensures vacant { get self.old.jobs self.old.jobs.vacant_key ≡ None }
        ensures one_more { OneMore self.old.jobs self.new.jobs self.old.jobs.vacant_key job }
        ensures waits { self.new.waits.items ≡ self.old.waits.items ++ record { key = self.old.jobs.vacant_key; since = job.since } ∷ [] }
        ensures latest { self.new.latest ≡ job.since }
        ensures rest { (self.new.limit ≡ self.old.limit) × (self.new.tried ≡ self.old.tried) }
    {
        let since = job.since;
        self.kept += job.kept();
        let key = self.jobs.insert_reserved(job);
        self.waits.push_back_reserved(Wait { key, since });
        self.latest = since;
    }

    /// Takes out the question under a key.
    pub(crate) fn take(&mut self, key: usize) -> Option<Job<D, L, C, G, K>>
        ensures job { result ≡ get self.old.jobs key }
        ensures updates { Updates self.old.jobs self.new.jobs key None }
        ensures frees { IfSome result (λ job. FreesKey self.old.jobs self.new.jobs key job) }
        ensures queued { IfSome result (λ job. IsTrue (is_queued self.new.waits.items key job.since)) }
        ensures none { result ≡ None → self.new.jobs ≡ self.old.jobs }
        ensures waits { self.new.waits.items ≡ self.old.waits.items }
        ensures latest { self.new.latest ≡ self.old.latest }
        ensures rest { (self.new.limit ≡ self.old.limit) × (self.new.tried ≡ self.old.tried) }
    {
        let job = self.jobs.get(key)?;
        self.kept -= job.kept();
        self.jobs.try_remove(key)
    }

    /// Puts back the question that was taken out last.
    pub(crate) fn put_back(&mut self, job: Job<D, L, C, G, K>)
        requires room { HasRoomFor self.old.jobs 1 }
        requires queued { IsTrue (is_queued self.old.waits.items self.old.jobs.vacant_key job.since) }
        requires in_time { job.since ≤ job.origin.began + LAST_BEGINNING }
        requires small { MayKeep job.kept self.old.jobs.slots }
        ensures one_more { OneMore self.old.jobs self.new.jobs self.old.jobs.vacant_key job }
        ensures waits { self.new.waits.items ≡ self.old.waits.items }
        ensures latest { self.new.latest ≡ self.old.latest }
        ensures rest { (self.new.limit ≡ self.old.limit) × (self.new.tried ≡ self.old.tried) }
    {
        self.kept += job.kept();
        let _ = self.jobs.insert_reserved(job);
    }

    /// The first exchange of the queue, if its time is up.
    pub(crate) fn next_due(&self, now: u64) -> Option<Wait>
        ensures first_due { IfSome result (IsFirstDue PATIENCE now self.now.waits.items) }
        ensures none { result ≡ None → (key since : ℕ) → since_in self.now.jobs.slots key ≡ Some since → now < since + PATIENCE }
        ensures timely { result ≡ None → AreTimely QUESTION_PATIENCE now self.now.jobs.slots }
    {
        let wait = *self.waits.front()?;
        if now.saturating_sub(wait.since) < PATIENCE {
            return None;
        }
        Some(wait)
    }

    /// Drops the first entry of the queue, whose time is up. The question under its key may be another by now: it is taken
    /// out only if its own time is up.
    pub(crate) fn pass(&mut self, wait: Wait, now: u64) -> Option<Job<D, L, C, G, K>>
        requires { IsFirstDue PATIENCE now self.old.waits.items wait }
        ensures waits { self.old.waits.items ≡ wait ∷ self.new.waits.items }
        ensures due { IfSome result (λ job. (get self.old.jobs wait.key ≡ Some job) × (job.since + PATIENCE ≤ now)) }
        ensures taken { OnSome result (Updates self.old.jobs self.new.jobs wait.key None) }
        ensures len { OnSome result (slab_len self.new.jobs + 1 ≡ slab_len self.old.jobs) }
        ensures counts { IfSome result (λ job. CountsOneMore self.new.jobs self.old.jobs job) }
        ensures none { result ≡ None → self.new.jobs ≡ self.old.jobs }
        ensures latest { self.new.latest ≡ self.old.latest }
        ensures rest { (self.new.limit ≡ self.old.limit) × (self.new.tried ≡ self.old.tried) }
    {
        let _ = self.waits.pop_front();
        let job = self.jobs.get(wait.key)?;
        if now.saturating_sub(job.since) < PATIENCE {
            return None;
        }
        self.kept -= job.kept();
        self.jobs.try_remove(wait.key)
    }

    /// The octets that the questions keep, together.
    pub(crate) fn kept(&self) -> usize
        ensures sum { result ≡ kept_by self.now.jobs.slots }
        ensures most { result ≤ MOST_ALL_KEPT }
        ensures each { EachIsSmall self.now.jobs.slots }
    {
        self.kept
    }

    /// What the question under a key keeps, or 0 if there is none.
    fn kept_at(&self, key: usize) -> usize
        ensures { result ≡ kept_of (get self.now.jobs key) }
    {
        match self.jobs.get(key) {
            Some(job) => job.kept(),
            None => 0,
        }
    }

    /// The key of the question that keeps most.
    pub(crate) fn largest(&self) -> usize
        ensures { KeepsMost self.now.jobs.slots result }
    {
        let mut largest = 0;
        let mut most = self.kept_at(0);
        for key in 0..self.jobs.capacity() {
            let kept = self.kept_at(key);
            if most < kept {
                largest = key;
                most = kept;
            }
        }
        largest
    }

    /// The milliseconds until the time of the first exchange is up.
    pub(crate) fn next_expiry(&self, now: u64) -> Option<u64>
        ensures first { result ≡ time_left PATIENCE now (map (λ wait. wait.since) self.now.waits.items) }
        ensures idle { result ≡ None → slab_len self.now.jobs ≡ 0 }
        ensures soon { IfSome result (HaveLeft PATIENCE now self.now.jobs.slots) }
    {
        let wait = self.waits.front()?;
        Some(PATIENCE.saturating_sub(now.saturating_sub(wait.since)))
    }
}

impl<D: Numbered, L: InFlight, C: Clock, G: Rng, K: Client> Flight<D, L, C, G, K> {
    /// No question in flight. At most `limit` exchanges may be under way.
    pub fn new(alloc: Global, clock: C, ids: G, limit: usize) -> Flight<D, L, C, G, K>
        ensures { result ≡ record { exchanges = []; begun = []; latest = 0; limit = limit; tried = record { at = 0; began = 0 } } }
    {
        Flight {
            alloc,
            clock,
            ids,
            table: Table::new(alloc, limit),
        }
    }
}

/// An exchange has two seconds, and a question ten: it may begin an exchange in the first eight. The questions of one zone hold at
/// most 16 times the places that are free, and those of one network 32 times. A network is alone if no other asked in the last minute.
pub fn limits_law()
    ensures patience { PATIENCE ≡ 2000 }
    ensures question { QUESTION_PATIENCE ≡ 10000 }
    ensures last { LAST_BEGINNING ≡ 8000 }
    ensures zone { ZONE_TIMES_FREE ≡ 16 }
    ensures network { NETWORK_TIMES_FREE ≡ 32 }
    ensures alone { ALONE_AFTER ≡ 60000 }
{}
