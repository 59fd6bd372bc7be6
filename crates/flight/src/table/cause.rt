//! The cause of a SERVFAIL that is not the answer to the question.

ghost use Rattle.std.specs.Prelude.{◌≡◌, ◌≢◌, ◌⊎◌, ◌<◌, ◌+◌, IfErr, IfOk, OnOk};
ghost use Rattle.std.specs.VecDeque.{deque_capacity, deque_len};
ghost use Rattle.slab.specs.Slab.{HasRoomFor};
ghost use Rattle.flight.specs.Asking.{WantsSend, attempt_of};
ghost use Rattle.flight.specs.Beginning.{BeginsIfMay, IsCauseOf, IsRoomFor, IsShown, why_of};
ghost use Rattle.flight.specs.Bounds.{EachKeepsAtMost, kept_by};
ghost use Rattle.flight.specs.Kept.{kept_in};
ghost use Rattle.flight.specs.declared.table.cause.Unserved.TheVariants.{Elsewhere, NoMemory, TooLarge};

use crate::asking::Asking;
use crate::in_flight::InFlight;
use crate::kept::MOST_AT_REST;
use crate::numbered::Numbered;
use crate::refused::Refused;
use crate::sockets::{Client, Sockets};
use crate::table::{Denied, MadeRoom, Table};
use clock::Clock;
use rand_core::Rng;

/// The reason for a SERVFAIL that is not the answer to the question.
#[derive(Clone, Copy, PartialEq, Eq)]
pub enum Unserved {
    /// There is no memory.
    NoMemory,
    /// No place is free for an exchange, or only places that other zones or other clients may take are.
    TooMany,
    /// The question may begin no further exchange: its time is up.
    TooLong,
    /// The question keeps too much in memory: more than one may, or most of all that wait, which keep more than they may.
    TooLarge,
    /// The desk or the port of name servers is not the one with which the question began.
    Elsewhere,
}

/// A reason that was shown to be so, with the client that gets SERVFAIL for it: there is no other way to make one. What speaks of a
/// question takes that question, and its client stays inside. So no client gets SERVFAIL for the cause of another's question.
#[derive(Drop)]
pub struct Cause<K> {
    client: K,
    why: Unserved,
}

/// The reason that a client is told whose question may not wait.
fn why_of(denied: Denied) -> Unserved
    ensures { result ≡ why_of denied }
{
    match denied {
        Denied::TooLong => Unserved::TooLong,
        Denied::TooMany => Unserved::TooMany,
        Denied::TooLarge => Unserved::TooLarge,
        Denied::NoMemory(refused) => {
            drop(refused);
            Unserved::NoMemory
        }
    }
}

impl<K: Client> Cause<K> {
    /// The reason.
    pub fn why(&self) -> Unserved
        ensures { result ≡ self.now.why }
    {
        self.why
    }

    /// The client, which is to be told.
    pub fn into_client(self) -> K
        ensures { result ≡ self.client }
    {
        let Cause { client, .. } = self;
        client
    }

    /// A call got no memory.
    pub(crate) fn no_memory(refused: Refused, client: K) -> Cause<K>
        ensures client { result.client ≡ client }
        ensures why { result.why ≡ NoMemory }
    {
        drop(refused);
        Cause {
            client,
            why: Unserved::NoMemory,
        }
    }

    /// A question that wants an exchange may not wait for it beside those in the table.
    fn denied<D: Numbered, L: InFlight, C: Clock, G: Rng>(
        table: &Table<D, L, C, G, K>,
        now: u64,
        asking: Asking<G, K>,
        reason: Denied,
    ) -> Cause<K>
        requires sends { WantsSend D.calls D.seen L.hears C.ticks K.since asking }
        requires shown { IsShown K.network now asking table.now.latest table.now.asker table.now.jobs.slots table.now.limit reason }
        ensures client { result.client ≡ asking.client }
        ensures why { result.why ≡ why_of reason }
    {
        let _ = table;
        let _ = now;
        let why = why_of(reason);
        Cause {
            client: asking.client,
            why,
        }
    }

    /// A question that waits for an exchange keeps most of all that wait, and they keep too much. It is in the table no more.
    pub(crate) fn keeps_most<D: Numbered, L: InFlight, C: Clock, G: Rng>(
        table: &Table<D, L, C, G, K>,
        asking: Asking<G, K>,
    ) -> Cause<K>
        requires sends { WantsSend D.calls D.seen L.hears C.ticks K.since asking }
        requires much { MOST_AT_REST < kept_by table.now.jobs.slots + kept_in asking.task.steps.items }
        requires most { EachKeepsAtMost (kept_in asking.task.steps.items) table.now.jobs.slots }
        ensures client { result.client ≡ asking.client }
        ensures why { result.why ≡ TooLarge }
    {
        let _ = table;
        Cause {
            client: asking.client,
            why: Unserved::TooLarge,
        }
    }

    /// The desk knows of fewer calls than a client does.
    pub(crate) fn behind<D: Numbered>(desk: &D, client: K) -> Cause<K>
        requires { D.seen desk.now < K.since client }
        ensures client { result.client ≡ client }
        ensures why { result.why ≡ Elsewhere }
    {
        let _ = desk;
        Cause {
            client,
            why: Unserved::Elsewhere,
        }
    }

    /// The desk knows of fewer calls than a question in flight does, or the port of name servers is another than that with which it began.
    pub(crate) fn elsewhere<D: Numbered, L: InFlight, C: Clock, G: Rng, O: Sockets<D, L, C, K>>(
        desk: &D,
        sockets: &O,
        asking: Asking<G, K>,
    ) -> Cause<K>
        requires sends { WantsSend D.calls D.seen L.hears C.ticks K.since asking }
        requires other { (D.seen desk.now < asking.seen) ⊎ (asking.port ≢ O.server_port sockets.now) }
        ensures client { result.client ≡ asking.client }
        ensures why { result.why ≡ Elsewhere }
    {
        let _ = desk;
        let _ = sockets;
        Cause {
            client: asking.client,
            why: Unserved::Elsewhere,
        }
    }
}

impl<D: Numbered, L: InFlight, C: Clock, G: Rng, K: Client> Table<D, L, C, G, K> {
    /// Makes room for a question that begins an exchange now. If it may not wait, it becomes the cause of a SERVFAIL for its client. The
    /// table notes the attempt, so that callers say at which moment a cause was shown.
    pub(crate) fn room_for(
        &mut self,
        now: u64,
        asking: Asking<G, K>,
        octets: &[u8],
    ) -> Result<(MadeRoom, Asking<G, K>), Cause<K>>
        requires sends { WantsSend D.calls D.seen L.hears C.ticks K.since asking }
        ensures room { OnOk result (HasRoomFor self.new.jobs 1 × (deque_len self.new.waits < deque_capacity self.new.waits)) }
        ensures may_begin { BeginsIfMay result K.network now asking self.old.latest self.new.asker self.old.jobs.slots self.old.limit }
        ensures denied { IfErr result (IsCauseOf K.network now asking self.new.latest self.new.asker self.new.jobs.slots self.new.limit) }
        ensures takes { IfOk result (λ made. IsRoomFor octets.now asking made.0 made.1) }
        ensures exchanges { (self.new.jobs.slots ≡ self.old.jobs.slots) × (self.new.waits.items ≡ self.old.waits.items) }
        ensures limits { (self.new.latest ≡ self.old.latest) × (self.new.limit ≡ self.old.limit) }
        ensures tried { self.new.tried ≡ attempt_of now asking }
    {
        match self.make_room(now, &asking, octets) {
            Ok(room) => Ok((room, asking)),
            Err(denied) => Err(Cause::denied(self, now, asking, denied)),
        }
    }
}
