//! A client's question that waits for the reply to an upstream query.

use crate::asking::Asking;
use crate::in_flight::InFlight;
use crate::numbered::Numbered;
use crate::sockets::Client;
use crate::zone::zone_octets;
use clock::Clock;
use dns_text::Octets;
use rand_core::Rng;
use std::marker::{Model, PhantomData};

/// A question that waits for the reply of one exchange. Contracts see that exchange, and what counts of the question.
#[derive(Drop)]
pub(crate) struct Job<D: Numbered, L: InFlight, C: Clock, G: Rng, K: Client> {
    pub(crate) asking: Asking<G, K>,
    /// What the client sent.
    pub(crate) octets: Octets,
    pub(crate) line: L,
    /// The moment at which its exchange began, in milliseconds.
    pub(crate) since: u64,
    /// The octets that the steps of its task keep.
    pub(crate) kept: usize,
    /// Only the invariant needs the desk and the clock.
    pub(crate) desk: PhantomData<D>,
    pub(crate) clock: PhantomData<C>,
}

impl<D: Numbered, L: InFlight, C: Clock, G: Rng, K: Client> Model for Job<D, L, C, G, K> {
    ghost use Rattle.std.specs.Prelude.{◌≡◌};
    ghost use Rattle.flight.specs.Asking.{origin_in, IsAskedBy};
    ghost use Rattle.iterate.specs.Task.{hunt_in};
    ghost use Rattle.flight.specs.Flight.{Awaits};
    ghost use Rattle.flight.specs.Kept.{kept_in};
    ghost use Rattle.flight.specs.Waiting.{UnderWay};

    ghost Value = { UnderWay };

    ghost view = { λ job. record {
      since = job.since;
      asked = L.asked job.line;
      key = L.key job.line;
      origin = origin_in K.network job.asking;
      kept = kept_in job.asking.task.steps.items;
    } };

    ghost invariant = { λ job. IsAskedBy K.sent job.asking.port job.octets job.asking.client job.asking.query job.asking.task
        × Awaits D.calls D.seen L.hears C.ticks (K.since job.asking.client) job.asking.port job.asking.query.question
        job.asking.task.steps.items (L.asked job.line) job.asking.seen
        × (job.kept ≡ kept_in job.asking.task.steps.items)
        × L.listed job.line (hunt_in job.asking.task.phase) };
}

impl<D: Numbered, L: InFlight, C: Clock, G: Rng, K: Client> Job<D, L, C, G, K> {
    ghost use Rattle.std.specs.Prelude.{◌≡◌};
    ghost use Rattle.flight.specs.Asking.{origin_in};
    ghost use Rattle.flight.specs.Places.{is_in_network, is_in_zone};

    /// The octets that the steps of its task keep.
    pub(crate) fn kept(&self) -> usize
        ensures { result ≡ self.now.kept }
    {
        self.kept
    }

    /// Whether its name is in the same zone as that of another question.
    pub(crate) fn is_in_zone_of(&self, other: &Asking<G, K>) -> bool
        ensures { result ≡ is_in_zone (origin_in K.network other.now).zone self.now.origin }
    {
        let zone = zone_octets(&self.asking.query.question.owner);
        zone == zone_octets(&other.query.question.owner)
    }

    /// Whether its client is of the same network as that of another question.
    pub(crate) fn is_in_network_of(&self, other: &Asking<G, K>) -> bool
        ensures { result ≡ is_in_network (origin_in K.network other.now).network self.now.origin }
    {
        self.asking.client.network() == other.client.network()
    }
}
