//! Clients and name servers of a worker without sockets: replies go into a digest, and responses come from an internet in memory.

ghost use Rattle.std.specs.Prelude.{◌≡◌};
ghost use Rattle.dns_query.specs.declared.over.Over.TheVariants.{Udp};
ghost use Rattle.flight.specs.Counted.{CountsSettled};
ghost use Rattle.flight.specs.Flight.{query_to};

use crate::digest::Digest;
use crate::internet::Internet;
use clock::Clock;
use dns_name::Name;
use dns_query::Over;
use dns_text::{Addr, Octets, Shared};
use flight::{Cause, Client, Counts, InFlight, Listened, Numbered, ReplyOctets, Sockets, Unserved};
use history::Event;
use iterate::{Allowance, Hunt};
use std::alloc::Global;
use std::cell::Cell;
use std::collections::VecDeque;
use std::mem;
use std::sync::Arc;

/// A clock that says what it was set to, in seconds.
#[derive(Drop)]
pub struct SetClock {
    pub moment: Arc<Cell<u64>>,
}

impl Clock for SetClock {
    ghost ticks = { λ _ _ _. Unit {0} };

    fn now(&mut self) -> u64 {
        self.moment.get()
    }
}

/// A client, by the number of its question.
#[derive(Drop)]
pub struct Asker {
    pub number: u64,
}

impl Client for Asker {
    ghost sent = { λ _ _. Unit {0} };

    ghost over = { λ _. Udp };

    ghost since = { λ _. 0 };

    // All are of one network, which may hold all exchanges.
    ghost network = { λ _. 0 };

    fn over(&self) -> Over {
        Over::Udp
    }

    fn since(&self) -> u64 {
        0
    }

    fn network(&self) -> u64 {
        0
    }
}

/// An exchange.
#[derive(Drop)]
pub struct Wire {
    key: usize,
    server: Addr,
    over: Over,
    query: Shared<Octets>,
}

impl InFlight for Wire {
    ghost asked = { λ wire. query_to wire.server wire.over wire.query };

    ghost key = { λ wire. wire.key };

    ghost hears = { λ _ _. Unit {0} };

    ghost listed = { λ _ _. Unit {0} };

    fn server(&self) -> Addr {
        self.server
    }
}

/// The clients and the name servers.
#[derive(Drop)]
pub struct Network {
    alloc: Global,
    port: u16,
    /// Without an internet no exchange begins.
    internet: Option<Internet>,
    pub digest: Digest,
    pub counts: Counts,
    /// The keys of the exchanges that began, in their order.
    pub keys: VecDeque<usize>,
    /// The buffer of the last reply.
    buffer: Vec<u8>,
}

impl Network {
    /// Nobody was asked or answered.
    pub fn new(alloc: Global, internet: Option<Internet>) -> Network {
        Network {
            alloc,
            port: 53,
            internet,
            digest: Digest::new(),
            counts: Counts::new(),
            keys: VecDeque::new(alloc),
            buffer: Vec::new(alloc),
        }
    }

    /// Takes into the digest how a client was settled.
    fn note(&mut self, client: u64, octets: &[u8], why: u64)
        ensures port { self.new.port ≡ self.old.port }
        ensures counts { self.new.counts ≡ self.old.counts }
    {
        self.digest.number(client);
        self.digest.number(why);
        self.digest.octets(octets);
    }

    /// Takes into the digest whom a query asks, over what, and its octets.
    fn note_query(&mut self, server: &Addr, over: Over, query: &[u8])
        ensures port { self.new.port ≡ self.old.port }
        ensures counts { self.new.counts ≡ self.old.counts }
    {
        self.digest.addr(server);
        self.digest.number(match over {
            Over::Udp => 1,
            Over::Tcp => 2,
        });
        self.digest.octets(query);
    }

    /// The response to a query, or none.
    fn response(&self, server: &Addr, over: Over, query: &[u8]) -> Listened {
        let Some(internet) = &self.internet else {
            return Listened::Broken;
        };
        match internet.response(self.alloc, server, over, query) {
            Ok(octets) => Listened::Came(Octets::new(octets)),
            Err(_) => Listened::NoMemory,
        }
    }
}

impl<D: Numbered> Sockets<D, Wire, SetClock, Asker> for Network {
    ghost server_port = { λ s. s.port };

    ghost counts = { λ s. s.counts };

    ghost Sending = { Unit {0} };

    ghost outbox = { λ _. tt };

    ghost posts = { λ _ _ _ _. Unit {0} };

    ghost listens = { λ _ _ _ _. Unit {0} };

    fn server_port(&self) -> u16 {
        self.port
    }

    fn allowance(&self, _zone: &Name) -> Allowance {
        Allowance::full()
    }

    fn note(&self, _event: &Event) {}

    fn buffer(&mut self) -> Vec<u8> {
        mem::replace(&mut self.buffer, Vec::new(self.alloc))
    }

    fn open(
        &mut self,
        key: usize,
        server: &Addr,
        _hunt: Option<&Hunt>,
        over: Over,
        query: Shared<Octets>,
    ) -> Option<Wire> {
        self.note_query(server, over, query.get().as_slice());
        if self.internet.is_none() || self.keys.push_back(key).is_err() {
            return None;
        }
        self.counts.open();
        Some(Wire {
            key,
            server: *server,
            over,
            query,
        })
    }

    fn hear(&mut self, line: &mut Wire) -> Listened {
        let heard = self.response(&line.server, line.over, line.query.get().as_slice());
        self.counts.listen(&heard);
        heard
    }

    fn expire(&mut self, _: Wire) {
        self.counts.expire();
    }

    fn abandon(&mut self, _: Wire) {
        self.counts.abandon();
    }

    fn give(&mut self, client: Asker, _: &[u8], reply: ReplyOctets) {
        self.note(client.number, reply.as_slice(), 0);
        self.counts.settle();
        if let ReplyOctets::Message(octets) = reply {
            self.buffer = octets;
        }
    }

    fn fail(&mut self, cause: Cause<Asker>, _octets: &[u8])
        ensures port { self.new.port ≡ self.old.port }
        ensures settled { CountsSettled self.old.counts self.new.counts }
    {
        let why = match cause.why() {
            Unserved::NoMemory => 1,
            Unserved::TooMany => 2,
            Unserved::Elsewhere => 3,
            Unserved::TooLong => 5,
            Unserved::TooLarge => 6,
        };
        let client = cause.into_client();
        self.note(client.number, b"", why);
        self.counts.settle();
    }

    fn pass_over(&mut self, client: Asker, _: &[u8]) {
        self.note(client.number, b"", 4);
        self.counts.settle();
    }
}
