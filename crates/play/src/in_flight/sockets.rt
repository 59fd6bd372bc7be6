//! Clients and lines, in words.

ghost use Rattle.std.specs.Prelude.{◌≡◌};
ghost use Rattle.dns_query.specs.declared.over.Over.TheVariants.{Udp};
ghost use Rattle.flight.specs.Flight.{query_to};
ghost use Rattle.flight.specs.Counted.{CountsSettled};

use crate::in_flight::worker::LineClock;
use crate::queries::{push_digits, push_query};
use crate::said::Said;
use dns_name::{Name, NoMemory};
use dns_query::Over;
use dns_text::{Addr, Octets, Shared};
use flight::{Cause, Client, Counts, InFlight, Listened, Numbered, ReplyOctets, Sockets, Unserved};
use history::Event;
use iterate::{Allowance, Hunt};
use std::alloc::Global;
use std::mem;

/// A client, by its number, and its network.
#[derive(Drop)]
pub struct Peer {
    pub number: u64,
    pub network: u64,
}

impl Client for Peer {
    ghost sent = { λ _ _. Unit {0} };

    ghost over = { λ _. Udp };

    // The rows say nothing of calls that a client's desk knew of.
    ghost since = { λ _. 0 };

    ghost network = { λ peer. peer.network };

    fn over(&self) -> Over {
        Over::Udp
    }

    fn since(&self) -> u64 {
        0
    }

    fn network(&self) -> u64 {
        self.network
    }
}

/// An exchange.
#[derive(Drop)]
pub struct Wire {
    key: usize,
    server: Addr,
    over: Over,
    query: Shared<Octets>,
}

impl InFlight for Wire {
    ghost asked = { λ wire. query_to wire.server wire.over wire.query };

    ghost key = { λ wire. wire.key };

    ghost hears = { λ _ _. Unit {0} };

    ghost listed = { λ _ _. Unit {0} };

    fn server(&self) -> Addr {
        self.server
    }
}

/// Clients and lines: what they are told is written down.
#[derive(Drop)]
pub struct PlayedSockets {
    alloc: Global,
    port: u16,
    told: Vec<u8>,
    pub said: Said,
    opens: u64,
    /// Which exchange does not begin; 0 for none.
    failing: u64,
    pub counts: Counts,
}

/// Room for what is told of one line, so that writing it down takes no memory.
const ROOM: usize = 1 << 20;

impl PlayedSockets {
    pub fn new(alloc: Global, port: u16) -> Result<PlayedSockets, NoMemory> {
        Ok(PlayedSockets {
            alloc,
            port,
            told: Vec::with_capacity(alloc, ROOM)?,
            said: Said::Nothing,
            opens: 0,
            failing: 0,
            counts: Counts::new(),
        })
    }

    /// What was told, a line each.
    pub fn told(&self) -> &[u8] {
        self.told.as_slice()
    }

    /// Nothing was told.
    pub fn forget(&mut self) {
        self.told.clear();
        self.said = Said::Nothing;
    }

    /// Begins anew: nothing was counted, and no exchange fails.
    pub fn begin(&mut self) {
        self.failing = 0;
        self.counts = Counts::new();
    }

    /// The Nth exchange from here on does not begin.
    pub fn fail(&mut self, nth: u64) {
        self.opens = 0;
        self.failing = nth;
    }

    /// Writes down `open KEY ADDR udp|tcp OCTETS`.
    fn note(&mut self, key: usize, server: &Addr, over: Over, query: &[u8]) -> Result<(), NoMemory>
        ensures port { self.new.port ≡ self.old.port }
        ensures counts { self.new.counts ≡ self.old.counts }
    {
        self.told.extend_from_slice(b"open ")?;
        push_number(&mut self.told, key as u64);
        self.told.push(b' ')?;
        push_query(server, over, query, &mut self.told)
    }

    /// Writes down what a client is told, and counts it.
    fn settle(&mut self, word: &[u8], client: u64, octets: &[u8], why: &[u8])
        ensures port { self.new.port ≡ self.old.port }
        ensures settled { CountsSettled self.old.counts self.new.counts }
    {
        let _ = self.told.extend_from_slice(word);
        push_number(&mut self.told, client);
        let _ = self.told.push(b' ');
        let _ = push_digits(octets, &mut self.told);
        let _ = self.told.extend_from_slice(why);
        let _ = self.told.push(b'\n');
        self.counts.settle();
    }
}

/// Writes a number in decimal digits.
fn push_number(out: &mut Vec<u8>, number: u64) {
    let mut power = 10_000_000_000_000_000_000u64;
    for _ in 0..20 {
        let digit = number.checked_div(power).unwrap_or(0);
        if digit > 0 || power == 1 {
            let _ = out.push(b'0' + (digit % 10) as u8);
        }
        power /= 10;
    }
}

/// What listening gives if a line said this.
fn heard_of(said: &Said, alloc: Global, query: &[u8]) -> Listened {
    match said.octets(alloc, query) {
        Ok(Some(octets)) => Listened::Came(octets),
        Ok(None) => Listened::Broken,
        Err(_) => Listened::NoMemory,
    }
}

impl<D: Numbered> Sockets<D, Wire, LineClock, Peer> for PlayedSockets {
    ghost server_port = { λ s. s.port };

    ghost counts = { λ s. s.counts };

    ghost Sending = { Unit {0} };

    ghost outbox = { λ _. tt };

    // What is told is written down for the rows, which judge it.
    ghost posts = { λ _ _ _ _. Unit {0} };

    ghost listens = { λ _ _ _ _. Unit {0} };

    fn server_port(&self) -> u16 {
        self.port
    }

    fn allowance(&self, _zone: &Name) -> Allowance {
        Allowance::full()
    }

    fn note(&self, _event: &Event) {}

    fn buffer(&mut self) -> Vec<u8> {
        Vec::new(self.alloc)
    }

    fn open(
        &mut self,
        key: usize,
        server: &Addr,
        _hunt: Option<&Hunt>,
        over: Over,
        query: Shared<Octets>,
    ) -> Option<Wire> {
        self.opens = self.opens.wrapping_add(1);
        if self.opens == self.failing {
            return None;
        }
        if self
            .note(key, server, over, query.get().as_slice())
            .is_err()
        {
            return None;
        }
        self.counts.open();
        Some(Wire {
            key,
            server: *server,
            over,
            query,
        })
    }

    fn hear(&mut self, line: &mut Wire) -> Listened {
        let heard = match mem::replace(&mut self.said, Said::Nothing) {
            Said::Nothing => Listened::Nothing,
            said => heard_of(&said, self.alloc, line.query.get().as_slice()),
        };
        self.counts.listen(&heard);
        heard
    }

    fn expire(&mut self, _: Wire) {
        self.counts.expire();
    }

    fn abandon(&mut self, _: Wire) {
        self.counts.abandon();
    }

    fn give(&mut self, client: Peer, _: &[u8], reply: ReplyOctets) {
        self.settle(b"reply ", client.number, reply.as_slice(), b"");
    }

    fn fail(&mut self, cause: Cause<Peer>, _octets: &[u8])
        ensures port { self.new.port ≡ self.old.port }
        ensures settled { CountsSettled self.old.counts self.new.counts }
    {
        let why = match cause.why() {
            Unserved::NoMemory => b"no_memory".as_slice(),
            Unserved::TooMany => b"too_many".as_slice(),
            Unserved::TooLong => b"too_long".as_slice(),
            Unserved::TooLarge => b"too_large".as_slice(),
            Unserved::Elsewhere => b"elsewhere".as_slice(),
        };
        let client = cause.into_client();
        self.settle(b"failed ", client.number, b"", why);
    }

    fn pass_over(&mut self, client: Peer, _: &[u8]) {
        self.settle(b"none ", client.number, b"", b"");
    }
}
