//! The clients of a worker, and its sockets.

ghost use Rattle.std.specs.Prelude.{◌≡◌, ◌≤◌, ℕ, List, None, Option, Some, length, IfNone, IfSome, OnSome};
ghost use Rattle.std.specs.Option.{option_copied};
ghost use Rattle.iterate.specs.declared.search.Hunt.{Hunt};
ghost use Rattle.dns_wire.specs.Server.Asking.{IsGood};
ghost use Rattle.dns_query.specs.declared.over.Over.{Over};
ghost use Rattle.replies.specs.Reply.{fault_octets, most_octets};
ghost use Rattle.flight.specs.declared.counts.Counts.{Counts};
ghost use Rattle.flight.specs.declared.sockets.Listened.{Listened};
ghost use Rattle.flight.specs.Clients.{Settles};
ghost use Rattle.flight.specs.Counted.{CountsAbandoned, CountsExpired, CountsListened, CountsOpened};
ghost use Rattle.flight.specs.Flight.{query_to};
ghost use Rattle.flight.specs.Told.{octets_of, IsHeard, IsToldTo, IsUntold, Keeps};

use crate::in_flight::InFlight;
use crate::numbered::Numbered;
use crate::reply::ReplyOctets;
use crate::table::Cause;
use clock::Clock;
use dns_name::Name;
use dns_query::Over;
use dns_text::{Addr, Octets, Shared};
use history::Event;
use iterate::{Allowance, Hunt};

/// A client that is owed a reply. It cannot be cloned and every outcome consumes it, so it is answered at most once.
pub trait Client: Drop {
    /// The client may have sent these octets.
    ghost sent: { Self → List ℕ → Type 0 };

    /// The transport by which the octets came.
    ghost over: { Self → Over };

    /// The number of the latest call that the desk knew of when the octets were taken.
    ghost since: { Self → ℕ };

    /// The network that the client is of, as a number. Clients of one network share the places of exchanges.
    ghost network: { Self → ℕ };

    /// The transport by which the octets came. The reply leaves by the same.
    fn over(&self) -> Over
        ensures { result ≡ over self.now };

    /// The number of the latest call that the desk knew of when the octets were taken.
    fn since(&self) -> u64
        ensures { result ≡ since self.now };

    /// The network that the client is of, as a number.
    fn network(&self) -> u64
        ensures { result ≡ network self.now };
}

/// The result of listening to an exchange.
#[derive(Drop)]
pub enum Listened {
    /// Nothing yet.
    Nothing,
    /// These octets came, and nothing more will.
    Came(Octets),
    /// Nothing will come: the device failed, the server closed the connection, or its first message over TCP does not fit.
    Broken,
    /// Something came, but there is no memory for it.
    NoMemory,
    /// Nothing was sent, for the exchange waited until others with an equal question ended. Its question is to begin anew.
    Anew,
}

/// The sockets of a worker: those by which replies leave, and those of exchanges.
pub trait Sockets<D: Numbered, L: InFlight, C: Clock, K: Client> {
    /// The port of name servers that are known by name.
    ghost server_port: { Self → ℕ };

    /// The counters, each up to 2^64 - 1.
    ghost counts: { Self → Counts };

    /// The states of an outbox.
    ghost Sending: { Type 0 };

    /// The outbox: what sends replies to clients, and the replies that wait to be sent.
    ghost outbox: { Self → Sending };

    /// Exactly one reply was sent (perhaps in vain), or waits to be sent: the outbox before, the client, the octets, the outbox
    /// after.
    ghost posts: { Sending → K → List ℕ → Sending → Type 0 };

    /// A call listened to an exchange, and this was heard: the sockets before, the exchange, what was heard, the sockets after.
    ghost listens: { Self → L → Listened → Self → Type 0 };

    /// The port of name servers that are known by name.
    fn server_port(&self) -> u16
        ensures { result ≡ server_port self.now };

    /// How many finds of a response from a server of this zone may be handed to the desk. It bounds what the zone may bring to the
    /// cache, and no answer depends on it.
    fn allowance(&self, zone: &Name) -> Allowance;

    /// Learns of an event that is handed to the desk for a question.
    fn note(&self, event: &Event);

    /// A buffer for a reply. The reply replaces whatever octets it holds.
    fn buffer(&mut self) -> Vec<u8>
        ensures counts { counts self.new ≡ counts self.old }
        ensures keeps { Keeps server_port outbox self.old self.new };

    /// Begins an exchange, which is watched under the key. `hunt` is the list of servers that has the server, if it is known. Returns
    /// `None` if it could not begin.
    fn open(
        &mut self,
        key: usize,
        server: &Addr,
        hunt: Option<&Hunt>,
        over: Over,
        query: Shared<Octets>,
    ) -> Option<L>
        ensures asked { IfSome result (λ line. L.asked line ≡ query_to server.now over query) }
        ensures watched { IfSome result (λ line. L.key line ≡ key) }
        ensures listed { (line : L) → result ≡ Some line → L.listed line (option_copied hunt.entry) }
        ensures opened { OnSome result (CountsOpened (counts self.old) (counts self.new)) }
        ensures unopened { IfNone result (counts self.new ≡ counts self.old) }
        ensures failed { IfNone result (L.hears (query_to server.now over query) None) }
        ensures keeps { Keeps server_port outbox self.old self.new };

    /// Listens to an exchange, without waiting.
    fn hear(&mut self, line: &mut L) -> Listened
        ensures heard { IsHeard (L.hears (L.asked line.old)) result }
        ensures asked { L.asked line.new ≡ L.asked line.old }
        ensures watched { L.key line.new ≡ L.key line.old }
        ensures listed { (hunt : Option Hunt) → L.listed line.old hunt → L.listed line.new hunt }
        ensures listens { listens self.old line.old result self.new }
        ensures listened { CountsListened result (counts self.old) (counts self.new) }
        ensures keeps { Keeps server_port outbox self.old self.new };

    /// Ends an exchange because its time is up.
    fn expire(&mut self, line: L)
        ensures failed { L.hears (L.asked line) None }
        ensures expired { CountsExpired (counts self.old) (counts self.new) }
        ensures keeps { Keeps server_port outbox self.old self.new };

    /// Ends an exchange because its question ends.
    fn abandon(&mut self, line: L)
        ensures abandoned { CountsAbandoned (counts self.old) (counts self.new) }
        ensures keeps { Keeps server_port outbox self.old self.new };

    /// Sends a client the reply to its octets, now or later. It may be lost on the way.
    fn give(&mut self, client: K, octets: &[u8], reply: ReplyOctets)
        requires own { K.sent client octets.now }
        requires told { IsToldTo D.calls D.seen L.hears C.ticks K.since K.over client (server_port self.old)
            octets.now (octets_of reply) }
        requires short { length (octets_of reply) ≤ most_octets (K.over client) }
        ensures { Settles server_port counts outbox posts client (Some (octets_of reply)) self.old self.new };

    /// Sends the client of a cause SERVFAIL (RFC 1035, section 4.1.1, RCODE 2), by the header alone. Octets with a fault of their own
    /// never get it.
    fn fail(&mut self, cause: Cause<K>, octets: &[u8])
        requires own { K.sent cause.client octets.now }
        requires good { IsGood octets.now }
        ensures { Settles server_port counts outbox posts cause.client (Some (fault_octets octets.now 2)) self.old self.new };

    /// Drops a client that is owed no reply.
    fn pass_over(&mut self, client: K, octets: &[u8])
        requires own { K.sent client octets.now }
        requires untold { IsUntold D.calls D.seen L.hears C.ticks (K.since client) (server_port self.old) octets.now }
        ensures { Settles server_port counts outbox posts client None self.old self.new };
}
