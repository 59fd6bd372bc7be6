//! The sockets of one worker.

ghost use Rattle.std.specs.Prelude.{◌≡◌, ◌⊎◌, ◌≤◌, [], ◌∷◌, false, length, true, vec_len};
ghost use Rattle.std.specs.Prelude.{IfNone, IfOk, IfSome, OnErr};
ghost use Rattle.clock.specs.Moments.{millis_at};
ghost use Rattle.dns_wire.specs.declared.server.query.Asked.TheVariants.{Drop};
ghost use Rattle.dns_wire.specs.Server.Asking.{AsksFor};
ghost use Rattle.replies.specs.declared.limits.TheConstants.{MOST_MESSAGE};
ghost use Rattle.replies.specs.Reply.{fault_octets, most_octets};
ghost use Rattle.flight.specs.Counted.{CountsAbandoned, CountsExpired, CountsListened, CountsSettled, no_counts};
ghost use Rattle.flight.specs.Flight.{query_to};
ghost use Rattle.flight.specs.Told.{octets_of, IsHeard, Keeps};
ghost use Rattle.front_workers.specs.Endings.{IsTooLong, Refuses};
ghost use Rattle.front.specs.Batch.{batch_of};
ghost use Rattle.front.specs.Rooms.{fronts_of};
ghost use Rattle.front.specs.Connections.{Tends};
ghost use Rattle.front.specs.Moves.{AllMoved, datagram_to};
ghost use Rattle.front.specs.Outgoing.{Posts};
ghost use Rattle.outside.specs.Replies.{IsTooDear};
ghost use Rattle.front.specs.declared.inbox.TheConstants.{BATCH};

use crate::asking::AskingTerms;
use crate::report::{is_too_long, report_of};
use crate::table_seed::TableSeed;
use crate::tally::Tally;
use crate::worker_permits::{PERMIT_GLANCE, WorkerPermits};
use crate::zone_shares::ZoneShares;
use clock::{Clock, MonotonicClock, glance};
use dns_name::Name;
use dns_query::Over;
use dns_text::{Addr, NoMemory, Octets, Shared};
use dns_wire::Rcode;
use flight::{Cause, Client, Counts, InFlight, Listened, Numbered, ReplyOctets, Sockets, Unserved};
use front::{BATCH, ClientStream, Inbox, Outbox, ReplySender, ServiceSocket, TcpFront, network_of};
use history::{Event, Servers};
use iterate::{Allowance, Hunt};
use log::{Log, warn};
use mio::{Events, Poll, Registry, Token};
use outside::{
    Pauses, Permit, PermittedNet, ReadyNet, Refusals, SocketLine, WITHHELD, is_withheld,
    list_of_strangers, log_exchange, log_too_long, note_heard, others_of,
};
use replies::{MOST_MESSAGE, wants_reply};
use std::alloc::Global;
use std::io;
use std::net::SocketAddr;
use std::sync::Wait;
use std::sync::atomic::{AtomicU64, Ordering};
use std::time::Duration;
use system::{AddressRange, DEVICE_FAULT, cause_of};

/// The sockets of one worker: those by which replies leave, and those of its exchanges. It opens one only for a permit.
#[derive(Drop)]
pub(crate) struct WorkerSockets<'a, L, R, B> {
    /// Takes log lines, and waits for locks.
    rt: &'a L,
    /// The network of name servers.
    net: PermittedNet<'a, R>,
    /// The counters that others read.
    pub(crate) tally: &'a Tally,
    alloc: Global,
    /// Watches the sockets of clients and those of the exchanges.
    poll: Poll,
    /// The address at which the service listens.
    place: SocketAddr,
    /// What sends replies to clients.
    pub(crate) outbox: B,
    server_port: u16,
    /// The room for a reply of a name server.
    room: Vec<u8>,
    /// The addresses that are queried only as those of stubs or hints.
    do_not_query: &'a [AddressRange],
    /// Which servers are passed over, for which questions, and until when.
    pauses: Pauses,
    /// Which servers refused which zones lately.
    refusals: Refusals,
    /// The permits of the exchanges.
    permits: WorkerPermits<'a>,
    /// The shares of zones in the cache.
    shares: &'a ZoneShares,
    /// A number that rises whenever servers may have to be tried anew.
    renewals: &'a AtomicU64,
    /// That number when servers were tried anew last.
    renewed: u64,
    /// The moment of the exchanges that begin and end, in milliseconds.
    moment: u64,
    counts: Counts,
    ghost whole: { vec_len room ≡ MOST_MESSAGE },
}

impl<'a, L: Log, R, B: Drop> WorkerSockets<'a, L, R, B> {
    ghost use Rattle.front_workers.specs.Asking.{asking_at};
    ghost use Rattle.front_workers.specs.Sockets.{asking_of, AreSeeded};

    /// The sockets of a worker whose service listens at `place`. Strangers do not know the seed.
    pub fn new(
        rt: &'a L,
        net: PermittedNet<'a, R>,
        tally: &'a Tally,
        alloc: Global,
        poll: Poll,
        place: SocketAddr,
        outbox: B,
        asking: AskingTerms<'a>,
        seed: TableSeed,
    ) -> Result<WorkerSockets<'a, L, R, B>, NoMemory>
        ensures asks { IfOk result (λ sockets. asking_of sockets ≡ asking_at place asking.entry) }
        ensures counts { IfOk result (λ sockets. sockets.counts ≡ no_counts) }
        ensures outbox { IfOk result (λ sockets. sockets.outbox ≡ outbox) }
        ensures seed { IfOk result (AreSeeded seed) }
    {
        Ok(WorkerSockets {
            rt,
            net,
            tally,
            alloc,
            poll,
            place,
            outbox,
            server_port: asking.server_port,
            room: Vec::from_elem(alloc, 0u8, MOST_MESSAGE)?,
            do_not_query: asking.do_not_query,
            pauses: Pauses::new(alloc, seed.number())?,
            refusals: Refusals::new(alloc, seed.number())?,
            permits: WorkerPermits::new(alloc, asking.permits)?,
            shares: asking.shares,
            renewals: asking.renewals,
            renewed: asking.renewals.load(Ordering::SeqCst),
            moment: 0,
            counts: Counts::new(),
        })
    }

    /// Sets the moment of the exchanges that begin and end from now on: that at which the clock was read last. If servers may have to
    /// be tried anew, it forgets which were silent.
    pub fn set_now<T>(&mut self, clock: &MonotonicClock<'_, T>)
        ensures now { self.new.moment ≡ millis_at clock.now.last }
        ensures asks { asking_of self.new ≡ asking_of self.old }
        ensures counts { self.new.counts ≡ self.old.counts }
        ensures kept { self.new.outbox ≡ self.old.outbox }
    {
        self.moment = clock.last_millis();
        let renewals = self.renewals.load(Ordering::SeqCst);
        if renewals != self.renewed {
            self.renewed = renewals;
            self.pauses.forget();
        }
    }

    /// How long a wait may take: not long while an exchange waits for a permit, which another worker may give back.
    pub fn most_wait(&self) -> Duration {
        if self.permits.are_wanted() {
            return Duration::from_millis(PERMIT_GLANCE);
        }
        glance()
    }

    /// The key of an exchange that waits for a permit which is free by now.
    pub fn next_permitted(&mut self) -> Option<usize>
        ensures asks { asking_of self.new ≡ asking_of self.old }
        ensures counts { self.new.counts ≡ self.old.counts }
        ensures kept { self.new.outbox ≡ self.old.outbox }
    {
        self.permits.next(self.moment)
    }

    /// Sends SERVFAIL to the client of a query that would take too long to read. Other octets, and responses, never get it.
    pub fn refuse_dear<K: Client>(&mut self, client: K, octets: &[u8])
    where
        B: ReplySender<K>,
        requires own { K.sent client octets.now }
        requires dear { IsTooDear octets.now }
        requires owed { ¬ (AsksFor octets.now Drop) }
        ensures asks { asking_of self.new ≡ asking_of self.old }
        ensures settled { CountsSettled self.old.counts self.new.counts }
        ensures posts { B.posts self.old.outbox client (fault_octets octets.now 2) self.new.outbox }
    {
        self.send_to(client, report_of(octets, Rcode::SERVER_FAILURE));
        warn!(self.rt; "resolver: a query is too dear to read");
        self.counts.settle();
    }

    /// Waits until a socket reports something, but no longer than this.
    pub fn wait(&mut self, events: &mut Events, most: Duration) -> io::Result<()>
        ensures asks { asking_of self.new ≡ asking_of self.old }
        ensures counts { self.new.counts ≡ self.old.counts }
        ensures kept { self.new.outbox ≡ self.old.outbox }
    {
        self.poll.poll(events, Some(most))
    }

    /// Sends a client its reply, and counts it.
    fn send_to<K: Client>(&mut self, client: K, reply: ReplyOctets)
    where
        B: ReplySender<K>,
        requires short { length (octets_of reply) ≤ most_octets (K.over client) }
        ensures posts { B.posts self.old.outbox client (octets_of reply) self.new.outbox }
        ensures asks { asking_of self.new ≡ asking_of self.old }
        ensures counts { self.new.counts ≡ self.old.counts }
    {
        self.tally.reply(reply.as_slice());
        self.outbox.send_reply(self.rt, client, reply);
    }

    /// Logs why a client gets SERVFAIL.
    fn log(&self, why: Unserved) {
        match why {
            Unserved::NoMemory => warn!(self.rt; "resolver: no memory"),
            Unserved::TooMany => {
                self.tally.exceed();
                warn!(self.rt; "resolver: too many exchanges");
            }
            Unserved::TooLong => {
                self.tally.exceed();
                warn!(self.rt; "resolver: a question took too long");
            }
            Unserved::TooLarge => {
                self.tally.exceed();
                warn!(self.rt; "resolver: a question kept too much");
            }
            // It never happens at one seat: no other line fits.
            Unserved::Elsewhere => warn!(self.rt; "{DEVICE_FAULT}"),
        }
    }
}

impl<'a, L: Log, R, S: ClientStream> WorkerSockets<'a, L, R, TcpFront<S>> {
    ghost use Rattle.front_workers.specs.Sockets.{asking_of};

    /// Begins the connection of a client at this address.
    pub fn begin_connection(&mut self, stream: S, peer: SocketAddr)
        ensures tends { Tends S.reads S.writes self.old.outbox self.new.outbox }
        ensures asks { asking_of self.new ≡ asking_of self.old }
        ensures counts { self.new.counts ≡ self.old.counts }
    {
        self.outbox
            .begin(self.poll.registry(), stream, network_of(peer));
    }
}

impl<'a, L: Log, R, S: ServiceSocket> WorkerSockets<'a, L, R, Outbox<S>> {
    ghost use Rattle.front_workers.specs.Sockets.{asking_of};

    /// Sends a reply with the next batch, or at once if there is no memory for it to wait.
    fn send(&mut self, peer: SocketAddr, reply: ReplyOctets)
        ensures posts { Posts S.takes S.sends [] (datagram_to peer (octets_of reply) ∷ []) self.old.outbox self.new.outbox }
        ensures asks { asking_of self.new ≡ asking_of self.old }
        ensures counts { self.new.counts ≡ self.old.counts }
    {
        self.tally.reply(reply.as_slice());
        self.outbox.post(self.rt, peer, reply);
    }

    /// Sends each reply that waits. Then none waits.
    pub fn flush(&mut self)
        ensures none { self.new.outbox.waiting ≡ [] }
        ensures posts { Posts S.takes S.sends [] [] self.old.outbox self.new.outbox }
        ensures asks { asking_of self.new ≡ asking_of self.old }
        ensures counts { self.new.counts ≡ self.old.counts }
    {
        self.outbox.flush(self.rt);
    }

    /// Takes the datagrams that are there into an empty inbox, until it is full. Returns whether there may be more.
    pub fn receive(&mut self, inbox: &mut Inbox<S>) -> io::Result<bool>
        requires empty { inbox.old.filled ≡ 0 }
        ensures took { AllMoved S.takes (fronts_of (batch_of inbox.new)) self.old.outbox.socket self.new.outbox.socket }
        ensures waiting { self.new.outbox.waiting ≡ self.old.outbox.waiting }
        ensures asks { asking_of self.new ≡ asking_of self.old }
        ensures counts { self.new.counts ≡ self.old.counts }
        ensures drained { IfOk result (λ more. more ≡ false → S.drained) }
        ensures full { IfOk result (λ more. more ≡ true → S.interrupted ⊎ (inbox.new.filled ≡ BATCH)) }
        ensures failed { OnErr result S.failed }
    {
        self.outbox.receive(inbox)
    }

    /// Sends FORMERR to the sender of a datagram that is too long, unless the datagram is itself a reply.
    pub fn refuse(&mut self, peer: SocketAddr, front: &[u8])
        requires header { 12 ≤ length front.now }
        requires came { ∥ IsTooLong S.takes peer front.now ∥₁ }
        ensures refuses { Refuses S.takes S.sends peer front.now self.old.outbox self.new.outbox }
        ensures asks { asking_of self.new ≡ asking_of self.old }
        ensures counts { self.new.counts ≡ self.old.counts }
    {
        if wants_reply(front) {
            self.tally.take();
            self.tally.count_hit_or_miss();
            self.send(peer, report_of(front, Rcode::FORMAT_ERROR));
        }
    }
}

impl<'a, L: Log, R: ReadyNet, B: Drop> WorkerSockets<'a, L, R, B> {
    ghost use Rattle.front_workers.specs.Noting.{NotesNothing};
    ghost use Rattle.front_workers.specs.Servers.{AsksOrFails, CountsBegun};
    ghost use Rattle.front_workers.specs.Sockets.{sockets_of};

    /// Begins an exchange, for its permit and under the key of that. Returns `None` if it could not begin.
    fn begin(
        &mut self,
        permit: Permit,
        server: &Addr,
        list: Option<Shared<Servers>>,
        over: Over,
        query: Shared<Octets>,
    ) -> Option<SocketLine<R>>
        ensures asked { IfSome result (λ line. line.asked ≡ query_to server.now over query) }
        ensures watched { IfSome result (λ line. line.token.0 ≡ permit.key) }
        ensures sent { IfSome result (λ line. line.waits ≡ false) }
        ensures counts { CountsBegun result self.old.counts self.new.counts }
        ensures keeps { Keeps (λ sockets. sockets.server_port) sockets_of self.old self.new }
        ensures asks { AsksOrFails R.failed R.Datagrams.ReadySocket R.Connection.connected R.Connection.is_at R.Connection.failed
            self.old server.now over query result }
        // Nothing is noted of the server, and no further permit is asked for.
        ensures unnoted { NotesNothing self.old self.new }
    {
        let key = permit.key();
        self.tally.ask(over);
        let asked = query.share();
        match SocketLine::open(
            self.net.one_socket(permit),
            self.alloc,
            self.poll.registry(),
            Token(key),
            self.place,
            server,
            over,
            list,
            query,
            &mut self.counts,
        ) {
            Ok(line) => Some(line),
            Err(error) => {
                self.permits.end(key);
                self.tally.give_up();
                if let Ok(asked) = asked {
                    let cause = cause_of(&error);
                    log_exchange(self.rt, self.alloc, cause, server, asked.get().as_slice());
                }
                None
            }
        }
    }

    /// Counts and logs what was heard of an exchange, and gives its permit back if it has ended.
    fn tell_heard(&mut self, heard: &Listened, line: &SocketLine<R>)
        ensures counts { self.new.counts ≡ self.old.counts }
        ensures keeps { Keeps (λ sockets. sockets.server_port) sockets_of self.old self.new }
        ensures unnoted { NotesNothing self.old self.new }
        ensures moment { self.new.moment ≡ self.old.moment }
    {
        match heard {
            Listened::Nothing => return,
            Listened::Anew => {}
            Listened::Came(_) | Listened::NoMemory => self.tally.answer(),
            Listened::Broken => {
                self.tally.give_up();
                line.log_failure(self.rt, self.alloc, line.cause());
            }
        }
        self.permits.end(line.key());
    }
}

impl<'a, D: Numbered, C: Clock, L: Log + Wait, R: ReadyNet, K: Client, B: ReplySender<K>> Sockets<
    D,
    SocketLine<R>,
    C,
    K,
> for WorkerSockets<'a, L, R, B> {
    ghost use Rattle.std.specs.Prelude.{Some};
    ghost use Rattle.dns_wire.specs.Server.Asking.{IsGood};
    ghost use Rattle.front_workers.specs.Asking.{PostsBy, SocketsState};
    ghost use Rattle.front_workers.specs.Noting.{LosesReplyTo, NotesAnswerTo, NotesHeardOf, NotesNothing};
    ghost use Rattle.front_workers.specs.Servers.{Allows, CountsBegun, HeedsServer, IsLeftOut, TellsAt};
    ghost use Rattle.front_workers.specs.Sockets.{sockets_of, SettlesFor};

    ghost server_port = { λ sockets. sockets.server_port };

    ghost counts = { λ sockets. sockets.counts };

    // With the outbox, how the worker asks name servers: no call changes that.
    ghost Sending = { SocketsState B };

    ghost outbox = { sockets_of };

    ghost posts = { PostsBy B.posts };

    // What was heard is counted.
    ghost listens = { λ old _ heard new. CountsListened heard old.counts new.counts };

    fn server_port(&self) -> u16 {
        self.server_port
    }

    fn buffer(&mut self) -> Vec<u8> {
        self.outbox.reply_buffer(self.alloc)
    }

    fn allowance(&self, zone: &Name) -> Allowance {
        self.shares.allowance(self.rt, zone, self.moment)
    }

    fn note(&self, event: &Event) {
        self.shares.note(self.rt, event, self.moment);
    }

    fn open(
        &mut self,
        key: usize,
        server: &Addr,
        hunt: Option<&Hunt>,
        over: Over,
        query: Shared<Octets>,
    ) -> Option<SocketLine<R>>
        // As for any `Sockets`. Also, the server is not withheld and has not refused the zone lately, and if a query left, the service
        // may ask that server. There is an exchange unless that is so, the server is passed over, for every question or for this one, the
        // network failed, the address belongs to no host, the server is the service itself, or over TCP the query is too long. At most one
        // permit is asked for.
        ensures asked { IfSome result (λ line. line.asked ≡ query_to server.now over query) }
        ensures watched { IfSome result (λ line. line.token.0 ≡ key) }
        ensures counts { CountsBegun result self.old.counts self.new.counts }
        ensures unanswered { IfNone result (Unit {0}) }
        ensures keeps { Keeps (λ sockets. sockets.server_port) sockets_of self.old self.new }
        ensures may_ask { IfSome result (Allows R.Datagrams.ReadySocket R.Connection.connected R.Connection.is_at
            self.old server.now over hunt.entry) }
        ensures failed { IfNone result (IsLeftOut R.failed R.Datagrams.ReadySocket
            R.Connection.connected R.Connection.is_at R.Connection.failed self.old server.now over hunt.entry query) }
        ensures pauses { HeedsServer self.old server.now over hunt.entry query result self.new }
    {
        let octets = query.get().as_slice();
        if is_withheld(self.do_not_query, server, hunt) {
            log_exchange(self.rt, self.alloc, WITHHELD, server, octets);
            return None;
        }
        let list = list_of_strangers(hunt);
        if self.refusals.has_list(server, over, list, self.moment) {
            return None;
        }
        let shared = list.and_then(|list| list.share().ok());
        let permit = match self.permits.ask(key, octets) {
            Ok(permit) => permit,
            Err(refused) => {
                self.tally.put_off();
                return Some(SocketLine::waiting(
                    refused,
                    Token(key),
                    server,
                    over,
                    shared,
                    query,
                    &mut self.counts,
                ));
            }
        };
        if !self.pauses.lets_through(
            self.alloc,
            server,
            others_of(hunt),
            over,
            octets,
            self.moment,
        ) {
            self.permits.end(key);
            return None;
        }
        self.begin(permit, server, shared, over, query)
    }

    fn hear(&mut self, line: &mut SocketLine<R>) -> Listened
        // As for any `Sockets`. Also, what is told of the exchange is so, and a server that answered is not passed over any more. No
        // permit is asked for.
        ensures heard { IsHeard (⟦<SocketLine<R> as InFlight>⟧.hears line.old.asked) result }
        ensures asked { line.new.asked ≡ line.old.asked }
        ensures watched { line.new.token.0 ≡ line.old.token.0 }
        ensures listened { CountsListened result self.old.counts self.new.counts }
        ensures keeps { Keeps (λ sockets. sockets.server_port) sockets_of self.old self.new }
        ensures tells { TellsAt (⟦<SocketLine<R> as InFlight>⟧.hears line.old.asked) R.Datagrams.ReadySocket result line.old }
        ensures refusals { NotesAnswerTo result line.old.asked line.old.zone self.old self.new }
        ensures pauses { NotesHeardOf result line.new.flaw line.old.asked self.old.moment self.old.pauses self.new.pauses }
    {
        let heard = line.hear(self.alloc, self.poll.registry(), &mut self.room);
        self.counts.listen(&heard);
        note_heard(
            self.alloc,
            &mut self.pauses,
            &heard,
            line.flaw(),
            &line.server(),
            line.over(),
            line.query(),
            self.moment,
        );
        self.tell_heard(&heard, line);
        self.refusals.note_heard(
            &heard,
            &line.server(),
            line.over(),
            line.zone(),
            self.moment,
        );
        heard
    }

    fn expire(&mut self, line: SocketLine<R>)
        // As for any `Sockets`. Also, the server let a query go unanswered, unless none was sent. No permit is asked for.
        ensures expired { CountsExpired self.old.counts self.new.counts }
        ensures keeps { Keeps (λ sockets. sockets.server_port) sockets_of self.old self.new }
        ensures unsent { line.waits ≡ true → self.new.pauses ≡ self.old.pauses }
        ensures pauses { line.waits ≡ false → LosesReplyTo line.asked self.old.moment self.old.pauses self.new.pauses }
        ensures unasked { self.new.permits.asked ≡ self.old.permits.asked }
    {
        self.permits.end(line.key());
        self.counts.expire();
        if line.waits() {
            return;
        }
        self.pauses.note_unanswered(
            self.alloc,
            &line.server(),
            line.over(),
            line.query(),
            self.moment,
        );
        self.tally.give_up();
        line.log_failure(self.rt, self.alloc, "timed out");
    }

    fn abandon(&mut self, line: SocketLine<R>)
        // As for any `Sockets`. Also, nothing is noted of the server, and no permit is asked for.
        ensures abandoned { CountsAbandoned self.old.counts self.new.counts }
        ensures keeps { Keeps (λ sockets. sockets.server_port) sockets_of self.old self.new }
        ensures unnoted { NotesNothing self.old self.new }
    {
        self.permits.end(line.key());
        self.counts.abandon();
        if !line.waits() {
            self.tally.give_up();
        }
    }

    fn give(&mut self, client: K, octets: &[u8], reply: ReplyOctets) {
        if is_too_long(&reply) {
            log_too_long(self.rt, self.alloc, octets);
        }
        self.send_to(client, reply);
        self.counts.settle();
    }

    fn fail(&mut self, cause: Cause<K>, octets: &[u8])
        requires own { K.sent cause.client octets.now }
        requires good { IsGood octets.now }
        ensures { SettlesFor B.posts cause.client (Some (fault_octets octets.now 2)) self.old self.new }
    {
        self.log(cause.why());
        let client = cause.into_client();
        self.send_to(client, report_of(octets, Rcode::SERVER_FAILURE));
        self.counts.settle();
    }

    fn pass_over(&mut self, client: K, _octets: &[u8]) {
        self.outbox.drop_client(client);
        self.tally.pass_over();
        self.counts.settle();
    }
}
