//! The connections of a worker's clients.

ghost use Rattle.std.specs.Prelude.{◌≡◌, ◌≤◌, false, length, true, IfOk, IfSome, IsSomeAnd, IsTrue};
ghost use Rattle.flight.specs.Told.{octets_of};
ghost use Rattle.replies.specs.declared.limits.TheConstants.{MOST_MESSAGE};
ghost use Rattle.front.specs.Connections.{IsFlushed, IsGone, Owes, Tends, connection_at, no_connections};
ghost use Rattle.front.specs.Memory.{KeepLittle, KeepsTooMuch, MayKeep};
ghost use Rattle.front.specs.Reading.{TakesFrom};

use crate::reply_sender::ReplySender;
use crate::tcp::arrived::Arrived;
use crate::tcp::client::TcpClient;
use crate::tcp::client_stream::ClientStream;
use crate::tcp::connection::Connection;
use crate::tcp::marks::{MOST_WAITING, Marks};
use crate::tcp::table::ConnectionTable;
use crate::tcp::taken::TakenMessage;
use dns_text::NoMemory;
use flight::ReplyOctets;
use log::Log;
use mio::{Registry, Token};
use replies::MOST_DATAGRAM;
use std::alloc::Global;
use std::marker::Model;
use std::mem;

/// The octets that one call reads of a connection at most.
const ROOM: usize = 4096;

/// The least token of a connection, which is that of the one under the key 0. Exchanges are reported under their keys, of which there are
/// far fewer.
const FIRST_TOKEN: usize = 1 << 32;

/// The greatest part of all places that one network holds while others want places: one in so many.
pub const NETWORK_PART: usize = 4;

/// The most octets of memory that the connections of a worker keep beyond what each may keep at rest, for messages that have begun and for
/// what is owed. A connection that would go beyond it ends.
pub const MOST_KEPT: usize = 24 << 20;

/// The connections of a worker's clients. Contracts see those that are open, and the number of the next.
#[derive(Drop)]
pub struct TcpFront<S: ClientStream> {
    alloc: Global,
    table: ConnectionTable<S>,
    marks: Marks,
    /// The most connections.
    limit: usize,
    /// The room into which octets are read.
    room: Vec<u8>,
    /// The buffer of the last reply.
    spare: Vec<u8>,
    /// The moment, in milliseconds.
    moment: u64,
}

impl<S: ClientStream> Model for TcpFront<S> {
    ghost use Rattle.std.specs.Prelude.{◌≡◌, vec_len};
    ghost use Rattle.front.specs.Connections.{ConnectionsState};
    ghost use Rattle.front.specs.declared.tcp.tcp_front.TheConstants.{ROOM};

    ghost Value = { ConnectionsState S };

    ghost view = { λ front. record { slots = front.table.connections.slots; next = front.table.next } };

    ghost invariant = { λ front. vec_len front.room ≡ ROOM };
}

/// The key of the connection that a token names, if it names one.
pub fn key_of(token: Token) -> Option<usize> {
    token.0.checked_sub(FIRST_TOKEN)
}

impl<S: ClientStream> TcpFront<S> {
    /// No connections. At most `limit` may be open.
    pub fn new(alloc: Global, limit: usize) -> Result<TcpFront<S>, NoMemory>
        ensures { IfOk result (λ front. front ≡ no_connections) }
    {
        Ok(TcpFront {
            alloc,
            table: ConnectionTable::new(alloc),
            marks: Marks::new(alloc),
            limit,
            room: Vec::from_elem(alloc, 0u8, ROOM)?,
            spare: Vec::new(alloc),
            moment: 0,
        })
    }

    /// Sets the moment, in milliseconds.
    pub fn set_now(&mut self, now: u64)
        ensures { self.new ≡ self.old }
    {
        self.moment = now;
    }

    /// Puts a connection into the queue of those that are to be served.
    pub fn queue(&mut self, key: usize)
        ensures { self.new ≡ self.old }
    {
        self.marks.queue(key);
    }

    /// The number of connections that are to be served.
    pub fn queued(&self) -> usize {
        self.marks.queued()
    }

    /// Takes the next connection out of the queue.
    pub fn next_queued(&mut self) -> Option<usize>
        ensures { self.new ≡ self.old }
    {
        self.marks.next()
    }

    /// Whether the connection under a key is open and has this number.
    fn has(&self, key: usize, serial: u64) -> bool
        ensures open { result ≡ true → IsSomeAnd (connection_at self.now key) (λ connection. connection.serial ≡ serial) }
        ensures gone { result ≡ false → IsGone key serial self.now }
    {
        match self.table.connections().get(key) {
            Some(connection) => connection.serial() == serial,
            None => false,
        }
    }

    /// Whether a connection may be kept beside these: all of them together keep no more than they may, beyond what each may keep at rest.
    fn may_keep(&self, connection: &Connection<S>) -> bool
        ensures yes { IsTrue result → MayKeep connection.now.kept self.now.slots }
        ensures no { ¬ (IsTrue result) → KeepsTooMuch connection.now.kept self.now.slots }
    {
        connection.beyond() <= MOST_KEPT - self.table.beyond()
    }

    /// The law of what its connections keep. It does nothing.
    pub fn keep_little(&self)
        ensures { KeepLittle self.now }
    {
        let _ = self.table.beyond();
    }

    /// Writes what a connection is owed, as far as it takes octets. It ends if that fails.
    pub fn write_on(&mut self, key: usize)
        ensures tends { Tends S.reads S.writes self.old self.new }
        ensures flushed { IfSome (connection_at self.new key) (IsFlushed S.drained) }
    {
        let Some(mut connection) = self.table.take(key) else {
            return;
        };
        if connection.write_on(self.alloc, self.moment).is_ok() {
            self.table.put_back(connection);
        }
    }

    /// Whether a connection is read now: nothing is owed to it, and not too many of its questions wait.
    fn may_read(&self, key: usize, connection: &Connection<S>) -> bool {
        !connection.has_ended() && connection.owes_none() && self.marks.waiting(key) < MOST_WAITING
    }

    /// Whether a connection that is not read now is kept: until one of its questions has its reply, or what is owed has left. If the
    /// client sends no more and is owed nothing, the connection ends.
    fn is_wanted(&self, key: usize, connection: &Connection<S>) -> bool {
        !connection.has_ended() || !connection.owes_none() || self.marks.waiting(key) > 0
    }

    /// Takes the next message of a connection, by one call that reads. It ends if that fails, or if the connections would keep too much.
    pub fn take_message(&mut self, key: usize) -> TakenMessage
        ensures { TakesFrom S.reads S.writes key result self.old self.new }
    {
        let Some(mut connection) = self.table.take(key) else {
            return TakenMessage::Nothing;
        };
        if !self.may_read(key, &connection) {
            if self.is_wanted(key, &connection) {
                self.marks.stall(key);
                self.table.put_back(connection);
            }
            return TakenMessage::Nothing;
        }
        let Ok(arrived) = connection.read_next(self.alloc, &mut self.room, self.moment) else {
            return TakenMessage::Nothing;
        };
        if !self.may_keep(&connection) {
            return TakenMessage::Nothing;
        }
        let serial = connection.serial();
        let network = connection.network();
        self.table.put_back(connection);
        match arrived {
            Arrived::Nothing => TakenMessage::Nothing,
            Arrived::Part | Arrived::End => TakenMessage::More,
            Arrived::Message(message) => {
                self.marks.wait(key);
                TakenMessage::Message(serial, network, message)
            }
        }
    }

    /// Has a connection owe a reply, and writes as far as it takes octets. It ends if there is no memory for the reply, if writing fails,
    /// or if the connections would keep too much.
    fn owe(&mut self, key: usize, serial: u64, reply: &[u8])
        requires { length reply.now ≤ MOST_MESSAGE }
        ensures { Owes S.reads S.writes S.drained key serial reply.now self.old self.new }
    {
        if !self.has(key, serial) {
            return;
        }
        let Some(mut connection) = self.table.take(key) else {
            return;
        };
        self.marks.settle(key);
        if connection.owe(reply, self.moment).is_err() {
            return;
        }
        if connection.write_on(self.alloc, self.moment).is_ok() && self.may_keep(&connection) {
            self.table.put_back(connection);
        }
    }

    /// The key of the connection that has been quiet longest: of those of one network if that holds more than its part, and else of all.
    fn quietest(&self, network: u64) -> Option<usize> {
        let mut held = 0usize;
        let mut own = None;
        let mut own_since = u64::MAX;
        let mut any = None;
        let mut any_since = u64::MAX;
        for (key, connection) in self.table.connections().iter() {
            let since = connection.quiet_since();
            if connection.network() == network {
                held = held.saturating_add(1);
                if since < own_since || own.is_none() {
                    own = Some(key);
                    own_since = since;
                }
            }
            if since < any_since || any.is_none() {
                any = Some(key);
                any_since = since;
            }
        }
        if held >= self.limit / NETWORK_PART && own.is_some() {
            return own;
        }
        any
    }

    /// Ends the connection that has been quiet longest, if no place is free for one of this network.
    fn free_place(&mut self, network: u64)
        ensures { Tends S.reads S.writes self.old self.new }
    {
        if self.table.len() < self.limit {
            return;
        }
        if let Some(key) = self.quietest(network) {
            drop(self.table.take(key));
        }
    }

    /// Begins a connection, of a client of this network, and has the poll report it. If all places are taken, the one ends that has been
    /// quiet longest.
    pub fn begin(&mut self, registry: &Registry, mut stream: S, network: u64)
        ensures { Tends S.reads S.writes self.old self.new }
    {
        self.free_place(network);
        let Ok(serial) = self.table.make_room() else {
            return;
        };
        let key = self.table.vacant_key();
        let Some(token) = key.checked_add(FIRST_TOKEN) else {
            return;
        };
        if self.marks.begin(key).is_err() || stream.watch(registry, Token(token)).is_err() {
            return;
        }
        self.table.begin(Connection::new(self.alloc, stream, serial, network, self.moment));
        self.marks.queue(key);
    }

    /// Whether the time of the connection under a key is up.
    fn is_overdue(&self, key: usize) -> bool {
        let is_waiting = self.marks.waiting(key) > 0;
        match self.table.connections().get(key) {
            Some(connection) => connection.is_overdue(self.moment, is_waiting),
            None => false,
        }
    }

    /// Ends each connection whose time is up.
    pub fn expire(&mut self)
        ensures { Tends S.reads S.writes self.old self.new }
    {
        for key in 0..self.table.connections().capacity() {
            if self.is_overdue(key) {
                drop(self.table.take(key));
            }
        }
    }
}

impl<S: ClientStream> ReplySender<TcpClient<S>> for TcpFront<S> {
    ghost use Rattle.front.specs.Connections.{Owes};

    // To the connection by which the client's message came, unless that has ended.
    ghost posts = { λ old client reply new. Owes S.reads S.writes S.drained client.key client.serial reply old new };

    fn reply_buffer(&mut self, alloc: Global) -> Vec<u8> {
        mem::replace(&mut self.spare, Vec::new(alloc))
    }

    fn send_reply<R: Log>(&mut self, _rt: &R, client: TcpClient<S>, reply: ReplyOctets) {
        self.owe(client.key(), client.serial(), reply.as_slice());
        if let ReplyOctets::Message(buffer) = reply {
            if buffer.capacity() <= MOST_DATAGRAM {
                self.spare = buffer;
            }
        }
    }

    fn drop_client(&mut self, client: TcpClient<S>) {
        if self.has(client.key(), client.serial()) {
            self.marks.settle(client.key());
        }
    }
}
