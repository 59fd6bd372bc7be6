//! The connection of a client.

ghost use Rattle.std.specs.Prelude.{◌≡◌, ◌<◌, ◌≤◌, ◌↔◌, ◌-◌, [], ◌∷◌, false, length, IfOk, IsTrue, OnOk};
ghost use Rattle.replies.specs.declared.limits.TheConstants.{MOST_MESSAGE};
ghost use Rattle.front.specs.Arrivals.{Arrives, OnNothing};
ghost use Rattle.front.specs.Connections.{IsFlushed, Serves, fresh};
ghost use Rattle.front.specs.declared.tcp.owed_replies.TheConstants.{MOST_AT_REST};

use crate::tcp::arrived::Arrived;
use crate::tcp::client_stream::ClientStream;
use crate::tcp::owed_replies::{MOST_AT_REST, OwedReplies};
use crate::tcp::times::Times;
use dns_text::NoMemory;
use replies::BegunMessage;
use std::alloc::Global;
use std::io;
use std::io::ErrorKind;
use std::marker::Model;
use system::would_wait;

/// The most calls that write to a connection before it is given up. A call writes one octet at least, unless a signal ends it.
const MOST_WRITES: u32 = 70_000;

/// The connection of a client. Contracts see the connection itself, its number, the network of its client, what has come of the next
/// message, what is owed, and how many octets of memory it keeps. It closes when it is dropped.
#[derive(Drop)]
pub(crate) struct Connection<S: ClientStream> {
    stream: S,
    serial: u64,
    network: u64,
    begun: BegunMessage,
    owed: OwedReplies,
    times: Times,
}

impl<S: ClientStream> Model for Connection<S> {
    ghost use Rattle.std.specs.Prelude.{◌+◌, ◌<◌, length, vec_capacity};
    ghost use Rattle.replies.specs.Sizing.{capped};
    ghost use Rattle.replies.specs.Wanting.{framed_size};
    ghost use Rattle.front.specs.Connections.{ConnectionState};

    ghost Value = { ConnectionState S };

    ghost view = { λ connection. record {
      stream = connection.stream;
      serial = connection.serial;
      network = connection.network;
      begun = connection.begun.octets.items;
      owed = connection.owed.octets;
      kept = capped (vec_capacity connection.begun.octets + connection.owed.kept);
    } };

    // A message is taken as soon as it is whole.
    ghost invariant = { λ connection. length connection.begun.octets.items < framed_size connection.begun.octets.items };
}

impl<S: ClientStream> Connection<S> {
    /// A connection that begins at this moment, in milliseconds.
    pub fn new(alloc: Global, stream: S, serial: u64, network: u64, now: u64) -> Connection<S>
        ensures { result ≡ fresh stream serial network }
    {
        Connection {
            stream,
            serial,
            network,
            begun: BegunMessage::new(alloc),
            owed: OwedReplies::new(alloc),
            times: Times::new(now),
        }
    }

    /// The number of the connection.
    pub fn serial(&self) -> u64
        ensures { result ≡ self.now.serial }
    {
        self.serial
    }

    /// The network of the client.
    pub fn network(&self) -> u64
        ensures { result ≡ self.now.network }
    {
        self.network
    }

    /// Whether it is owed nothing.
    pub fn owes_none(&self) -> bool
        ensures { IsTrue result ↔ (self.now.owed ≡ []) }
    {
        self.owed.is_empty()
    }

    /// Whether the client sends no more.
    pub fn has_ended(&self) -> bool {
        self.times.has_ended()
    }

    /// The moment from which on nothing came whole and nothing left, in milliseconds.
    pub fn quiet_since(&self) -> u64 {
        self.times.quiet_since()
    }

    /// The octets of memory that it keeps, for the message that has begun and for what is owed.
    fn kept(&self) -> usize
        ensures { result ≡ self.now.kept }
    {
        self.begun.kept().saturating_add(self.owed.kept())
    }

    /// How many of them it keeps beyond what it may keep at rest.
    pub fn beyond(&self) -> usize
        ensures { result ≡ self.now.kept - MOST_AT_REST }
    {
        self.kept().saturating_sub(MOST_AT_REST)
    }

    /// Whether its time is up at this moment: a message has been coming for too long, what is owed is not taken, or it has been idle for
    /// too long. It is not idle while a question of it waits.
    pub fn is_overdue(&self, now: u64, is_waiting: bool) -> bool {
        self.times.is_overdue(now, self.begun.is_empty(), self.owed.is_empty(), is_waiting)
    }

    /// Reads once, into the front of the room and then into the message that comes, and nothing behind that message. After an error it is
    /// of no more use.
    pub fn read_next(&mut self, alloc: Global, room: &mut [u8], now: u64) -> io::Result<Arrived>
        requires { 0 < length room.old }
        ensures arrives { IfOk result (λ arrived. Arrives S.reads S.writes arrived self.old self.new) }
        ensures drained { IfOk result (OnNothing S.drained) }
    {
        let most = self.begun.wanting().min(room.len());
        match self.stream.read_octets(&mut room[..most]) {
            Ok(0) => {
                self.times.end();
                Ok(Arrived::End)
            }
            Ok(count) => {
                self.times.begin(now, self.begun.is_empty());
                self.begun.add(&room[..count])?;
                match self.begun.take(alloc) {
                    Some(message) => {
                        self.times.note(now);
                        Ok(Arrived::Message(message))
                    }
                    None => Ok(Arrived::Part),
                }
            }
            Err(error) => {
                if would_wait(error)? {
                    Ok(Arrived::Nothing)
                } else {
                    Ok(Arrived::Part)
                }
            }
        }
    }

    /// Owes a reply, behind those that are owed. After an error it is of no more use.
    pub fn owe(&mut self, reply: &[u8], now: u64) -> Result<(), NoMemory>
        requires { length reply.now ≤ MOST_MESSAGE }
        ensures { OnOk result (Serves S.reads S.writes [] (reply.now ∷ []) self.old self.new) }
    {
        self.times.owe(now, self.owed.is_empty());
        self.owed.add(reply)
    }

    /// Writes once, of what is owed. Returns whether more is to be tried: false if nothing is owed any more, or nothing more can leave
    /// now. After an error it is of no more use.
    fn write_next(&mut self, alloc: Global, now: u64) -> io::Result<bool>
        ensures serves { OnOk result (Serves S.reads S.writes [] [] self.old self.new) }
        ensures flushed { IfOk result (λ more. more ≡ false → IsFlushed S.drained self.new) }
        ensures no_more { self.new.kept ≤ self.old.kept }
    {
        if self.owed.is_empty() {
            return Ok(false);
        }
        match self.owed.write_next(alloc, &mut self.stream) {
            Ok(0) => Err(io::Error::from(ErrorKind::WriteZero)),
            Ok(count) => {
                self.times.leave(now, count);
                Ok(true)
            }
            Err(error) => Ok(!would_wait(error)?),
        }
    }

    /// Writes what is owed, as far as the connection takes octets. After an error it is of no more use.
    pub fn write_on(&mut self, alloc: Global, now: u64) -> io::Result<()>
        ensures serves { OnOk result (Serves S.reads S.writes [] [] self.old self.new) }
        ensures flushed { OnOk result (IsFlushed S.drained self.new) }
        ensures no_more { self.new.kept ≤ self.old.kept }
    {
        for _ in 0..MOST_WRITES {
            if !self.write_next(alloc, now)? {
                return Ok(());
            }
        }
        Err(io::Error::from(ErrorKind::TimedOut))
    }
}
