//! The table of connections.

ghost use Rattle.std.specs.Prelude.{◌≡◌, ◌≢◌, ◌+◌, ◌<◌, ◌≤◌, ◌^◌, [], ℕ, None, Some, IfNone, IfOk, IfSome, OnOk};
ghost use Rattle.slab.specs.Slab.{HasRoomFor, Updates, get};
ghost use Rattle.front.specs.declared.tcp.tcp_front.TheConstants.{MOST_KEPT};
ghost use Rattle.front.specs.Connections.{AreNumbered};
ghost use Rattle.front.specs.Memory.{AreWithin, MayKeep, beyond_all};

use crate::tcp::client_stream::ClientStream;
use crate::tcp::connection::Connection;
use dns_text::NoMemory;
use slab::Slab;
use std::alloc::Global;

/// The connections of a worker, and the number of the next one.
#[derive(Drop)]
pub(crate) struct ConnectionTable<S: ClientStream> {
    connections: Slab<Connection<S>>,
    next: u64,
    /// The octets of memory that the connections keep beyond what each may keep at rest, together.
    beyond: usize,
    ghost numbered: { AreNumbered connections.slots next },
    ghost within: { AreWithin connections.slots beyond },
}

impl<S: ClientStream> ConnectionTable<S> {
    /// No connection.
    pub fn new(alloc: Global) -> ConnectionTable<S>
        ensures kept { result.connections.slots ≡ [] }
        ensures next { result.next ≡ 0 }
    {
        ConnectionTable {
            connections: Slab::new(alloc),
            next: 0,
            beyond: 0,
        }
    }

    /// The number of connections.
    pub fn len(&self) -> usize {
        self.connections.len()
    }

    /// The octets of memory that the connections keep beyond what each may keep at rest, together. They are kept for messages that have
    /// begun and for what is owed.
    pub fn beyond(&self) -> usize
        ensures sum { result ≡ beyond_all self.now.connections.slots }
        ensures most { result ≤ MOST_KEPT }
    {
        self.beyond
    }

    /// The connections, each with its key.
    pub fn connections(&self) -> &Slab<Connection<S>>
        ensures { result.now ≡ self.now.connections }
    {
        &self.connections
    }

    /// The number of the next connection, if there is one and there is memory for it. It fails after 2^64 connections.
    pub fn make_room(&mut self) -> Result<u64, NoMemory>
        ensures serial { IfOk result (λ serial. serial ≡ self.old.next) }
        ensures last { OnOk result (self.old.next + 1 < 2 ^ 64) }
        ensures room { OnOk result (HasRoomFor self.new.connections 1) }
        ensures kept { self.new.connections.slots ≡ self.old.connections.slots }
        ensures next { self.new.next ≡ self.old.next }
    {
        if self.next == u64::MAX {
            return Err(std::alloc::AllocError);
        }
        self.connections.reserve(1)?;
        Ok(self.next)
    }

    /// The key that the next connection gets.
    pub fn vacant_key(&self) -> usize
        ensures { result ≡ self.now.connections.vacant_key }
    {
        self.connections.vacant_key()
    }

    /// Keeps a connection that begins.
    pub fn begin(&mut self, connection: Connection<S>)
        requires room { HasRoomFor self.old.connections 1 }
        requires number { connection.serial ≡ self.old.next }
        requires last { self.old.next + 1 < 2 ^ 64 }
        requires small { MayKeep connection.kept self.old.connections.slots }
        ensures free { get self.old.connections self.old.connections.vacant_key ≡ None }
        ensures updates { Updates self.old.connections self.new.connections self.old.connections.vacant_key (Some connection) }
        ensures next { self.new.next ≡ self.old.next + 1 }
    {
        self.next += 1;
        self.beyond += connection.beyond();
        let _ = self.connections.insert_reserved(connection);
    }

    /// Takes out the connection under a key.
    pub fn take(&mut self, key: usize) -> Option<Connection<S>>
        ensures was { result ≡ get self.old.connections key }
        ensures updates { Updates self.old.connections self.new.connections key None }
        ensures room { IfSome result (λ _. HasRoomFor self.new.connections 1 × (self.new.connections.vacant_key ≡ key)) }
        ensures number { IfSome result (λ connection. connection.serial < self.old.next) }
        ensures small { IfSome result (λ connection. MayKeep connection.kept self.new.connections.slots) }
        ensures none { IfNone result (self.new.connections ≡ self.old.connections) }
        ensures next { self.new.next ≡ self.old.next }
    {
        let connection = self.connections.get(key)?;
        self.beyond -= connection.beyond();
        self.connections.try_remove(key)
    }

    /// Puts back the connection that was taken out last.
    pub fn put_back(&mut self, connection: Connection<S>)
        requires room { HasRoomFor self.old.connections 1 }
        requires number { connection.serial < self.old.next }
        requires small { MayKeep connection.kept self.old.connections.slots }
        ensures updates { Updates self.old.connections self.new.connections self.old.connections.vacant_key (Some connection) }
        ensures next { self.new.next ≡ self.old.next }
    {
        self.beyond += connection.beyond();
        let _ = self.connections.insert_reserved(connection);
    }
}
