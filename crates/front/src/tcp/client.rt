//! The client of a message that came by a connection.

ghost use Rattle.std.specs.Prelude.{◌≡◌};

use crate::tcp::client_stream::ClientStream;
use dns_query::Over;
use flight::{Client, Numbered};
use replies::WholeMessage;
use std::marker::PhantomData;
use std::snapshot::Snapshot;

/// The client of a message that came by a connection, which waits for its reply. A worker makes one client of each message. It names
/// its connection by a number that no other ever has: once that has ended, the reply is dropped.
#[derive(Drop)]
pub struct TcpClient<S> {
    /// The key of its connection.
    key: usize,
    /// The number of its connection.
    serial: u64,
    network: u64,
    message: Snapshot<WholeMessage>,
    /// The number of the latest call that the worker's desk knew of when this client was made.
    since: u64,
    /// Its message came by such a connection.
    stream: PhantomData<S>,
}

impl<S> TcpClient<S> {
    /// The client of a message. The message came before this desk made a later call.
    pub fn new<D: Numbered>(
        key: usize,
        serial: u64,
        network: u64,
        message: &WholeMessage,
        desk: &D,
    ) -> TcpClient<S>
        ensures key { result.key ≡ key }
        ensures serial { result.serial ≡ serial }
        ensures network { result.network ≡ network }
        ensures message { result.message.value ≡ message.now }
        ensures since { result.since ≡ D.seen desk.now }
    {
        TcpClient {
            key,
            serial,
            network,
            message: Snapshot::of(message),
            since: desk.seen(),
            stream: PhantomData,
        }
    }

    /// The key of its connection.
    pub fn key(&self) -> usize
        ensures { result ≡ self.now.key }
    {
        self.key
    }

    /// The number of its connection.
    pub fn serial(&self) -> u64
        ensures { result ≡ self.now.serial }
    {
        self.serial
    }
}

impl<S: ClientStream> Client for TcpClient<S> {
    ghost use Rattle.dns_query.specs.declared.over.Over.TheVariants.{Tcp};

    // It sent the octets of its message.
    ghost sent = { λ client octets. octets ≡ client.message.value };

    ghost over = { λ _. Tcp };

    ghost since = { λ client. client.since };

    ghost network = { λ client. client.network };

    fn over(&self) -> Over {
        Over::Tcp
    }

    fn since(&self) -> u64 {
        self.since
    }

    fn network(&self) -> u64 {
        self.network
    }
}
