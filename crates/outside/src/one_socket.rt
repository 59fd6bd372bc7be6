//! The right to open one socket.

ghost use Rattle.std.specs.Prelude.{IfOk, OnErr};

use crate::permits::Permit;
use crate::ready_net::ReadyNet;
use mio::{Registry, Token};
use std::io;
use std::net::SocketAddr;

/// The right to open one socket to a server, for which a permit was given up. It cannot be cloned, and opening a socket consumes it. An
/// exchange that begins gets one, so its query leaves by no second socket.
#[derive(Drop)]
pub struct OneSocket<'a, N> {
    net: &'a N,
    permit: Permit,
}

impl<'a, N: ReadyNet> OneSocket<'a, N> {
    /// Opens a socket for datagrams, as `ReadyNet` does.
    pub fn open_socket(
        self,
        registry: &Registry,
        token: Token,
        place: SocketAddr,
        may_be_own: bool,
    ) -> io::Result<N::Datagrams>
        ensures opened { IfOk result (λ socket. N.Datagrams.opened socket place) }
        ensures reported { IfOk result (λ socket. N.Datagrams.reported socket token) }
        ensures unused { IfOk result N.Datagrams.unused }
        ensures failed { OnErr result N.failed }
    {
        self.net.open_socket(registry, token, place, may_be_own)
    }

    /// Begins a connection, as `ReadyNet` does.
    pub fn begin_connection(
        self,
        registry: &Registry,
        token: Token,
        place: SocketAddr,
    ) -> io::Result<N::Connection>
        ensures connected { IfOk result (λ connection. N.Connection.connected connection place) }
        ensures reported { IfOk result (λ connection. N.Connection.reported connection token) }
        ensures failed { OnErr result N.failed }
    {
        self.net.begin_connection(registry, token, place)
    }
}

/// A network that opens a socket for a permit alone. Whoever has no other hold of it sends nothing without one.
#[derive(Drop)]
pub struct PermittedNet<'a, N> {
    net: &'a N,
}

impl<'a, N> PermittedNet<'a, N> {
    /// So much of this network.
    pub fn new(net: &'a N) -> PermittedNet<'a, N> {
        PermittedNet { net }
    }

    /// The right to open one socket, for this permit. A permit cannot be cloned either, so there is one socket for each.
    pub fn one_socket(&self, permit: Permit) -> OneSocket<'a, N> {
        OneSocket {
            net: self.net,
            permit,
        }
    }
}
