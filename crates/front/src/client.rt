//! The client of a datagram, which waits for its reply.

ghost use Rattle.std.specs.Prelude.{◌≡◌, ◌≤◌};
ghost use Rattle.replies.specs.declared.limits.TheConstants.{MOST_DATAGRAM};

use crate::network::network_of;
use crate::service_socket::ServiceSocket;
use dns_query::Over;
use flight::{Client, Numbered};
use replies::{DATAGRAM_ROOM, MOST_DATAGRAM};
use std::marker::PhantomData;
use std::net::SocketAddr;
use std::snapshot::Snapshot;
use system::Came;

/// The client of a datagram, which waits for its reply. A worker makes one client of each datagram.
#[derive(Drop)]
pub struct UdpClient<S> {
    came: Came,
    /// The room whose front the datagram filled.
    room: Snapshot<[u8; DATAGRAM_ROOM]>,
    /// The number of the latest call that the worker's desk knew of when this client was made.
    since: u64,
    /// Its datagram came in at such a socket.
    socket: PhantomData<S>,
    ghost within: { came.count ≤ MOST_DATAGRAM },
}

impl<S> UdpClient<S> {
    /// The client whose datagram fills the front of the room. The datagram came before this desk made a later call.
    pub fn new<D: Numbered>(came: Came, room: &[u8; DATAGRAM_ROOM], desk: &D) -> UdpClient<S>
        requires { came.count ≤ MOST_DATAGRAM }
        ensures came { result.came ≡ came }
        ensures room { result.room.value ≡ room.now }
        ensures since { result.since ≡ D.seen desk.now }
    {
        UdpClient {
            came,
            room: Snapshot::of(room),
            since: desk.seen(),
            socket: PhantomData,
        }
    }

    /// The address to which the reply goes.
    pub fn peer(&self) -> SocketAddr
        ensures { result ≡ self.now.came.peer }
    {
        self.came.peer
    }

    /// The length of the datagram.
    pub fn count(&self) -> usize
        ensures same { result ≡ self.now.came.count }
        ensures within { result ≤ MOST_DATAGRAM }
    {
        self.came.count
    }
}

impl<S: ServiceSocket> Client for UdpClient<S> {
    ghost use Rattle.std.specs.Net.Socket.{socket_ip};
    ghost use Rattle.dns_query.specs.declared.over.Over.TheVariants.{Udp};
    ghost use Rattle.front.specs.Networks.{network_of};
    ghost use Rattle.front.specs.Outgoing.{IsSentBy};

    // It sent the octets that its datagram put into the room, and they came from its peer.
    ghost sent = { IsSentBy S.takes };

    ghost over = { λ _. Udp };

    ghost since = { λ client. client.since };

    ghost network = { λ client. network_of (socket_ip client.came.peer) };

    fn over(&self) -> Over {
        Over::Udp
    }

    fn since(&self) -> u64 {
        self.since
    }

    fn network(&self) -> u64 {
        network_of(self.came.peer)
    }
}
