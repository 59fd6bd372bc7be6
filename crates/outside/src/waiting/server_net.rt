//! The network of name servers.

ghost use Rattle.std.specs.Prelude.{ℕ, List, ◌≤◌, length, take, IfOk, OnOk};
ghost use Rattle.std.specs.declared.net.SocketAddr.{SocketAddr};

use crate::drawn_port::bind_for;
use clock::Timeouts;
use std::io;
use std::io::{Read, Write};
use std::net::{Net, SocketAddr, TcpStream, UdpSocket};
use std::time::Duration;

/// A network of name servers. Its calls wait.
pub trait ServerNet {
    /// A socket for datagrams to and from one server.
    type Datagrams: Drop;

    /// A connection to one server.
    type Connection: Read + Write + Timeouts + Drop;

    /// The socket is connected to this place.
    ghost opened: { Self.Datagrams → SocketAddr → Type 0 };

    /// The socket's datagrams leave from this place.
    ghost is_at: { Self.Datagrams → SocketAddr → Type 0 };

    /// A datagram left by the socket.
    ghost sent: { Self.Datagrams → List ℕ → Type 0 };

    /// A datagram came to the socket.
    ghost came: { Self.Datagrams → List ℕ → Type 0 };

    /// The connection is to this place.
    ghost connected: { Self.Connection → SocketAddr → Type 0 };

    /// The connection's octets leave from this place.
    ghost connected_at: { Self.Connection → SocketAddr → Type 0 };

    /// A socket at a port that the system draws. If the place may be the service itself, and its address is one of this machine's, the
    /// socket has that address.
    fn open_socket(&self, place: SocketAddr, may_be_own: bool) -> io::Result<Self::Datagrams>
        ensures { IfOk result (λ socket. opened socket place) };

    /// The place from which a socket's datagrams leave.
    fn place_of_socket(&self, socket: &Self::Datagrams) -> io::Result<SocketAddr>
        ensures { IfOk result (λ place. is_at socket.now place) };

    /// Sends a query to the place to which the socket is connected.
    fn send_datagram(&self, socket: &Self::Datagrams, query: &[u8]) -> io::Result<()>
        ensures { OnOk result (sent socket.now query.now) };

    /// The next datagram: the number of octets at the front of the room that it fills. It waits so long at most.
    fn take_datagram(
        &self,
        socket: &Self::Datagrams,
        room: &mut [u8],
        most: Duration,
    ) -> io::Result<usize>
        ensures within { IfOk result (λ count. count ≤ length room.new) }
        ensures came { IfOk result (λ count. came socket.now (take count room.new)) };

    /// A connection to a place. Connecting takes so long at most.
    fn open_connection(&self, place: SocketAddr, most: Duration) -> io::Result<Self::Connection>
        ensures { IfOk result (λ connection. connected connection place) };

    /// The place from which a connection's octets leave.
    fn place_of_connection(&self, connection: &Self::Connection) -> io::Result<SocketAddr>
        ensures { IfOk result (λ place. connected_at connection.now place) };
}

impl<R: Net<Stream = TcpStream>> ServerNet for R {
    type Datagrams = UdpSocket;

    type Connection = TcpStream;

    // Nothing is known of the system's network.
    ghost opened = { λ _ _. Unit {0} };

    ghost is_at = { λ _ _. Unit {0} };

    ghost sent = { λ _ _. Unit {0} };

    ghost came = { λ _ _. Unit {0} };

    ghost connected = { λ _ _. Unit {0} };

    ghost connected_at = { λ _ _. Unit {0} };

    fn open_socket(&self, place: SocketAddr, may_be_own: bool) -> io::Result<UdpSocket> {
        let socket = bind_for(self, place, may_be_own)?;
        socket.connect(place)?;
        Ok(socket)
    }

    fn place_of_socket(&self, socket: &UdpSocket) -> io::Result<SocketAddr> {
        socket.local_addr()
    }

    fn send_datagram(&self, socket: &UdpSocket, query: &[u8]) -> io::Result<()> {
        socket.send(query)?;
        Ok(())
    }

    fn take_datagram(
        &self,
        socket: &UdpSocket,
        room: &mut [u8],
        most: Duration,
    ) -> io::Result<usize> {
        socket.set_read_timeout(Some(most))?;
        socket.recv(room)
    }

    fn open_connection(&self, place: SocketAddr, most: Duration) -> io::Result<TcpStream> {
        let stream = TcpStream::connect_timeout(self, &place, most)?;
        stream.set_nodelay(true)?;
        Ok(stream)
    }

    fn place_of_connection(&self, connection: &TcpStream) -> io::Result<SocketAddr> {
        connection.local_addr()
    }
}
