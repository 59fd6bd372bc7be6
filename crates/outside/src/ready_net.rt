//! The network of name servers, where no call waits.

ghost use Rattle.std.specs.Prelude.{◌≡◌, ℕ, List, ◌≤◌, length, take, IfOk, IfErr, OnOk, OnErr};
ghost use Rattle.std.specs.IoError.{error_kind};
ghost use Rattle.std.specs.declared.net.SocketAddr.{SocketAddr};
ghost use Rattle.mio.specs.declared.token.Token.{Token};
ghost use Rattle.outside.specs.Datagrams.{StaysAs};
ghost use Rattle.system.specs.Failures.{IsFailure};

use crate::drawn_port::bind_for;
use mio::net::{TcpStream, UdpSocket};
use mio::{Interest, Registry, Token};
use std::io;
use std::io::{ErrorKind, Read, Write};
use std::net::{Net, SocketAddr};

/// A socket for datagrams to and from one server. A call that would wait fails with `WouldBlock`.
pub trait ReadySocket: Drop {
    /// The socket is connected to this place.
    ghost opened: { Self → SocketAddr → Type 0 };

    /// Its datagrams leave from this place.
    ghost is_at: { Self → SocketAddr → Type 0 };

    /// The poll reports its datagrams under this token.
    ghost reported: { Self → Token → Type 0 };

    /// No datagram has left by it.
    ghost unused: { Self → Type 0 };

    /// Exactly one datagram has left by it, which is this one.
    ghost sent: { Self → List ℕ → Type 0 };

    /// A datagram came to it.
    ghost came: { Self → List ℕ → Type 0 };

    /// Exactly one datagram was taken from it, which is this one: the socket before, the octets, the socket after.
    ghost takes: { Self → List ℕ → Self → Type 0 };

    /// A call found no datagram waiting.
    ghost drained: { Self → Type 0 };

    /// A signal ended a call.
    ghost interrupted: { Self → Type 0 };

    /// The poll reports once more, under this token, the datagrams that came and were not taken.
    ghost reported_again: { Self → Token → Type 0 };

    /// A call failed, other than by `WouldBlock` or a signal.
    ghost failed: { Self → Type 0 };

    /// The place from which its datagrams leave.
    fn place(&self) -> io::Result<SocketAddr>
        ensures place { IfOk result (λ place. is_at self.now place) }
        ensures failed { OnErr result (failed self.now) };

    /// Sends a query to the place to which it is connected.
    fn send_datagram(&mut self, query: &[u8]) -> io::Result<()>
        // Only the first datagram of a socket is exactly one.
        ensures sent { OnOk result (unused self.old → sent self.new query.now) }
        ensures opened { (place : SocketAddr) → opened self.old place → opened self.new place }
        ensures is_at { (place : SocketAddr) → is_at self.old place → is_at self.new place }
        ensures reported { (token : Token) → reported self.old token → reported self.new token }
        ensures failed { OnErr result (failed self.new) };

    /// The next datagram: the number of octets at the front of the room that it fills.
    fn take_datagram(&mut self, room: &mut [u8]) -> io::Result<usize>
        ensures within { IfOk result (λ count. count ≤ length room.new) }
        ensures came { IfOk result (λ count. came self.old (take count room.new)) }
        ensures takes { IfOk result (λ count. takes self.old (take count room.new) self.new) }
        ensures stays { StaysAs opened reported sent self.old self.new }
        ensures untaken { OnErr result (self.new ≡ self.old) }
        ensures drained { IfErr result (λ error. error_kind error ≡ ErrorKind.WouldBlock → drained self.new) }
        ensures interrupted { IfErr result (λ error. error_kind error ≡ ErrorKind.Interrupted → interrupted self.new) }
        ensures failed { IfErr result (λ error. IsFailure error → failed self.new) };

    /// Makes the poll report once more the datagrams that are there.
    fn report_again(&mut self, registry: &Registry, token: Token) -> io::Result<()>
        ensures kept { self.new ≡ self.old }
        ensures again { OnOk result (reported_again self.new token) }
        ensures failed { OnErr result (failed self.new) };
}

/// A connection to one server. A read or a write that would wait fails with `WouldBlock`.
pub trait ReadyConnection: Read + Write + Drop {
    /// The connection is to this place.
    ghost connected: { Self → SocketAddr → Type 0 };

    /// Its octets leave from this place.
    ghost is_at: { Self → SocketAddr → Type 0 };

    /// The poll reports what comes under this token.
    ghost reported: { Self → Token → Type 0 };

    /// A call that asks for its place failed.
    ghost failed: { Self → Type 0 };

    /// No fault of connecting or of the connection was known.
    ghost has_no_fault: { Self → Type 0 };

    /// The place from which its octets leave.
    fn place(&self) -> io::Result<SocketAddr>
        ensures place { IfOk result (λ place. is_at self.now place) }
        ensures failed { OnErr result (failed self.now) };

    /// An error if connecting or the connection has failed: its own.
    fn check(&self) -> io::Result<()>
        ensures { OnOk result (has_no_fault self.now) };
}

/// A network of name servers, where no call waits.
pub trait ReadyNet {
    /// A socket for datagrams to and from one server.
    type Datagrams: ReadySocket;

    /// A connection to one server.
    type Connection: ReadyConnection;

    /// No socket was left, or the system knows no way to a place.
    ghost failed: { Type 0 };

    /// A socket at a port that the system draws, watched by the poll. If the place may be the service itself, and its address is one
    /// of this machine's, the socket has that address.
    fn open_socket(
        &self,
        registry: &Registry,
        token: Token,
        place: SocketAddr,
        may_be_own: bool,
    ) -> io::Result<Self::Datagrams>
        ensures opened { IfOk result (λ socket. Self.Datagrams.opened socket place) }
        ensures reported { IfOk result (λ socket. Self.Datagrams.reported socket token) }
        ensures unused { IfOk result Self.Datagrams.unused }
        ensures failed { OnErr result failed };

    /// A connection that begins to connect, watched by the poll.
    fn begin_connection(
        &self,
        registry: &Registry,
        token: Token,
        place: SocketAddr,
    ) -> io::Result<Self::Connection>
        ensures connected { IfOk result (λ connection. Self.Connection.connected connection place) }
        ensures reported { IfOk result (λ connection. Self.Connection.reported connection token) }
        ensures failed { OnErr result failed };
}

impl ReadySocket for UdpSocket {
    // Nothing is known of the system's sockets.
    ghost opened = { λ _ _. Unit {0} };

    ghost is_at = { λ _ _. Unit {0} };

    ghost reported = { λ _ _. Unit {0} };

    ghost unused = { λ _. Unit {0} };

    ghost sent = { λ _ _. Unit {0} };

    ghost came = { λ _ _. Unit {0} };

    ghost takes = { λ _ _ _. Unit {0} };

    ghost drained = { λ _. Unit {0} };

    ghost interrupted = { λ _. Unit {0} };

    ghost reported_again = { λ _ _. Unit {0} };

    ghost failed = { λ _. Unit {0} };

    fn place(&self) -> io::Result<SocketAddr> {
        self.local_addr()
    }

    fn send_datagram(&mut self, query: &[u8]) -> io::Result<()> {
        self.send(query)?;
        Ok(())
    }

    fn take_datagram(&mut self, room: &mut [u8]) -> io::Result<usize> {
        self.recv(room)
    }

    fn report_again(&mut self, registry: &Registry, token: Token) -> io::Result<()> {
        registry.reregister(self, token, Interest::READABLE)
    }
}

impl ReadyConnection for TcpStream {
    // Nothing is known of the system's connections.
    ghost connected = { λ _ _. Unit {0} };

    ghost is_at = { λ _ _. Unit {0} };

    ghost reported = { λ _ _. Unit {0} };

    ghost failed = { λ _. Unit {0} };

    ghost has_no_fault = { λ _. Unit {0} };

    fn place(&self) -> io::Result<SocketAddr> {
        self.local_addr()
    }

    fn check(&self) -> io::Result<()> {
        match self.take_error()? {
            Some(error) => Err(error),
            None => Ok(()),
        }
    }
}

impl<R: Net> ReadyNet for R {
    type Datagrams = UdpSocket;

    type Connection = TcpStream;

    // Nor of why it gives none.
    ghost failed = { Unit {0} };

    fn open_socket(
        &self,
        registry: &Registry,
        token: Token,
        place: SocketAddr,
        may_be_own: bool,
    ) -> io::Result<UdpSocket> {
        let socket = bind_for(self, place, may_be_own)?;
        socket.set_nonblocking(true)?;
        socket.connect(place)?;
        let mut socket = UdpSocket::from_std(socket);
        registry.register(&mut socket, token, Interest::READABLE)?;
        Ok(socket)
    }

    fn begin_connection(
        &self,
        registry: &Registry,
        token: Token,
        place: SocketAddr,
    ) -> io::Result<TcpStream> {
        let mut stream = TcpStream::connect(self, place)?;
        registry.register(&mut stream, token, Interest::READABLE | Interest::WRITABLE)?;
        Ok(stream)
    }
}
