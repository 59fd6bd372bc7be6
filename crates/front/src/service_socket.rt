//! The socket of the service: queries come in at it, and replies go out by it.

ghost use Rattle.std.specs.Prelude.{◌≡◌, ℕ, List, ◌≤◌, length, take, IfOk, IfErr, OnErr};
ghost use Rattle.std.specs.IoError.{error_kind};
ghost use Rattle.std.specs.declared.net.SocketAddr.{SocketAddr};
ghost use Rattle.front.specs.Taken.{OnFault};

use mio::net::UdpSocket;
use std::io;
use std::io::ErrorKind;
use std::net::SocketAddr;

/// The socket of the service. Its calls never wait: they return `WouldBlock` instead.
pub trait ServiceSocket: Drop {
    /// Exactly one datagram was taken: the socket before, its peer, its octets, the socket after.
    ghost takes: { Self → SocketAddr → List ℕ → Self → Type 0 };

    /// A call found no datagram.
    ghost drained: { Type 0 };

    /// A signal ended a call.
    ghost interrupted: { Type 0 };

    /// A call failed in another way.
    ghost failed: { Type 0 };

    /// Exactly one datagram was sent, perhaps in vain: the socket before, the peer, the octets, the socket after.
    ghost sends: { Self → SocketAddr → List ℕ → Self → Type 0 };

    /// Takes the next datagram. Returns how many octets of the room it fills, and its sender. Octets that do not fit the room
    /// are lost.
    fn take_datagram(&mut self, room: &mut [u8]) -> io::Result<(usize, SocketAddr)>
        ensures within { IfOk result (λ r. r.0 ≤ length room.new) }
        ensures took { IfOk result (λ r. takes self.old r.1 (take r.0 room.new) self.new) }
        ensures none { OnErr result (self.new ≡ self.old) }
        ensures drained { IfErr result (λ error. error_kind error ≡ ErrorKind.WouldBlock → drained) }
        ensures interrupted { IfErr result (λ error. error_kind error ≡ ErrorKind.Interrupted → interrupted) }
        ensures failed { IfErr result (OnFault failed) };

    /// Sends a datagram. It may fail if the peer cannot be reached.
    fn send_datagram(&mut self, octets: &[u8], peer: SocketAddr) -> io::Result<()>
        ensures { sends self.old peer octets.now self.new };
}

impl ServiceSocket for UdpSocket {
    // Nothing is known of what comes.
    ghost takes = { λ _ _ _ _. Unit {0} };

    ghost drained = { Unit {0} };

    ghost interrupted = { Unit {0} };

    ghost failed = { Unit {0} };

    // Nor of what leaves.
    ghost sends = { λ _ _ _ _. Unit {0} };

    fn take_datagram(&mut self, room: &mut [u8]) -> io::Result<(usize, SocketAddr)> {
        self.recv_from(room)
    }

    fn send_datagram(&mut self, octets: &[u8], peer: SocketAddr) -> io::Result<()> {
        self.send_to(octets, peer)?;
        Ok(())
    }
}
