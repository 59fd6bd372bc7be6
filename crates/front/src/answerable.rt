//! The test whether a reply to a datagram can be sent.

ghost use Rattle.std.specs.Prelude.{◌↔◌, IsTrue};
ghost use Rattle.front.specs.Answerable.{IsAnswerable};

use std::net::SocketAddr;

/// Whether a reply to a datagram of so many octets can be sent: none reaches port 0, and an empty datagram asks nothing.
pub fn is_answerable(peer: SocketAddr, count: usize) -> bool
    ensures { IsTrue result ↔ IsAnswerable peer count }
{
    peer.port() != 0 && count != 0
}
