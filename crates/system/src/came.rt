//! A datagram that came in: who sent it, and how many octets it has.

use std::net::SocketAddr;

/// A datagram that came in.
#[derive(Clone, Copy)]
pub struct Came {
    /// Who sent it.
    pub peer: SocketAddr,
    /// The number of octets at the front of the room that it fills.
    pub count: usize,
}
