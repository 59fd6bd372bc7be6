//! The result of one call that listens to an exchange over UDP.

/// The result of one call that listens to an exchange over UDP.
#[derive(Clone, Copy, PartialEq, Eq)]
pub enum UdpHeard {
    /// Nothing yet.
    Nothing,
    /// The reply, of so many octets.
    Reply(usize),
    /// Too many datagrams that cannot be the reply.
    Misfits,
}
