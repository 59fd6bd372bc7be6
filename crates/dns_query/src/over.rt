//! The transport of a query.

/// The transport of a query (RFC 1035, section 4.2).
#[derive(Clone, Copy, PartialEq, Eq)]
pub enum Over {
    /// A datagram.
    Udp,
    /// A connection.
    Tcp,
}
