//! A reply that waits to be sent.

use flight::ReplyOctets;
use std::net::SocketAddr;

/// A reply that waits to be sent, and its peer. Replies wait so that they are sent in one go, after the queries of a batch.
#[derive(Drop)]
pub(crate) struct Outgoing {
    pub(crate) peer: SocketAddr,
    pub(crate) reply: ReplyOctets,
}
