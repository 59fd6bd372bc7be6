//! The result of taking a message of a connection.

use replies::WholeMessage;

/// The result of one call that takes a message of a connection.
#[derive(Drop)]
pub enum TakenMessage {
    /// No message is to be taken of the connection now.
    Nothing,
    /// None yet, but more octets may be there.
    More,
    /// A message. The connection has this number, and its client is of this network.
    Message(u64, u64, WholeMessage),
}
