//! The result of reading a connection.

use replies::WholeMessage;

/// The result of one call that reads a connection.
#[derive(Drop)]
pub(crate) enum Arrived {
    /// Nothing is there to read now.
    Nothing,
    /// Octets came, but no message is whole. More may be there.
    Part,
    /// A message came whole. More may be there.
    Message(WholeMessage),
    /// The client sends no more.
    End,
}
