//! Messages that come by connections of clients.

// In the order in which to read them.

// The connection of a client, as the system gives it.
pub(crate) mod client_stream;
// The replies that a connection is owed.
pub(crate) mod owed_replies;
// The times of a connection.
pub(crate) mod times;
// The result of reading a connection.
pub(crate) mod arrived;
// The connection of a client.
pub(crate) mod connection;
// The table of connections.
pub(crate) mod table;
// Notes on connections: how many of their questions wait, and which are to be served.
pub(crate) mod marks;
// The client of a message that came by a connection.
pub(crate) mod client;
// The result of taking a message of a connection.
pub(crate) mod taken;
// The connections of a worker's clients.
pub(crate) mod tcp_front;
// The listener of one TCP worker: the socket at which connections come in, and its poll.
pub(crate) mod listener;
