//! Exchanges with name servers that wait for each reply until a deadline. The program does not use them: it has `SocketLine`.

// In the order in which to read them.

// The network of name servers.
pub(crate) mod server_net;
// A connection whose calls end by a deadline.
pub(crate) mod timed;
// Exchanges with name servers, each waited for until a deadline.
pub(crate) mod socket_exchange;
