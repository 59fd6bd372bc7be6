//! All that comes in from clients, and what leaves for them: the sockets of the service, batches of datagrams, connections, and the replies
//! that wait to be sent.
#![tactic(auto)]

// In the order in which to read them.

// The UDP sockets of the service, one for each worker.
mod udp_binding;
// The TCP sockets of the service.
mod tcp_binding;
// The socket of the service: queries come in at it, and replies go out by it.
mod service_socket;
// The listener of one worker: its socket of the service, and its poll.
mod listener;
// The network of an address.
mod network;
// The test whether a reply to a datagram can be sent.
mod answerable;
// The client of a datagram, which waits for its reply.
mod client;
// The datagrams that have come in.
mod inbox;
// The sender of a worker's replies.
mod reply_sender;
// A reply that waits to be sent.
mod outgoing;
// The buffers of sent replies, kept for later replies.
mod buffers;
// The outbox of a worker: the socket of the service, and the replies that wait to be sent.
mod outbox;
// Messages that come by connections of clients.
mod tcp;

pub use answerable::is_answerable;
pub use client::UdpClient;
pub use inbox::{Arrival, BATCH, Inbox, InboxSlot};
pub use listener::{SERVICE, UdpListener, listen_each};
pub use network::network_of;
pub use outbox::Outbox;
pub use reply_sender::ReplySender;
pub use service_socket::ServiceSocket;
pub use tcp::client::TcpClient;
pub use tcp::client_stream::ClientStream;
pub use tcp::listener::{ClientListener, TcpPoll, share_listener};
pub use tcp::taken::TakenMessage;
pub use tcp::tcp_front::{TcpFront, key_of};
pub use tcp_binding::{bind_tcp, bind_with_backlog};
pub use udp_binding::bind_each;
