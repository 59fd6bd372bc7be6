//! All that goes out to name servers: places that are never asked, exchanges over UDP and TCP, and the servers that are passed over.
#![tactic(auto)]

// In the order in which to read them.

// The places that the service never asks: addresses that belong to no host, and its own.
mod own;
// Servers that are not asked, because of the list that named their address.
mod withheld;
// The test whether octets may be the reply to a query.
mod fitting;
// A socket at a port that the system draws.
mod drawn_port;
// The network of name servers, where no call waits.
mod ready_net;
// The permits of exchanges: a few for each question, over all workers.
mod permits;
// The right to open one socket, and a network that gives it for a permit alone.
mod one_socket;
// The log lines about a question: an exchange that failed, and a reply that no message holds.
mod fault_line;
// The result of one call that listens to an exchange over UDP.
mod heard;
// A query and its reply over UDP, without waiting.
mod udp_line;
// A query preceded by its length, and the count of octets that have left.
mod framed_query;
// A reply that comes, preceded by its length.
mod framed_reply;
// A query and its reply over TCP, without waiting.
mod tcp_line;
// What is wrong with what came of an exchange.
mod flaw;
// The transport of an exchange.
mod transport;
// An exchange over a socket of its own.
mod socket_line;
// A name server over one transport, and a question to it.
mod server;
// The question of a query.
mod asked;
// The other servers of a list.
mod others;
// Tables of bounded size.
mod kept;
// A pause: for how long, and until when.
mod pause;
// The names that a server left unanswered.
mod missed;
// The silence of a server: since when, and to how many names.
mod silence;
// The silences of the servers that were asked lately.
mod servers;
// The pauses of questions to servers.
mod questions;
// The servers that a worker passes over.
mod pauses;
// What an exchange says of its server.
mod noting;
// The zones that servers refused lately, each at its server.
mod refused_zones;
// The refusals that a worker remembers.
mod refusals;
// Exchanges that wait for each reply until a deadline.
mod waiting;

pub use fault_line::{WITHHELD, log_exchange, log_too_long};
pub use fitting::{MOST_MISFITS, fits};
pub use framed_query::MOST_QUERY;
pub use heard::UdpHeard;
pub use noting::note_heard;
pub use one_socket::{OneSocket, PermittedNet};
pub use others::others_of;
pub use pauses::Pauses;
pub use permits::{COUNTERS, MOST_EQUAL, NoPermit, Permit, Permits};
pub use ready_net::{ReadyConnection, ReadyNet, ReadySocket};
pub use refusals::Refusals;
pub use refused_zones::list_of_strangers;
pub use socket_line::SocketLine;
pub use tcp_line::TcpLine;
pub use udp_line::UdpLine;
pub use waiting::server_net::ServerNet;
pub use waiting::socket_exchange::SocketExchange;
pub use withheld::{MOST_LISTED, is_of_strangers, is_withheld, limits_law};
