//! Engines that serve questions one after another, over any desk, exchange, clock and port, and wait for each exchange. The program runs
//! `front_workers` instead, which exports their calls.
#![tactic(auto)]

// In the order in which to read them.

// Exchanges with name servers: a query goes out, and its response comes in.
mod exchange;
// Listeners, at which connections come in.
mod listener;
// The tools of a task.
mod tools;
// A task, from its question to its answer.
mod run;
// A query, from its octets to its reply.
mod query;
// A stream of messages.
mod stream;
// The end of a worker.
mod work_end;
// A worker that serves connections.
mod tcp_worker;
// The place of an octet of a connection: at the start of a message, in its length or inside it.
mod spot;
// The reader of a client's connection.
mod frame_reader;
// The writer of a client's connection.
mod frame_writer;
// The listener at which clients' connections come in.
mod connections;
// The socket for connections, and the connection that wakes a worker.
mod binding;
// Ports, and a worker that serves datagrams one after another: the program does not use them.
mod plain_udp;

pub use binding::{bind_clients, wake_tcp};
pub use connections::Connections;
pub use exchange::Exchange;
pub use frame_reader::FrameReader;
pub use frame_writer::{FrameWriter, StreamWriter};
pub use listener::Listener;
pub use plain_udp::{Port, work_udp};
pub use query::serve_query;
pub use run::run_task;
pub use stream::serve_stream;
pub use tcp_worker::work_tcp;
pub use tools::Tools;
pub use work_end::WorkEnd;
