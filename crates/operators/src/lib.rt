//! What a service has for its operators, beside the book: the client of its control socket, their connections and turns there, the lines
//! of a file before it serves, its log, the figures of its book, and the exit status and message of a run that failed.
#![tactic(auto)]

// In the order in which to read them.

// The end of a run that failed: exit status and message.
mod fault;
// The service to which a client's lines go.
mod control_peer;
// The replies that come to a client.
mod replies;
// The conversation of a client with a service.
mod conversation;
// The mode `control`: the client of a service's control socket.
mod control_client;
// A book whose figures anyone can read, without its lock.
mod book_figures;
// The octets with which an operator's line may begin.
mod first_octet;
// A connection of an operator, and what it has sent.
mod operator;
// The operators that wait for their turn.
mod operator_queue;
// The turn of an operator, and the patience with it.
mod operator_turn;
// The texts that the log wrote lately.
mod recent_texts;
// The log of a service.
mod service_log;
// The runtime of a service, which logs there.
mod service_runtime;
// A reader of a file, which keeps why a read failed.
mod file_reader;
// The lookout for an operator who sends `stop` while nobody is served.
mod lookout;
// The opening of a FIFO, in a thread of its own.
mod opening;
// A FIFO that is read while operators are looked at.
mod watched_fifo;
// The lines of a file, which a service obeys before it is ready.
mod first_lines;

pub use book_figures::{BookFigures, WatchedBook, read_figure};
pub use control_client::send;
pub use control_peer::Peer;
pub use fault::{CliFault, end_for};
pub use first_lines::{obey_fifo, obey_file};
pub use lookout::Lookout;
pub use operator::Operator;
pub use operator_queue::OperatorQueue;
pub use operator_turn::{OperatorTurn, TurnEnd};
pub use service_log::ServiceLog;
pub use service_runtime::ServiceRuntime;
