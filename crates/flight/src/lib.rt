//! Many questions in flight in one worker. Each is a task that waits for one reply, and the worker carries octets between
//! tasks, the desk and the exchanges. It owns no socket.
#![tactic(auto)]

// In the order in which to read them.

// A desk that numbers its calls.
mod numbered;
// An exchange under way with a name server.
mod in_flight;
// The counters of a worker.
mod counts;
// The octets of a reply.
mod reply;
// The clients of a worker, and its sockets: those of clients and those of servers.
mod sockets;
// The zone of a question's name.
mod zone;
// The calls of this crate that want memory, and the task of a question in a worker.
mod refused;
// A client's question and its task.
mod asking;
// What the questions that wait keep in memory.
mod kept;
// A client's question that waits for the reply to an upstream query.
mod job;
// The questions that wait, when each began to, and the cause for which one may not.
mod table;
// The reply to a client.
mod telling;
// The questions of one worker that are in flight.
mod engine;
// The beginning of a question: its first lookup, then its task.
mod beginning;
// The course of a question from one exchange to the next.
mod driving;

// Laws of the definitions at a seat of a shared book.
mod laws;

pub use counts::Counts;
pub use engine::Flight;
pub use in_flight::InFlight;
pub use kept::{MOST_ALL_KEPT, MOST_AT_REST, MOST_KEPT, kept_law};
pub use laws::{fall_law, later_law, rise_law};
pub use numbered::Numbered;
pub use reply::ReplyOctets;
pub use sockets::{Client, Listened, Sockets};
pub use table::{Cause, PATIENCE, QUESTION_PATIENCE, Unserved, limits_law};
pub use zone::zone_octets;
