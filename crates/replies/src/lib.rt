//! What a client is told, as octets: the reply of an answer, its size, its frame over TCP, and what may be read at all.
#![tactic(auto)]

// In the order in which to read them.

// The limits of messages, of exchanges and of a worker's failures.
mod limits;
// The records of an answer, lent as the sections of a reply.
mod lending;
// The size of a reply before it is written, and of RDATA.
mod sizing;
// Replies as octets.
mod reply;
// The test whether octets get a reply.
mod owed;
// The test whether a message would take too long to read.
mod dear;
// The faults that end a stream.
mod fault;
// Messages preceded by their length.
mod framing;
// A message over TCP, as its octets come.
mod begun_message;

pub use begun_message::{BegunMessage, WholeMessage};
pub use dear::is_dear;
pub use fault::StreamFault;
pub use framing::{append_framed, frame, size_octets, size_of, take_message};
pub use limits::{
    DATAGRAM_ROOM, ITEM_STEPS, MOST_DATAGRAM, MOST_FAILURES, MOST_FRAMED, MOST_MESSAGE, MOST_STEPS,
    MOST_UDP_REPLY, STEP_OCTETS, limits_law,
};
pub use owed::wants_reply;
pub use reply::{write_answer, write_fault};
pub use sizing::data_size;
