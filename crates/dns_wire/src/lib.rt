//! Messages of the domain name system (RFC 1035, section 4): read from octets, written as octets, and taken as queries.
#![tactic(auto)]

// In the order in which to read them.

// The limits and marks of messages.
mod limits;
// Fields of a header: the kind of a query, the response code, and the reserved bits.
mod opcode;
mod rcode;
mod reserved;
// The header, questions and records of a message.
mod message;
// Borrowed records, and the sections that lend them.
mod lent;
// The faults of octets that are no message.
mod fault;
// Reading messages.
mod read;
// Writing messages.
mod write;
// Queries that a server receives, and replies that take no memory.
mod server;

pub use fault::WireFault;
pub use lent::{LentRecord, NoRecords, Section};
pub use limits::{HEADER_OCTETS, MOST_OCTETS, MOST_UDP_OCTETS, limits_law};
pub use message::{CLASS_IN, Classed, Head, Message};
pub use opcode::Opcode;
pub use rcode::Rcode;
pub use read::decoding::{decode, one_meaning};
pub use reserved::Reserved;
pub use server::asking::{one_verdict, read_question};
pub use server::query::{Asked, Query};
pub use server::replying::{cut_for_udp, fault_reply};
pub use server::spelling::QuestionOctets;
pub use write::encoding::{EncodeFault, encode, encode_lent, encode_reply, written_is_read};
