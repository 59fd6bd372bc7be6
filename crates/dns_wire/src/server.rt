//! Queries that a server receives, and replies that take no memory.

// In the order in which to read them.

// The octets of a question.
pub mod spelling;
// A query, and the other requests.
pub mod query;
// Walking over a message without keeping it.
pub mod walking;
// The request in received octets.
pub mod asking;
// Error replies, and replies truncated for UDP.
pub mod replying;
