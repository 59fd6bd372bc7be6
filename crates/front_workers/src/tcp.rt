//! A worker whose clients' messages come by connections.

// In the order in which to read them.

// The turns of a worker that takes messages by connections.
pub(crate) mod turns;
// A worker that serves many connections, with many questions in flight.
pub(crate) mod worker;
