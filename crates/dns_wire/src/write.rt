//! Messages written as octets.

// In the order in which to read them.

// Numbers of 16 and of 32 bits.
pub mod number;
// The header, with its counts.
pub mod header;
// Names, whole or as a pointer to the question's.
pub mod name;
// Questions.
pub mod question;
// Data of every form.
pub mod rdata;
// Records.
pub mod record;
// The sections of a message.
pub mod message;
// The number of octets of a message.
pub mod size;
// Messages and replies, in a buffer each.
pub mod encoding;
