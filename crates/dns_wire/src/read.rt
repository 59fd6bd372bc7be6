//! Messages read from octets.

// In the order in which to read them.

// Numbers of 16 and of 32 bits.
pub mod number;
// The header: identifier and flags.
pub mod header;
// The label, pointer or end of a name at a place.
pub mod place;
// Chains of pointers, and a message with their ends.
pub mod chains;
// Names, which may point back to others.
pub mod name;
// Sections: items one after another.
pub mod section;
// Questions.
pub mod question;
// Data in the form of its type.
pub mod rdata;
// Records.
pub mod record;
// Messages, section after section.
pub mod message;
// Decoding: the message that octets are, or their first fault.
pub mod decoding;
