//! Questions and records of the domain name system, as values and as text.
#![tactic(auto)]

// In the order in which to read them.

// Questions, data and records.
mod record;
// The TTL, whose type keeps it in range.
mod ttl;
// Lists in fields.
mod items;
// The strings of TXT data in one block.
mod strings;
// Values with several owners.
mod shared;
// Copies of data and records.
mod copying;
// Record types as constants.
pub mod types;
// The table of types: number, name and form of data.
mod kind;
// The faults of a text.
mod fault;
// Numbers as decimal digits.
mod number;
// Words of a line.
mod word;
// Names and numbers, each a word of data.
mod field;
// Data of each form other than names and numbers.
mod ipv4;
mod ipv6;
mod opaque;
mod string;
// Data of every form.
mod data;
// Whether data has the form of a type.
mod formed;
// Whole records.
mod record_text;
// Addresses of servers.
mod addr;
// The laws of reading and writing texts.
mod laws;

pub use addr::{Addr, Ip, push_addr, read_addr, write_addr};
pub use data::{push_data, read_data};
pub use fault::TextFault;
pub use items::{Items, Octets};
pub use kind::{Form, form_of, is_excluded, push_type, read_type, write_type};
pub use laws::{limits_law, one_meaning, text_law, types_law, written_law};
pub use number::read_number;
pub use record::{Data, Question, Record, equality_law};
pub use record_text::{push_record, read_record, write_record};
pub use shared::Shared;
pub use std::alloc::AllocError as NoMemory;
pub use string::MOST_STRING;
pub use strings::{Strings, StringsIter, spell_strings};
pub use ttl::{MOST_TTL, Ttl};
pub use word::next_word;
