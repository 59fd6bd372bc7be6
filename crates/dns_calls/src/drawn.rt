//! Random messages.
//!
//! The expected numbers come from reference.py, which was written independently of the crates, over the same draws.

pub mod draws; // octet strings by chance
pub mod values; // a number that depends on all that messages say
pub mod tally; // how many strings had each outcome

use crate::drawn::tally::Tally;
use crate::fault::CallFault;
use std::alloc::Global;

/// The number of strings that are drawn.
const COUNT: u32 = 100_000;

/// Decodes drawn octet strings of at most 600 octets, half of them valid messages with a few octets changed. Each message is
/// written again and the result read, and each string is also read as a query. The text counts the outcomes of each kind.
/// One number is a sum over the contents of all messages, another over the octets that were written.
pub fn drawn_words(alloc: Global) -> Result<Vec<u8>, CallFault> {
    let tally = Tally::drawn(alloc, COUNT)?;
    let mut told = format!(in alloc; "drawn {COUNT}")?.into_bytes();
    for (word, count) in tally.counts() {
        told.extend_from_slice(format!(in alloc; "\n{word} {count}")?.as_bytes())?;
    }
    Ok(told)
}
