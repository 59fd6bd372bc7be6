//! Messages read section after section.

ghost use Rattle.std.specs.Prelude.{◌≤◌, length};
ghost use Rattle.dns_wire.specs.Fault.{Gives};
ghost use Rattle.dns_wire.specs.Read.Message.{message_behind, message_read};

use crate::fault::WireFault;
use crate::limits::HEADER_OCTETS;
use crate::message::{Message, first_owner};
use crate::read::chains::{Wire, blank_ends, has_many_names};
use crate::read::header::head_in;
use crate::read::number::u16_at;
use crate::read::section::section_at;
use std::alloc::Global;

/// The message of a whole header and the sections after it, which end with the octets.
#[tactic(auto, unfolding(crate::specs::Read::Message::sections_read))]
fn message_in(alloc: Global, message: &Wire<'_>) -> Result<Message, WireFault>
    requires { HEADER_OCTETS ≤ length message.now }
    ensures { Gives result (message_behind message.now) }
{
    let octets = message.as_slice();
    let (questions, at) = section_at(alloc, message, u16_at(octets, 4), HEADER_OCTETS)?;
    // Most records have the name of the first question for their owner, which is not to be read again for each.
    let known = message.knowing(first_owner(questions.as_slice()));
    let (answer, at) = section_at(alloc, &known, u16_at(octets, 6), at)?;
    let (authority, at) = section_at(alloc, &known, u16_at(octets, 8), at)?;
    let (additional, at) = section_at(alloc, &known, u16_at(octets, 10), at)?;
    if at != octets.len() {
        return Err(WireFault::Trailing);
    }
    let head = head_in(octets);
    Ok(Message {
        head,
        questions,
        answer,
        authority,
        additional,
    })
}

/// The same for a message with many names, whose chains of pointers are noted. It is a function of its own because the notes take much of the stack.
#[inline(never)]
fn noted_message_in(alloc: Global, octets: &[u8]) -> Result<Message, WireFault>
    requires { HEADER_OCTETS ≤ length octets.now }
    ensures { Gives result (message_behind octets.now) }
{
    let mut ends = blank_ends();
    message_in(alloc, &Wire::noted(octets, &mut ends))
}

/// The message that all the octets are.
#[tactic(auto, unfolding(crate::specs::Read::Message::message_read))]
pub(crate) fn message_of(alloc: Global, octets: &[u8]) -> Result<Message, WireFault>
    ensures { Gives result (message_read octets.now) }
{
    if octets.len() < HEADER_OCTETS {
        return Err(WireFault::Short);
    }
    if has_many_names(octets) {
        return noted_message_in(alloc, octets);
    }
    message_in(alloc, &Wire::plain(octets))
}
