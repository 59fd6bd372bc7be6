//! The replies that report a fault, by the header alone.

ghost use Rattle.std.specs.Prelude.{◌≡◌, ◌≤◌, length};
ghost use Rattle.replies.specs.Reply.{fault_octets};
ghost use Rattle.flight.specs.Told.{octets_of};

use dns_wire::{HEADER_OCTETS, Rcode, fault_reply};
use flight::ReplyOctets;

/// The reply that reports a fault, by the header alone.
pub(crate) fn report_of(front: &[u8], rcode: Rcode) -> ReplyOctets
    requires { 12 ≤ length front.now }
    ensures octets { octets_of result ≡ fault_octets front.now rcode }
    ensures short { length (octets_of result) ≡ 12 }
{
    ReplyOctets::Header(fault_reply(front, rcode).unwrap())
}

/// Whether a reply reports that no message holds the answer: it is a message, and a header alone. Faults of a query are no messages.
pub(crate) fn is_too_long(reply: &ReplyOctets) -> bool {
    match reply {
        ReplyOctets::Message(octets) => octets.len() == HEADER_OCTETS,
        ReplyOctets::Header(_) => false,
    }
}
