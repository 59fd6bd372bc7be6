//! The limits of messages, of exchanges and of a worker's failures.

ghost use Rattle.std.specs.Prelude.{◌≡◌};
ghost use Rattle.clock.specs.declared.deadline.TheConstants.{PATIENCE_SECONDS};

use dns_wire::{MOST_OCTETS, MOST_UDP_OCTETS};

/// The octets of the longest message: over TCP its length has two octets (RFC 1035, section 4.2.2).
pub const MOST_MESSAGE: usize = MOST_OCTETS;

/// The octets of the longest message preceded by its length.
pub const MOST_FRAMED: usize = 2 + MOST_MESSAGE;

/// The octets of the longest reply over UDP (RFC 1035, section 4.2.1).
pub const MOST_UDP_REPLY: usize = MOST_UDP_OCTETS;

/// The octets of the longest datagram that a worker reads whole.
pub const MOST_DATAGRAM: usize = 4096;

/// The octets of the room for a datagram: one more than the longest that a worker reads whole, so truncation is detectable.
pub const DATAGRAM_ROOM: usize = MOST_DATAGRAM + 1;

/// The most steps that reading a message may take. Reading takes some 20 ns of a processor for a step.
pub const MOST_STEPS: usize = 160_000;

/// The steps for a record or a string, each of which takes memory. Those for names come on top.
pub const ITEM_STEPS: usize = 4;

/// A label takes one step, and one more for each so many of its octets.
pub const STEP_OCTETS: usize = 8;

/// A worker ends after so many failures in a row.
pub const MOST_FAILURES: u8 = 16;

/// A message has at most 65,535 octets and a reply over UDP 512. A datagram of up to 4,096 is read whole. Reading a longer message may
/// take 160,000 steps: 4 for a record or a string, and one for a label and for each 8 octets of it. An exchange has two seconds, and a
/// worker ends after 16 failures in a row.
pub fn limits_law()
    ensures message { MOST_MESSAGE ≡ 65535 }
    ensures reply { MOST_UDP_REPLY ≡ 512 }
    ensures datagram { MOST_DATAGRAM ≡ 4096 }
    ensures most_steps { MOST_STEPS ≡ 160000 }
    ensures item_steps { ITEM_STEPS ≡ 4 }
    ensures step_octets { STEP_OCTETS ≡ 8 }
    ensures patience { PATIENCE_SECONDS ≡ 2 }
    ensures failures { MOST_FAILURES ≡ 16 }
{}
