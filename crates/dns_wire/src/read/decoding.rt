//! Decoding: the message that octets are, or their first fault.

ghost use Rattle.std.specs.Prelude.{IfOk, IfErr};
ghost use Rattle.dns_wire.specs.Read.Decoding.{IsUnspelled, HasTrailing, UnlessMemory, SpelledOrFails, NeverBoth, SpelledOnce, FailsOnce};
ghost use Rattle.dns_wire.specs.Read.Message.{SpelledMessage, MessageFails};
ghost use Rattle.dns_wire.specs.Fault.{Gives};
ghost use Rattle.dns_wire.specs.WellFormed.{HasForms, IsWellFormed};

use crate::fault::WireFault;
use crate::message::Message;
use crate::read::message::message_of;
use std::alloc::Global;

/// The message that all of the octets are, or else the first fault in the order of reading (RFC 1035, section 4).
pub fn decode(alloc: Global, octets: &[u8]) -> Result<Message, WireFault>
    ensures spelled { IfOk result (SpelledMessage octets.now) }
    ensures well_formed { IfOk result IsWellFormed }
    ensures forms { IfOk result HasForms }
    ensures fault { IfErr result (λ fault. UnlessMemory fault (MessageFails octets.now fault)) }

    // A message is read, and octets that are no message are refused, unless memory runs out.
    ensures read { (v : Message) → SpelledMessage octets.now v → Gives result (Ok v) }
    ensures unspelled { IfErr result (λ fault. UnlessMemory fault (IsUnspelled octets.now)) }
    ensures trailing { HasTrailing octets.now → Gives result (Err WireFault.Trailing) }
{
    message_of(alloc, octets)
}

/// Octets spell one message or have one first fault, and never both.
pub fn one_meaning()
    ensures either { SpelledOrFails }
    ensures never_both { NeverBoth }
    ensures message { SpelledOnce }
    ensures fault { FailsOnce }
{}
