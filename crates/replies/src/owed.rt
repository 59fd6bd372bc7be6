//! The test whether octets get a reply.

ghost use Rattle.std.specs.Prelude.{MatchBool};
ghost use Rattle.dns_wire.specs.declared.server.query.Asked.TheVariants.{Drop};
ghost use Rattle.dns_wire.specs.Server.Asking.{AsksFor};

use dns_wire::HEADER_OCTETS;

/// Whether octets get any reply: they have a header, and are no response themselves (RFC 1035, section 4.1.1). Only the header is read.
pub fn wants_reply(octets: &[u8]) -> bool
    ensures { MatchBool result (¬ (AsksFor octets.now Drop)) (AsksFor octets.now Drop) }
{
    if octets.len() < HEADER_OCTETS {
        return false;
    }
    // The first bit of the third octet is QR.
    octets[2] < 128
}
