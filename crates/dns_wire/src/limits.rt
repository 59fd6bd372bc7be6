//! The limits and marks of messages (RFC 1035, sections 2.3.4, 4.1 and 4.2).

ghost use Rattle.std.specs.Prelude.{◌≡◌};

/// The octets of a header (RFC 1035, section 4.1.1).
pub const HEADER_OCTETS: usize = 12;

/// The most octets of a message, whose length over TCP has 16 bits (RFC 1035, section 4.2.2).
pub const MOST_OCTETS: usize = 65535;

/// The most octets of a message over UDP (RFC 1035, section 4.2.1).
pub const MOST_UDP_OCTETS: usize = 512;

/// The greatest count of a header, which has 16 bits (RFC 1035, section 4.1.1).
pub(crate) const MOST_COUNT: usize = 65535;

/// The least octet that does not begin a label: its top bits are not 00 (RFC 1035, section 4.1.4).
pub(crate) const LABEL_END: u8 = 64;

/// The mark of a pointer: its top bits are 11 (RFC 1035, section 4.1.4).
pub(crate) const POINTER_MARK: u8 = 192;

/// The place of the first question's name, right after the header.
pub(crate) const QUESTION_PLACE: u8 = 12;

/// A header has 12 octets, a message at most 65,535, and one over UDP at most 512.
pub fn limits_law()
    ensures header { HEADER_OCTETS ≡ 12 }
    ensures message { MOST_OCTETS ≡ 65535 }
    ensures datagram { MOST_UDP_OCTETS ≡ 512 }
{}
