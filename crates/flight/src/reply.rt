//! The octets of a reply.

ghost use Rattle.std.specs.Prelude.{◌≡◌};
ghost use Rattle.flight.specs.Told.{octets_of};

/// The octets of a reply. They keep until they are sent.
#[derive(Drop)]
pub enum ReplyOctets {
    /// A header alone. It takes no memory.
    Header([u8; 12]),
    /// A message.
    Message(Vec<u8>),
}

impl ReplyOctets {
    /// The octets.
    pub fn as_slice(&self) -> &[u8]
        ensures { result.now ≡ octets_of self.now }
    {
        match self {
            ReplyOctets::Header(octets) => octets.as_slice(),
            ReplyOctets::Message(octets) => octets.as_slice(),
        }
    }
}
