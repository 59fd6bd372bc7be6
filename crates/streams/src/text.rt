//! The reply to a line.

ghost use Rattle.std.specs.Prelude.{◌≡◌};
ghost use Rattle.streams.specs.Text.{octets_in};

use arrayvec::ArrayVec;

/// The reply to a line, with its line end. It may be empty.
#[derive(Drop)]
pub enum Text {
    /// A reply that never varies.
    Fixed(&'static [u8]),
    /// A line with one number, kept without an allocation.
    Short(ArrayVec<u8, 64>),
    /// A reply that was allocated.
    Made(Vec<u8>),
}

impl Text {
    /// The octets of the reply.
    pub fn as_slice(&self) -> &[u8]
        ensures { result.now ≡ octets_in self.now }
    {
        match self {
            Text::Fixed(octets) => octets,
            Text::Short(octets) => octets.as_slice(),
            Text::Made(octets) => octets.as_slice(),
        }
    }
}
