//! The octets so far of a line that has not ended, as many as are needed.

ghost use Rattle.std.specs.Prelude.{◌≡◌, ℕ, List, [], ◌∷◌, ◌++◌};
ghost use Rattle.streams.specs.Split.{without_return, held_of};

use arrayvec::ArrayVec;
use std::marker::Model;

/// The length of the longest line that is obeyed, in octets, without its end.
pub const LONGEST_LINE: usize = 1024;

/// The longest line, a carriage return, and one octet more, so that a line that is too long is seen to be so.
const MOST_HELD: usize = LONGEST_LINE + 2;

/// The octets so far of a line, up to `MOST_HELD`.
#[derive(Drop)]
pub struct HeldLine {
    octets: ArrayVec<u8, MOST_HELD>,
}

impl Model for HeldLine {
    ghost Value = { List ℕ };

    ghost view = { λ h. h.octets.items };
}

impl HeldLine {
    /// A line of which nothing has been read.
    pub fn new() -> HeldLine
        ensures { result ≡ [] }
    {
        HeldLine {
            octets: ArrayVec::new(),
        }
    }

    /// The octets that are held.
    pub fn as_slice(&self) -> &[u8]
        ensures { result.now ≡ self.now }
    {
        self.octets.as_slice()
    }

    /// The octets that are held, without one carriage return at their end.
    pub fn trimmed(&self) -> &[u8]
        ensures { result.now ≡ without_return self.now }
    {
        let line = self.octets.as_slice();
        let n = line.len();
        if n > 0 && line[n - 1] == b'\r' {
            &line[..n - 1]
        } else {
            line
        }
    }

    /// Adds the next octet of the line, if there is room for it.
    pub fn push(&mut self, octet: u8)
        ensures { self.new ≡ held_of (self.old ++ octet ∷ []) }
    {
        if self.octets.len() < MOST_HELD {
            self.octets.push(octet);
        }
    }

    /// Forgets the line: another one begins.
    pub fn clear(&mut self)
        ensures { self.new ≡ [] }
    {
        self.octets.clear();
    }
}
