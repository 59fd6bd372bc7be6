//! The replies that come to a client, octet by octet.

ghost use Rattle.std.specs.Prelude.{◌≡◌, ◌||◌, nat_eq, codes};
ghost use Rattle.std.specs.List.{starts_with};

use streams::HeldLine;

/// Whether a line gets no reply: it is empty, or a comment.
pub(crate) fn is_silent(line: &[u8]) -> bool {
    line.is_empty() || line[0] == b'#' || line == b"\r".as_slice()
}

/// Whether a line of a reply says that a command was not obeyed.
pub(crate) fn is_refusal(line: &[u8]) -> bool
    ensures { result ≡ (starts_with nat_eq line.now (codes "error ") || starts_with nat_eq line.now (codes "fault ")) }
{
    line.starts_with(b"error ") || line.starts_with(b"fault ")
}

/// The replies that came so far.
#[derive(Drop)]
pub(crate) struct Replies {
    /// The lines that came whole.
    pub lines: u64,
    /// Whether one of them says that a command was not obeyed.
    pub refused: bool,
    /// The line that has begun.
    held: HeldLine,
}

impl Replies {
    /// No reply has come.
    pub fn new() -> Replies {
        Replies {
            lines: 0,
            refused: false,
            held: HeldLine::new(),
        }
    }

    /// Takes the next octets.
    pub fn take(&mut self, octets: &[u8]) {
        for octet in octets {
            if *octet == b'\n' {
                self.lines = self.lines.saturating_add(1);
                self.refused |= is_refusal(self.held.as_slice());
                self.held.clear();
            } else {
                self.held.push(*octet);
            }
        }
    }
}
