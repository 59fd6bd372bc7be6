//! The trait that obeys one line.

ghost use Rattle.std.specs.Prelude.{ℕ, Bool, List};
ghost use Rattle.streams.specs.Split.{IfHeard};
ghost use Rattle.streams.specs.Text.{octets_in};

use crate::text::Text;
use std::alloc::Global;

/// The reply to a line, and whether the run stops there.
#[derive(Drop)]
pub struct LineReply {
    /// The text of the reply.
    pub text: Text,
    /// Whether the run stops: no line after this one is obeyed.
    pub stops: bool,
}

/// A way to obey lines at a desk `D`, in a time `T`: a moment, or a clock.
pub trait Obeyer<T, D> {
    /// The time and the desk before, the line, its reply, whether the run stops, the time and the desk after.
    ghost obeys: { T → D → List ℕ → List ℕ → Bool → T → D → Type 0 };

    /// Obeys a line. A line that is too long may be cut, but is still too long and keeps its first octet.
    fn obey(alloc: Global, time: &mut T, desk: &mut D, line: &[u8]) -> LineReply
        ensures obeys { IfHeard line.now (λ whole.
            obeys time.old desk.old whole (octets_in result.text) result.stops time.new desk.new) };
}
