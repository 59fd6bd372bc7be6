//! Laws of the definitions alone.

ghost use Rattle.std.specs.Prelude.{◌≡◌, ℕ, List};
ghost use Rattle.streams.specs.Split.{AreLines, Splits};

use crate::engine::MOST_READS;
use crate::held_line::LONGEST_LINE;
use crate::source::MOST_COUNTED;

/// If an input is cut into lines with their ends and the front of one more, `lines_of` gives those lines,
/// each without one carriage return. Each input can be cut so.
pub fn lines_are()
    ensures only { (input : List ℕ) (whole : List (List ℕ)) (rest : List ℕ) → Splits input whole rest → AreLines input whole rest }
    ensures some { (input : List ℕ) → (whole : List (List ℕ)) × (rest : List ℕ) × Splits input whole rest }
{}

/// A line has at most 1,024 octets, without its end. A run reads fewer than 2^40 times, and counts at most 2^63 calls.
pub fn limits_law()
    ensures line { LONGEST_LINE ≡ 1024 }
    ensures reads { MOST_READS ≡ 1099511627776 }
    ensures counted { MOST_COUNTED ≡ 9223372036854775808 }
{}
