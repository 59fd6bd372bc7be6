//! Filling a buffer from a reader.

ghost use Rattle.std.specs.Prelude.{◌≡◌, ◌+◌, ◌<◌, ◌≤◌, length, OnOk};
ghost use Rattle.streams.specs.Filled.{Filled, GivesUp};
ghost use Rattle.streams.specs.declared.source.TheConstants.{MOST_COUNTED};

use crate::source::{ReadFailed, Source};

/// Fills a buffer, or as much of it as the input has, in at most `left` reads, and counts them off `left`.
/// Returns the number of octets. An error if a read fails or if one more read would be needed.
pub fn fill<S: Source>(reader: &mut S, left: &mut u64, room: &mut [u8]) -> Result<usize, ReadFailed>
    requires { S.calls reader.old + left.old ≤ MOST_COUNTED }
    ensures filled { Filled result (S.remaining reader.old) (S.remaining reader.new) room.new }
    ensures length { length room.new ≡ length room.old }
    ensures calls { S.calls reader.new + left.new ≡ S.calls reader.old + left.old }
    ensures no_more { left.new ≤ left.old }
    ensures falls { OnOk result (0 < length room.old → left.new < left.old) }
    ensures failures { GivesUp result left.new (S.failures reader.old) (S.failures reader.new) }
{
    let mut filled = 0;
    while filled < room.len() {
        if *left == 0 {
            return Err(ReadFailed);
        }
        *left -= 1;
        match reader.next(&mut room[filled..])? {
            Some(n) => filled += n,
            None => return Ok(filled),
        }
    }
    Ok(filled)
}
