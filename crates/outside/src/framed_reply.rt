//! A reply that comes, preceded by its length.

ghost use Rattle.std.specs.Prelude.{◌↔◌, ◌<◌, length, IsTrue, IfOk, OnOk};
ghost use Rattle.std.specs.Io.{StartsWith, appended_bytes};
ghost use Rattle.std.specs.Io.KnownBytes.{Consumes};
ghost use Rattle.replies.specs.Wanting.{IsWholeFrame};

use replies::BegunMessage;
use std::io;
use std::io::{ErrorKind, Read};
use system::{MOST_CALLS, would_wait};

/// Reads as much of a reply as the connection has, and nothing after it: whether the reply has come whole. It fails if a read
/// fails, if the connection ends or no memory is left, or after `MOST_CALLS` calls.
pub(crate) fn read_on<S: Read>(
    reply: &mut BegunMessage,
    stream: &mut S,
    room: &mut [u8],
) -> io::Result<bool>
    requires { 0 < length room.old }
    ensures came { StartsWith reply.new.octets.items reply.old.octets.items }
    ensures read { OnOk result
        (Consumes (S.remaining stream.old) (S.remaining stream.new) (appended_bytes reply.old.octets.items reply.new.octets.items)) }
    ensures whole { IfOk result (λ is_whole. IsTrue is_whole ↔ IsWholeFrame reply.new.octets.items) }
{
    for _ in 0..MOST_CALLS {
        let most = reply.wanting().min(room.len());
        if most == 0 {
            return Ok(true);
        }
        match stream.read(&mut room[..most]) {
            Ok(0) => return Err(io::Error::from(ErrorKind::UnexpectedEof)),
            Ok(count) => reply.add(&room[..count])?,
            Err(error) => {
                if would_wait(error)? {
                    return Ok(false);
                }
            }
        }
    }
    Err(io::Error::from(ErrorKind::TimedOut))
}
