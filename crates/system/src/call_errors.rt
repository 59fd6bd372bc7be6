//! Errors of calls that never wait.

ghost use Rattle.std.specs.Prelude.{◌≡◌, IfOk, IfErr, if◌then◌else◌};
ghost use Rattle.std.specs.IoError.{error_kind};
ghost use Rattle.system.specs.Failures.{IsFailure};

use std::io;
use std::io::ErrorKind;

/// The most calls for one message preceded by its length: more than it has octets, of which a call moves one at least. An exchange
/// fails beyond them, since signals keep ending its calls.
pub const MOST_CALLS: u32 = 70_000;

/// Whether a call that failed would have waited. False if a signal ended it, so that it is to be made again. Any other error
/// is returned.
pub fn would_wait(error: io::Error) -> io::Result<bool>
    ensures waits { IfOk result (λ waits. error_kind error ≡ (if waits then ErrorKind.WouldBlock else ErrorKind.Interrupted)) }
    ensures fault { IfErr result (λ fault. (fault ≡ error) × IsFailure error) }
{
    match error.kind() {
        ErrorKind::WouldBlock => Ok(true),
        ErrorKind::Interrupted => Ok(false),
        _ => Err(error),
    }
}
