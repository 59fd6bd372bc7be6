//! Deadlines, and the times that sockets wait and rest.

ghost use Rattle.std.specs.Prelude.{◌≡◌, ◌<◌, ◌≤◌, ◌*◌, IfOk};
ghost use Rattle.std.specs.Duration.{as_nanos};
ghost use Rattle.clock.specs.declared.deadline.TheConstants.{PATIENCE_SECONDS};

use std::io;
use std::io::ErrorKind;
use std::rt::Clock;
use std::time::{Duration, Instant};

/// The seconds that an exchange with a name server may take, connecting included, and so a client's message over TCP.
pub const PATIENCE_SECONDS: u64 = 2;

/// The milliseconds that a socket waits before its worker looks at the stop flag again.
const GLANCE_MILLISECONDS: u64 = 500;

/// The seconds that a listener rests after it failed to accept a connection.
pub const REST_SECONDS: u64 = 1;

/// The time that an exchange with a name server, and a client's message over TCP, may take.
fn patience() -> Duration
    ensures { as_nanos result ≡ PATIENCE_SECONDS * 1_000_000_000 }
{
    Duration::from_secs(PATIENCE_SECONDS)
}

/// The time that a socket waits before its worker looks at the stop flag again.
pub fn glance() -> Duration
    ensures { 0 < as_nanos result }
{
    Duration::from_millis(GLANCE_MILLISECONDS)
}

/// Whether a call ended since its timeout passed, or a signal came.
pub fn is_wait_over(error: &io::Error) -> bool {
    matches!(
        error.kind(),
        ErrorKind::WouldBlock | ErrorKind::TimedOut | ErrorKind::Interrupted
    )
}

/// A deadline: `PATIENCE_SECONDS` after it was set.
#[derive(Clone, Copy)]
pub struct Deadline {
    start: Instant,
}

impl Deadline {
    /// A deadline that runs from now on. An error if the clock cannot be read.
    pub fn set<R: Clock>(rt: &R) -> io::Result<Deadline> {
        let start = Instant::now(rt)?;
        Ok(Deadline { start })
    }

    /// The time that is left, which is never 0, since a socket takes a timeout of 0 for none. Past the deadline it is the error
    /// `TimedOut`.
    pub fn left<R: Clock>(&self, rt: &R) -> io::Result<Duration>
        ensures some { IfOk result (λ left. 0 < as_nanos left) }
        ensures most { IfOk result (λ left. as_nanos left ≤ PATIENCE_SECONDS * 1_000_000_000) }
    {
        let left = patience().saturating_sub(self.start.elapsed(rt)?);
        if left.is_zero() {
            return Err(io::Error::from(ErrorKind::TimedOut));
        }
        Ok(left)
    }
}

/// The deadline that was set earlier, or else one that runs from now on.
pub fn begin_wait<R: Clock>(rt: &R, deadline: &mut Option<Deadline>) -> io::Result<Deadline> {
    match *deadline {
        Some(earlier) => Ok(earlier),
        None => {
            let begun = Deadline::set(rt)?;
            *deadline = Some(begun);
            Ok(begun)
        }
    }
}
