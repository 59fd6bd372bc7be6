//! The writer of a client's connection.

ghost use Rattle.std.specs.Prelude.{◌≡◌, ◌≤◌, length, take, IfOk};
ghost use Rattle.std.specs.Io.KnownBytes.{WriteAppends};
ghost use Rattle.plain_workers.specs.Spots.{spot_after, IsOfOneMessage};

use crate::spot::Spot;
use clock::{Deadline, StopFlag, Timeouts, begin_wait, glance, put_off};
use std::io;
use std::io::Write;
use std::rt::Clock;
use streams::CountedWriter;

/// A writer of messages preceded by their lengths (RFC 1035, section 4.2.2).
///
/// If a message has not left whole `PATIENCE_SECONDS` after its first write, or if it waits when the stop flag is set, the write fails,
/// which ends the connection.
pub type FrameWriter<'a, R, F, S> = CountedWriter<StreamWriter<'a, R, F, S>>;

/// The connection of a `FrameWriter`.
#[derive(Drop)]
pub struct StreamWriter<'a, R: Clock, F: StopFlag, S> {
    rt: &'a R,
    stop: &'a F,
    stream: S,
    spot: Spot,
    /// The deadline of the message, once its first write began.
    deadline: Option<Deadline>,
}

impl<'a, R: Clock, F: StopFlag, S: Write + Timeouts> StreamWriter<'a, R, F, S> {
    /// A writer at the start of a connection.
    pub(crate) fn new(rt: &'a R, stream: S, stop: &'a F) -> StreamWriter<'a, R, F, S>
        ensures { result.stream ≡ stream }
    {
        StreamWriter {
            rt,
            stop,
            stream,
            spot: Spot::Beginning,
            deadline: None,
        }
    }

    /// Writes octets of one message: the number of octets that the connection took.
    fn pass(&mut self, octets: &[u8]) -> io::Result<usize>
        ensures written { WriteAppends (S.contents self.old.stream) (S.contents self.new.stream) result octets.now }
        ensures within { IfOk result (λ count. count ≤ length octets.now) }
        ensures spot { IfOk result (λ count. self.new.spot ≡ spot_after self.old.spot (take count octets.now)) }
        ensures one { IfOk result (λ count. IsOfOneMessage self.old.spot (take count octets.now)) }
    {
        let mut end = self.spot;
        let most = end.go_on(octets);
        let left = begin_wait(self.rt, &mut self.deadline)?.left(self.rt)?;
        self.stream.limit_write(left.min(glance()))?;
        let count = match self.stream.write(&octets[..most]) {
            Ok(count) => count,
            Err(error) => return Err(put_off(self.stop, error)),
        };
        self.spot = self.spot.after(&octets[..count]);
        if self.spot == Spot::Beginning {
            self.deadline = None;
        }
        Ok(count)
    }
}

impl<'a, R: Clock, F: StopFlag, S: Write + Timeouts> Write for StreamWriter<'a, R, F, S> {
    // It holds what the connection holds.
    ghost contents = { λ writer. S.contents writer.stream };

    fn write(&mut self, octets: &[u8]) -> io::Result<usize> {
        self.pass(octets)
    }

    fn flush(&mut self) -> io::Result<()> {
        self.stream.flush()
    }
}
