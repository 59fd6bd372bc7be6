//! The reader of a client's connection.

ghost use Rattle.std.specs.Prelude.{◌≡◌, ◌+◌, ◌<◌, ◌≤◌, None, length, take, drop, IfOk, IfSome, MatchBool, OnErr};
ghost use Rattle.std.specs.Io.Buffered.{reader_buffer, reader_capacity, reader_inner, reader_remaining};
ghost use Rattle.std.specs.Io.KnownBytes.{IsAtEnd, Keeps};
ghost use Rattle.streams.specs.Told.{CountsFailure};
ghost use Rattle.streams.specs.declared.source.TheConstants.{MOST_COUNTED};
ghost use Rattle.plain_workers.specs.Reads.{ReadsMessage, ReadsUnknown};
ghost use Rattle.plain_workers.specs.Spots.{spot_after, IsOfOneMessage};

use crate::spot::Spot;
use clock::{Deadline, StopFlag, Timeouts, begin_wait, glance, is_wait_over};
use replies::MOST_FRAMED;
use std::alloc::Global;
use std::io;
use std::io::{BufRead, BufReader, ErrorKind, Read};
use std::rt::Clock;
use streams::{ReadFailed, Source};

/// A reader of messages preceded by their lengths (RFC 1035, section 4.2.2), which reads ahead of what it hands out.
///
/// If a message has not come whole `PATIENCE_SECONDS` after the reader first waited for it, the read fails, which ends the
/// connection. If the stop flag is set where a message would begin, the connection is at its end, and inside a message a read fails.
#[derive(Drop)]
pub struct FrameReader<'a, R: Clock, F: StopFlag, S: Read> {
    rt: &'a R,
    stop: &'a F,
    stream: BufReader<S>,
    spot: Spot,
    /// The deadline of the message, once the reader has waited for it.
    deadline: Option<Deadline>,
    calls: u64,
    failures: u64,
    ghost fewer: { failures ≤ calls },
}

impl<'a, R: Clock, F: StopFlag, S: Read + Timeouts + Drop> FrameReader<'a, R, F, S> {
    /// A reader at the start of a connection. An error if there is no memory for what it reads ahead.
    pub(crate) fn new(
        rt: &'a R,
        alloc: Global,
        stream: S,
        stop: &'a F,
    ) -> io::Result<FrameReader<'a, R, F, S>>
        ensures { IfOk result (λ reader. reader.calls ≡ 0) }
    {
        Ok(FrameReader {
            rt,
            stop,
            // Reads ahead the longest message preceded by its length, or many short ones.
            stream: BufReader::with_capacity(alloc, MOST_FRAMED, stream)?,
            spot: Spot::Beginning,
            deadline: None,
            calls: 0,
            failures: 0,
        })
    }
}

/// Limits the next read: it waits until the deadline at most, and no longer than `glance`.
fn limit_wait<R: Clock, S: Timeouts>(
    rt: &R,
    stream: &S,
    deadline: &mut Option<Deadline>,
) -> io::Result<()> {
    let left = begin_wait(rt, deadline)?.left(rt)?;
    stream.limit_read(left.min(glance()))
}

impl<'a, R: Clock, F: StopFlag, S: Read + Timeouts> FrameReader<'a, R, F, S> {
    /// Hands out octets of one message: the number of octets at the front of the room.
    fn hand_out(&mut self, room: &mut [u8]) -> usize
        ensures within { result ≤ length room.new }
        ensures held { take result room.new ≡ take result (reader_buffer self.old.stream) }
        ensures left { reader_buffer self.new.stream ≡ drop result (reader_buffer self.old.stream) }
        ensures inner { reader_inner self.new.stream ≡ reader_inner self.old.stream }
        ensures capacity { reader_capacity self.new.stream ≡ reader_capacity self.old.stream }
        ensures spot { self.new.spot ≡ spot_after self.old.spot (take result room.new) }
        ensures one { IsOfOneMessage self.old.spot (take result room.new) }
        ensures counts { (self.new.calls ≡ self.old.calls) × (self.new.failures ≡ self.old.failures) }
    {
        let held = self.stream.buffer();
        let most = held.len().min(room.len());
        let count = self.spot.go_on(&held[..most]);
        room[..count].copy_from_slice(&held[..count]);
        self.stream.consume(count);
        // Only a message that came whole ends its deadline.
        if count > 0 && self.spot == Spot::Beginning {
            self.deadline = None;
        }
        count
    }

    /// Waits for octets if none are held, up to the limit: then none may have come. False at the end of the connection.
    fn fill(&mut self) -> io::Result<bool>
        ensures kept { Keeps (reader_remaining S.remaining self.old.stream) (reader_remaining S.remaining self.new.stream) }
        ensures end { IfOk result (λ going. MatchBool going (Unit {0}) (IsAtEnd (reader_remaining S.remaining self.old.stream))) }
        ensures spot { self.new.spot ≡ self.old.spot }
        ensures counts { (self.new.calls ≡ self.old.calls) × (self.new.failures ≡ self.old.failures) }
    {
        if !self.stream.buffer().is_empty() {
            return Ok(true);
        }
        limit_wait(self.rt, self.stream.get_ref(), &mut self.deadline)?;
        match self.stream.fill_buf() {
            Ok(octets) => Ok(!octets.is_empty()),
            Err(error) => {
                if is_wait_over(&error) {
                    Ok(true)
                } else {
                    Err(error)
                }
            }
        }
    }

    /// Some octets of one message, or no octets if none came so far. None at the end.
    fn come(&mut self, room: &mut [u8]) -> io::Result<Option<usize>>
        // It ends if the flag is set where a message begins, or with the connection.
        ensures read { ReadsMessage result self.old.spot F.stopped self.old.stream self.new.stream
            (reader_remaining S.remaining) room.new }
        ensures within { IfOk result (λ came. IfSome came (λ count. count ≤ length room.new)) }
        ensures spot { IfOk result (λ came. IfSome came (λ count. self.new.spot ≡ spot_after self.old.spot (take count room.new))) }
        ensures one { IfOk result (λ came. IfSome came (λ count. IsOfOneMessage self.old.spot (take count room.new))) }
        ensures counts { (self.new.calls ≡ self.old.calls) × (self.new.failures ≡ self.old.failures) }
    {
        if self.stop.is_set() {
            if self.spot == Spot::Beginning {
                return Ok(None);
            }
            return Err(io::Error::from(ErrorKind::TimedOut));
        }
        if !self.fill()? {
            return Ok(None);
        }
        Ok(Some(self.hand_out(room)))
    }
}

impl<'a, R: Clock, F: StopFlag, S: Read + Timeouts> Source for FrameReader<'a, R, F, S> {
    // Nothing is known of what a peer sends.
    ghost remaining = { λ _. None };

    ghost calls = { λ reader. reader.calls };

    ghost failures = { λ reader. reader.failures };

    fn next(&mut self, room: &mut [u8]) -> Result<Option<usize>, ReadFailed>
        requires room { 0 < length room.old }
        requires few { self.old.calls < MOST_COUNTED }
        // As at a source of which nothing is known,
        ensures some { ReadsUnknown result room.new }
        ensures err { OnErr result (Keeps None None) }
        // and it ends if the flag is set where a message begins, or with the connection.
        ensures read { ReadsMessage result self.old.spot F.stopped self.old.stream self.new.stream
            (reader_remaining S.remaining) room.new }
        ensures length { length room.new ≡ length room.old }
        ensures calls { self.new.calls ≡ self.old.calls + 1 }
        ensures failures { CountsFailure result self.old.failures self.new.failures }
    {
        let came = self.come(room);
        self.calls += 1;
        match came {
            Ok(came) => Ok(came),
            Err(_) => {
                self.failures += 1;
                Err(ReadFailed)
            }
        }
    }
}
