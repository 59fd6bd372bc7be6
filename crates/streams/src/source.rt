//! Readers that count their calls and failures.

ghost use Rattle.std.specs.Prelude.{◌≡◌, ℕ, List, Option, ◌+◌, ◌<◌, ◌≤◌, length, IfOk, OnErr};
ghost use Rattle.std.specs.Io.KnownBytes.{Keeps};
ghost use Rattle.streams.specs.Coming.{Fills};
ghost use Rattle.streams.specs.Told.{CountsFailure};
ghost use Rattle.streams.specs.declared.source.TheConstants.{MOST_COUNTED};

use std::io::{ErrorKind, Read};

/// No call is made once a count has reached this, so that no count overflows.
pub const MOST_COUNTED: u64 = 1 << 63;

/// A read failed.
#[derive(Clone, Copy, PartialEq, Eq)]
pub struct ReadFailed;

/// A reader that gives octets in pieces. It counts its calls, and those of them that failed.
pub trait Source {
    /// The octets that are left to read, if they are known.
    ghost remaining: { Self → Option (List ℕ) };

    /// How often it was called.
    ghost calls: { Self → ℕ };

    /// How many of the calls failed.
    ghost failures: { Self → ℕ };

    /// Reads into the buffer and returns the number of octets, or None at the end of the input.
    /// A read that a signal interrupts gives 0 octets.
    fn next(&mut self, room: &mut [u8]) -> Result<Option<usize>, ReadFailed>
        requires room { 0 < length room.old }
        requires few { calls self.old < MOST_COUNTED }
        ensures some { IfOk result (Fills (remaining self.old) (remaining self.new) room.new) }
        ensures err { OnErr result (Keeps (remaining self.old) (remaining self.new)) }
        ensures length { length room.new ≡ length room.old }
        ensures calls { calls self.new ≡ calls self.old + 1 }
        ensures failures { CountsFailure result (failures self.old) (failures self.new) };
}

/// A reader of std, with the counts of its calls and failures.
#[derive(Drop)]
pub struct CountedReader<R> {
    reader: R,
    calls: u64,
    failures: u64,
    ghost fewer: { failures ≤ calls },
}

impl<R: Read> CountedReader<R> {
    /// The reader, with nothing counted.
    pub fn new(reader: R) -> CountedReader<R>
        ensures reader { result.reader ≡ reader }
        ensures calls { result.calls ≡ 0 }
    {
        CountedReader {
            reader,
            calls: 0,
            failures: 0,
        }
    }
}

impl<R: Read> Source for CountedReader<R> {
    ghost remaining = { λ s. R.remaining s.reader };

    ghost calls = { λ s. s.calls };

    ghost failures = { λ s. s.failures };

    fn next(&mut self, room: &mut [u8]) -> Result<Option<usize>, ReadFailed> {
        match self.reader.read(room) {
            Ok(0) => {
                self.calls += 1;
                Ok(None)
            }
            Ok(n) => {
                self.calls += 1;
                Ok(Some(n))
            }
            Err(e) => {
                self.calls += 1;
                if e.kind() == ErrorKind::Interrupted {
                    return Ok(Some(0));
                }
                self.failures += 1;
                Err(ReadFailed)
            }
        }
    }
}
