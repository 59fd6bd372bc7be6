//! Writers that count their failures.

ghost use Rattle.std.specs.Prelude.{◌≡◌, ℕ, List, Option, ◌+◌, ◌<◌, length, IfOk, OnErr};
ghost use Rattle.std.specs.Io.KnownBytes.{Keeps};
ghost use Rattle.streams.specs.Told.{Takes, TakesOrKeeps, CountsFailure};
ghost use Rattle.streams.specs.declared.source.TheConstants.{MOST_COUNTED};

use std::io::{ErrorKind, Write};

/// A write failed.
#[derive(Clone, Copy, PartialEq, Eq)]
pub struct WriteFailed;

/// A writer that takes octets in pieces. It counts failures only: a call that succeeds always makes progress.
pub trait Sink {
    /// The octets that were written to it, if they are known.
    ghost contents: { Self → Option (List ℕ) };

    /// How many calls failed.
    ghost failures: { Self → ℕ };

    /// Writes a front of the text, at least one octet, and returns its length. After an error nothing was written.
    fn put(&mut self, text: &[u8]) -> Result<usize, WriteFailed>
        requires text { 0 < length text.now }
        requires few { failures self.old < MOST_COUNTED }
        ensures ok { IfOk result (λ n. Takes n (contents self.old) (contents self.new) text.now) }
        ensures err { OnErr result (Keeps (contents self.old) (contents self.new)) }
        ensures failures { CountsFailure result (failures self.old) (failures self.new) };
}

/// A writer of std, with the count of its failures.
#[derive(Drop)]
pub struct CountedWriter<W> {
    writer: W,
    failures: u64,
}

/// How often a write that a signal interrupted is tried again.
const MOST_TRIES: u64 = 1 << 40;

impl<W: Write> CountedWriter<W> {
    /// The writer, with no failure counted.
    pub fn new(writer: W) -> CountedWriter<W>
        ensures writer { result.writer ≡ writer }
        ensures failures { result.failures ≡ 0 }
    {
        CountedWriter {
            writer,
            failures: 0,
        }
    }
}

/// Writes a front of a text once. Returns None if a signal interrupted the write.
fn write_once<W: Write>(writer: &mut W, text: &[u8]) -> Result<Option<usize>, WriteFailed>
    ensures ok { IfOk result (TakesOrKeeps (W.contents writer.old) (W.contents writer.new) text.now) }
    ensures err { OnErr result (Keeps (W.contents writer.old) (W.contents writer.new)) }
{
    match writer.write(text) {
        Ok(0) => Err(WriteFailed),
        Ok(n) => Ok(Some(n)),
        Err(e) => {
            if e.kind() == ErrorKind::Interrupted {
                Ok(None)
            } else {
                Err(WriteFailed)
            }
        }
    }
}

/// Writes a front of a text, at least one octet.
fn write_some<W: Write>(writer: &mut W, text: &[u8]) -> Result<usize, WriteFailed>
    ensures ok { IfOk result (λ n. Takes n (W.contents writer.old) (W.contents writer.new) text.now) }
    ensures err { OnErr result (Keeps (W.contents writer.old) (W.contents writer.new)) }
{
    for _ in 0..MOST_TRIES {
        if let Some(n) = write_once(writer, text)? {
            return Ok(n);
        }
    }
    Err(WriteFailed)
}

impl<W: Write> Sink for CountedWriter<W> {
    ghost contents = { λ s. W.contents s.writer };

    ghost failures = { λ s. s.failures };

    fn put(&mut self, text: &[u8]) -> Result<usize, WriteFailed> {
        match write_some(&mut self.writer, text) {
            Ok(n) => Ok(n),
            Err(e) => {
                self.failures += 1;
                Err(e)
            }
        }
    }
}
