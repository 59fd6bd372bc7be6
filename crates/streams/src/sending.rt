//! Writing a whole text.

ghost use Rattle.std.specs.Prelude.{◌<◌};
ghost use Rattle.streams.specs.Told.{Sent, CountsFailure};
ghost use Rattle.streams.specs.declared.source.TheConstants.{MOST_COUNTED};

use crate::sink::{Sink, WriteFailed};

/// Writes a text. If a write fails, only a front of the text was written.
pub fn send<W: Sink>(writer: &mut W, text: &[u8]) -> Result<(), WriteFailed>
    requires { W.failures writer.old < MOST_COUNTED }
    ensures sent { Sent result (W.contents writer.old) (W.contents writer.new) text.now }
    ensures failures { CountsFailure result (W.failures writer.old) (W.failures writer.new) }
{
    let mut sent = 0;
    while sent < text.len() {
        sent += writer.put(&text[sent..])?;
    }
    Ok(())
}
