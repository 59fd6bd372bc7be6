//! A stream of messages.

ghost use Rattle.std.specs.Prelude.{◌≡◌, ◌+◌, ◌<◌, ◌≤◌, IsErrOf};
ghost use Rattle.streams.specs.declared.engine.TheConstants.{MOST_READS};
ghost use Rattle.streams.specs.declared.source.TheConstants.{MOST_COUNTED};
ghost use Rattle.replies.specs.declared.fault.StreamFault.TheVariants.{Write as WriteFault};
ghost use Rattle.replies.specs.Framing.{CountsWrite};
ghost use Rattle.plain_workers.specs.States.{MessageServed, StreamServed};
ghost use Rattle.plain_workers.specs.TcpWorking.{ReadFails};

use crate::exchange::Exchange;
use crate::query::serve_query;
use crate::tools::Tools;
use clock::Clock;
use dns_query::Over;
use dns_text::Octets;
use history::Desk;
use rand_core::Rng;
use replies::{StreamFault, frame, take_message};
use std::alloc::Global;
use streams::{MOST_READS, Sink, Source, send};

/// Serves one message of a stream, and writes its reply.
fn serve_message<D: Desk, X: Exchange, C: Clock, R: Rng, W: Sink>(
    alloc: Global,
    desk: &mut D,
    tools: &mut Tools<X, C, R>,
    message: &Octets,
    writer: &mut W,
) -> Result<(), StreamFault>
    requires { W.failures writer.old < MOST_COUNTED }
    ensures port { tools.new.server_port ≡ tools.old.server_port }
    ensures served { MessageServed D.calls X.asks C.ticks R.stream result message.now
        desk.old tools.old (W.contents writer.old) desk.new tools.new (W.contents writer.new) }
    ensures failures { CountsWrite result (W.failures writer.old) (W.failures writer.new) }
{
    match serve_query(alloc, desk, tools, Over::Tcp, message.as_slice())? {
        None => Ok(()),
        Some(reply) => {
            let out = frame(alloc, &reply)?;
            send(writer, &out)?;
            Ok(())
        }
    }
}

/// Serves a stream of messages to its end: each when it has come whole, and its reply is written before the next is served.
/// `Read` and `Write` if a read or a write failed, `Short` if the input ended inside a message, `NoMemory` if none was left.
pub fn serve_stream<D: Desk, X: Exchange, C: Clock, R: Rng, S: Source, W: Sink>(
    alloc: Global,
    desk: &mut D,
    tools: &mut Tools<X, C, R>,
    reader: &mut S,
    writer: &mut W,
) -> Result<(), StreamFault>
    requires reads { S.calls reader.old + MOST_READS ≤ MOST_COUNTED }
    requires writes { W.failures writer.old < MOST_COUNTED }
    ensures port { tools.new.server_port ≡ tools.old.server_port }
    ensures streams { StreamServed D.calls X.asks C.ticks R.stream result desk.old tools.old desk.new tools.new
        (S.remaining reader.old) (S.remaining reader.new) (W.contents writer.old) (W.contents writer.new) }
    // It gives up only if a read or a write failed, or if it took as many reads as it may.
    ensures few { S.calls reader.new < S.calls reader.old + MOST_READS }
    ensures read_failed { ReadFails S.calls S.failures result reader.old reader.new }
    ensures write_failed { IsErrOf result WriteFault → W.failures writer.new ≡ W.failures writer.old + 1 }
{
    let mut left = MOST_READS - 1;
    while let Some(message) = take_message(alloc, reader, &mut left)? {
        match serve_message(alloc, desk, tools, &message, writer) {
            Ok(()) => {}
            Err(fault) => return Err(fault),
        }
    }
    Ok(())
}
