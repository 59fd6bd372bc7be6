//! Scripts: lines obeyed at a book, one after another.

ghost use Rattle.std.specs.Prelude.{◌≡◌, ◌≤◌, ◌<◌, ◌+◌, IsErrOf};
ghost use Rattle.streams.specs.declared.engine.TheConstants.{MOST_READS};
ghost use Rattle.streams.specs.declared.source.TheConstants.{MOST_COUNTED};
ghost use Rattle.streams.specs.declared.fault.ScriptFault.TheVariants.{Write as WriteFault};
ghost use Rattle.streams.specs.Engine.{ReadFails};
ghost use Rattle.command_text.specs.Script.{RunsScript};

use crate::obeying::obey;
use history::Book;
use std::alloc::Global;
use streams::{LineReply, Obeyer, ScriptFault, Sink, Source, run_lines};

/// Obeys script lines at a book. The time is the moment of the events of the lines to come.
struct Script;

impl<B: Book> Obeyer<u64, B> for Script {
    ghost use Rattle.command_text.specs.Script.{Scripted};

    ghost obeys = { Scripted B.stands_for B.settings };

    fn obey(alloc: Global, time: &mut u64, desk: &mut B, line: &[u8]) -> LineReply {
        LineReply {
            text: obey(alloc, desk, time, line),
            stops: false,
        }
    }
}

/// Obeys the script lines of the input in order, from moment 0, and writes the reply to each and nothing else.
pub fn run_script<B: Book, S: Source, W: Sink>(
    alloc: Global,
    book: &mut B,
    reader: &mut S,
    writer: &mut W,
) -> Result<(), ScriptFault>
    requires reads { S.calls reader.old + MOST_READS ≤ MOST_COUNTED }
    requires writes { W.failures writer.old < MOST_COUNTED }
    // It reads fewer times than it may, and fails only if a read or a write failed, or if it may not read once more.
    ensures few { S.calls reader.new < S.calls reader.old + MOST_READS }
    ensures read_failed { ReadFails S.calls S.failures result reader.old reader.new }
    ensures write_failed { IsErrOf result WriteFault → W.failures writer.new ≡ W.failures writer.old + 1 }
    // What it read, which lines of that it obeyed at the book's history, and what it wrote.
    ensures runs { RunsScript B.Book S.Source W.Sink result book.old book.new reader.old reader.new writer.old writer.new }
    ensures settings { B.settings book.new ≡ B.settings book.old }
{
    let mut moment = 0;
    match run_lines::<u64, B, Script, S, W>(alloc, &mut moment, book, reader, writer) {
        Ok(_) => Ok(()),
        Err(fault) => Err(fault),
    }
}
