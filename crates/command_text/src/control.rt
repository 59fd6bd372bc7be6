//! The control socket: an operator's lines, obeyed one after another.

ghost use Rattle.std.specs.Prelude.{◌≡◌, ◌≤◌, ◌<◌, ◌+◌, IsErrOf};
ghost use Rattle.streams.specs.declared.engine.TheConstants.{MOST_READS};
ghost use Rattle.streams.specs.declared.source.TheConstants.{MOST_COUNTED};
ghost use Rattle.streams.specs.declared.fault.ScriptFault.TheVariants.{Write as WriteFault};
ghost use Rattle.streams.specs.Transcript.{paired};
ghost use Rattle.streams.specs.Engine.{ReadFails, RunsLines};
ghost use Rattle.command_text.specs.Control.{Controls};

use crate::control_line::obey_control;
use clock::Clock;
use history::Desk;
use std::alloc::Global;
use streams::{Ended, LineReply, Obeyer, ScriptFault, Sink, Source, run_lines};

/// Obeys control lines at a desk, at the moments of a clock.
struct Control;

impl<C: Clock, D: Desk> Obeyer<C, D> for Control {
    ghost obeys = { Controls C.ticks D.calls };

    fn obey(alloc: Global, time: &mut C, desk: &mut D, line: &[u8]) -> LineReply {
        obey_control(alloc, time, desk, line)
    }
}

/// Obeys the control lines of the input in order, and writes the reply to each and nothing else.
/// `stop` ends it: what was read after that line is lost.
pub fn serve_control<D: Desk, C: Clock, S: Source, W: Sink>(
    alloc: Global,
    desk: &mut D,
    clock: &mut C,
    reader: &mut S,
    writer: &mut W,
) -> Result<Ended, ScriptFault>
    requires reads { S.calls reader.old + MOST_READS ≤ MOST_COUNTED }
    requires writes { W.failures writer.old < MOST_COUNTED }
    // It reads fewer times than it may, and fails only if a read or a write failed, or if it may not read once more.
    ensures few { S.calls reader.new < S.calls reader.old + MOST_READS }
    ensures read_failed { ReadFails S.calls S.failures result reader.old reader.new }
    ensures write_failed { IsErrOf result WriteFault → W.failures writer.new ≡ W.failures writer.old + 1 }
    // What it read, which lines of that it obeyed, and what it wrote.
    ensures runs { RunsLines result (paired (Controls C.ticks D.calls)) (clock.old, desk.old) (clock.new, desk.new)
        (S.remaining reader.old) (S.remaining reader.new) (W.contents writer.old) (W.contents writer.new) }
{
    run_lines::<C, D, Control, S, W>(alloc, clock, desk, reader, writer)
}
