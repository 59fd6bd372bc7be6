//! The engine of lines: it reads an input, obeys its lines in order, and writes the reply to each.

ghost use Rattle.std.specs.Prelude.{◌≡◌, ℕ, List, [], ◌∷◌, ◌≤◌, ◌<◌, ◌+◌, IsErrOf};
ghost use Rattle.streams.specs.declared.source.TheConstants.{MOST_COUNTED};
ghost use Rattle.streams.specs.declared.engine.TheConstants.{MOST_READS};
ghost use Rattle.streams.specs.declared.fault.Flow.TheVariants.{On};
ghost use Rattle.streams.specs.declared.fault.ScriptFault.TheVariants.{Write as WriteFault};
ghost use Rattle.streams.specs.Split.{ended_lines, begun_line, last_line, held_of, IsLineHeard};
ghost use Rattle.streams.specs.Transcript.{paired};
ghost use Rattle.streams.specs.Flow.{Tells, CountsFlow};
ghost use Rattle.streams.specs.Engine.{RunsLines, ReadFails};

use crate::fault::{Ended, Flow, ScriptFault};
use crate::held_line::HeldLine;
use crate::obeyer::{LineReply, Obeyer};
use crate::sending::send;
use crate::sink::Sink;
use crate::source::Source;
use std::alloc::Global;

/// A run makes fewer reads than this. If it would need one more, it fails as if that read had failed.
pub const MOST_READS: u64 = 1 << 40;

/// The most octets that one read takes.
const ROOM: usize = 4096;

/// Obeys a line and writes its reply.
fn tell<T, D, O: Obeyer<T, D>, W: Sink>(
    alloc: Global,
    time: &mut T,
    desk: &mut D,
    line: &[u8],
    writer: &mut W,
) -> Flow
    requires { W.failures writer.old < MOST_COUNTED }
    ensures told { (whole : List ℕ) → IsLineHeard line.now whole → Tells result (paired O.obeys)
        (time.old, desk.old) (whole ∷ []) (time.new, desk.new) (W.contents writer.old) (W.contents writer.new) }
    ensures failures { CountsFlow result (W.failures writer.old) (W.failures writer.new) }
{
    let LineReply { text, stops } = O::obey(alloc, time, desk, line);
    match send(writer, text.as_slice()) {
        Ok(()) => { if stops { Flow::Stopped } else { Flow::On } }
        Err(_) => Flow::Failed,
    }
}

/// Takes one octet of the input. If it ends a line, obeys the line and writes its reply.
fn feed_one<T, D, O: Obeyer<T, D>, W: Sink>(
    alloc: Global,
    time: &mut T,
    desk: &mut D,
    held: &mut HeldLine,
    octet: u8,
    writer: &mut W,
) -> Flow
    requires { W.failures writer.old < MOST_COUNTED }
    ensures told { (begun : List ℕ) → held.old ≡ held_of begun → Tells result (paired O.obeys)
        (time.old, desk.old) (ended_lines begun (octet ∷ [])) (time.new, desk.new) (W.contents writer.old) (W.contents writer.new) }
    ensures held { (begun : List ℕ) → held.old ≡ held_of begun → held.new ≡ held_of (begun_line begun (octet ∷ [])) }
    ensures failures { CountsFlow result (W.failures writer.old) (W.failures writer.new) }
{
    if octet != b'\n' {
        held.push(octet);
        return Flow::On;
    }
    let flow = tell::<T, D, O, W>(alloc, time, desk, held.trimmed(), writer);
    held.clear();
    flow
}

/// Takes some octets of the input. Obeys each line that ends in them and writes its reply.
fn feed<T, D, O: Obeyer<T, D>, W: Sink>(
    alloc: Global,
    time: &mut T,
    desk: &mut D,
    held: &mut HeldLine,
    octets: &[u8],
    writer: &mut W,
) -> Flow
    requires { W.failures writer.old < MOST_COUNTED }
    ensures told { (begun : List ℕ) → held.old ≡ held_of begun → Tells result (paired O.obeys)
        (time.old, desk.old) (ended_lines begun octets.now) (time.new, desk.new) (W.contents writer.old) (W.contents writer.new) }
    ensures held { (begun : List ℕ) → held.old ≡ held_of begun → result ≡ On → held.new ≡ held_of (begun_line begun octets.now) }
    ensures failures { CountsFlow result (W.failures writer.old) (W.failures writer.new) }
{
    for octet in octets {
        match feed_one::<T, D, O, W>(alloc, time, desk, held, *octet, writer) {
            Flow::On => {}
            flow => return flow,
        }
    }
    Flow::On
}

/// Ends the input. If a line has begun, it is the last one: obeys it and writes its reply.
fn finish<T, D, O: Obeyer<T, D>, W: Sink>(
    alloc: Global,
    time: &mut T,
    desk: &mut D,
    held: &[u8],
    writer: &mut W,
) -> Flow
    requires { W.failures writer.old < MOST_COUNTED }
    ensures told { (begun : List ℕ) → held.now ≡ held_of begun → Tells result (paired O.obeys)
        (time.old, desk.old) (last_line begun) (time.new, desk.new) (W.contents writer.old) (W.contents writer.new) }
    ensures failures { CountsFlow result (W.failures writer.old) (W.failures writer.new) }
{
    if held.is_empty() {
        return Flow::On;
    }
    tell::<T, D, O, W>(alloc, time, desk, held, writer)
}

/// Obeys the lines of the input in order, and writes the reply to each and nothing else.
/// `Read`: a read failed, or the run may not read once more. `Write`: a write failed.
pub fn run_lines<T, D, O: Obeyer<T, D>, S: Source, W: Sink>(
    alloc: Global,
    time: &mut T,
    desk: &mut D,
    reader: &mut S,
    writer: &mut W,
) -> Result<Ended, ScriptFault>
    requires reads { S.calls reader.old + MOST_READS ≤ MOST_COUNTED }
    requires writes { W.failures writer.old < MOST_COUNTED }
    // It reads fewer times than it may, and fails only if a read or a write failed, or if it may not read once more.
    ensures few { S.calls reader.new < S.calls reader.old + MOST_READS }
    ensures read_failed { ReadFails S.calls S.failures result reader.old reader.new }
    ensures write_failed { IsErrOf result WriteFault → W.failures writer.new ≡ W.failures writer.old + 1 }
    // What it read, which lines of that it obeyed, and what it wrote.
    ensures runs { RunsLines result (paired O.obeys) (time.old, desk.old) (time.new, desk.new)
        (S.remaining reader.old) (S.remaining reader.new) (W.contents writer.old) (W.contents writer.new) }
{
    let mut held = HeldLine::new();
    let mut room = [0u8; ROOM];
    for _ in 1..MOST_READS {
        match reader.next(&mut room)? {
            Some(n) => match feed::<T, D, O, W>(alloc, time, desk, &mut held, &room[..n], writer) {
                Flow::On => {}
                Flow::Stopped => return Ok(Ended::Stop),
                Flow::Failed => return Err(ScriptFault::Write),
            },
            None => match finish::<T, D, O, W>(alloc, time, desk, held.as_slice(), writer) {
                Flow::On => return Ok(Ended::EndOfInput),
                Flow::Stopped => return Ok(Ended::Stop),
                Flow::Failed => return Err(ScriptFault::Write),
            },
        }
    }
    Err(ScriptFault::Read)
}
