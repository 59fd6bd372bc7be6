//! The lines of a file, which a service obeys before it is ready.

ghost use Rattle.std.specs.Prelude.{◌≡◌, None, Ok, false, IfOk, IfErr, IfSome, OnOk};
ghost use Rattle.std.specs.Io.BufRead.{strip_last};
ghost use Rattle.streams.specs.Text.{octets_in};
ghost use Rattle.operators.specs.Fault.{CannotObey};
ghost use Rattle.operators.specs.FirstLines.{AcceptsIfEnded, AcceptsInput, AcceptsLine, IsAccepted, IsRepliedTo, refusal_of};

use crate::fault::CliFault;
use crate::file_reader::FileReader;
use crate::lookout::Lookout;
use crate::replies::is_refusal;
use crate::watched_fifo::WatchedFifo;
use clock::Clock;
use command_text::{Line, LineFault, obey_said, read_control};
use dns_text::next_word;
use history::Desk;
use std::alloc::{AllocError, Global};
use std::fmt::Display;
use std::io::{ErrorKind, Read};
use std::rt::Files;
use std::sync::Wait;
use std::thread::Threads;
use std::{fs, io};
use streams::{CountedWriter, Ended, LineReply, Obeyer, ScriptFault, Source, Text, run_lines};

/// The reply to `stop`, `status` and `stats`, as in a script: no file ends the service, and none has their answers.
const NO_COMMAND: &[u8] = b"error unknown";

/// The reply if there was no memory for a reply.
const LOST: &[u8] = b"fault reply_lost";

/// The lines of a file while they are obeyed: the clock, their number so far, and the one that was refused.
#[derive(Drop)]
pub(crate) struct FirstLines<C> {
    clock: C,
    number: u64,
    /// The number of the line that was refused, its reply, and the line. It is missing if there was no memory.
    refusal: Option<Vec<u8>>,
}

impl<C> FirstLines<C> {
    /// No line has been obeyed.
    fn new(clock: C) -> FirstLines<C>
        ensures { result.clock ≡ clock }
    {
        FirstLines {
            clock,
            number: 0,
            refusal: None,
        }
    }

    /// Keeps why the last line was refused.
    fn refuse(&mut self, alloc: Global, reply: &[u8], line: &[u8])
        ensures clock { self.new.clock ≡ self.old.clock }
        ensures refusal { IfSome self.new.refusal (λ refusal. refusal.items ≡ refusal_of self.old.number reply.now line.now) }
    {
        self.refusal = if lacks_memory(reply) {
            None
        } else {
            refusal_text(alloc, self.number, reply, line).ok()
        };
    }
}

impl<C: Clock> FirstLines<C> {
    /// Obeys a line, and returns whether it was refused.
    fn refuses<D: Desk>(&mut self, alloc: Global, desk: &mut D, line: &[u8]) -> bool
        ensures { result ≡ false → IsAccepted C.ticks D.calls self.old.clock desk.old line.now self.new.clock desk.new }
    {
        self.number = self.number.saturating_add(1);
        let reply = match reply_to(alloc, desk, &mut self.clock, line) {
            Ok(reply) => reply,
            Err(words) => {
                self.refuse(alloc, words, line);
                return true;
            }
        };
        if is_refusal(reply.as_slice()) {
            self.refuse(alloc, without_end(reply.as_slice()), line);
            return true;
        }
        false
    }
}

/// A reply without its line end.
fn without_end(reply: &[u8]) -> &[u8]
    ensures { result.now ≡ strip_last 10 reply.now }
{
    let n = reply.len();
    if n > 0 && reply[n - 1] == b'\n' {
        &reply[..n - 1]
    } else {
        reply
    }
}

/// Whether a reply says that memory ran out.
fn lacks_memory(reply: &[u8]) -> bool {
    reply.ends_with(b"no_memory") || reply == LOST
}

/// The number of a line that was refused, its reply, and the line.
fn refusal_text(
    alloc: Global,
    number: u64,
    reply: &[u8],
    line: &[u8],
) -> Result<Vec<u8>, AllocError>
    ensures { IfOk result (λ text. text.items ≡ refusal_of number reply.now line.now) }
{
    let mut text = format!(in alloc; "line {number}: ")?.into_bytes();
    text.extend_from_slice(reply)?;
    text.extend_from_slice(b": ")?;
    text.extend_from_slice(line)?;
    Ok(text)
}

/// Whether the first word of a line is `status` or `stats`, which only an operator's service answers.
fn asks_service(alloc: Global, line: &[u8]) -> bool {
    match next_word(line) {
        Some((word, _)) => matches!(read_control(alloc, word), Ok(Line::Status | Line::Stats)),
        None => false,
    }
}

/// Obeys a line as one of an operator, and returns its reply. The error is the reply to a line that no file may have.
fn reply_to<D: Desk, C: Clock>(
    alloc: Global,
    desk: &mut D,
    clock: &mut C,
    line: &[u8],
) -> Result<Text, &'static [u8]>
    ensures { IfOk result (λ reply.
        IsRepliedTo C.ticks D.calls clock.old desk.old line.now (octets_in reply) clock.new desk.new) }
{
    let said = read_control(alloc, line);
    // With a word too many, these two are as unknown as without one.
    if matches!(said, Err(LineFault::BadData)) && asks_service(alloc, line) {
        return Err(NO_COMMAND);
    }
    let reply = obey_said(alloc, clock, desk, said);
    if reply.stops {
        return Err(NO_COMMAND);
    }
    Ok(reply.text)
}

/// Obeys the lines of a file until one is refused.
struct UntilRefused;

impl<C: Clock, D: Desk> Obeyer<FirstLines<C>, D> for UntilRefused {
    ghost obeys = { λ old before line text ends new after. AcceptsLine C.ticks D.calls old.clock before line text ends new.clock after };

    fn obey(alloc: Global, lines: &mut FirstLines<C>, desk: &mut D, line: &[u8]) -> LineReply {
        LineReply {
            stops: lines.refuses(alloc, desk, line),
            text: Text::Fixed(b""),
        }
    }
}

/// Obeys lines in order until one is refused: then it stops.
fn obey_lines<D: Desk, C: Clock, S: Source>(
    alloc: Global,
    desk: &mut D,
    lines: &mut FirstLines<C>,
    reader: &mut S,
) -> Result<Ended, ScriptFault>
    requires { S.calls reader.old ≡ 0 }
    ensures { AcceptsIfEnded C.ticks D.calls result (S.remaining reader.old)
        lines.old.clock desk.old lines.new.clock desk.new }
{
    let mut writer = CountedWriter::new(io::sink());
    run_lines::<FirstLines<C>, D, UntilRefused, S, CountedWriter<io::Sink>>(
        alloc,
        lines,
        desk,
        reader,
        &mut writer,
    )
}

/// The fault of a file with this path, one of whose lines was refused.
fn refused<C>(alloc: Global, path: &str, lines: &FirstLines<C>) -> CliFault
    ensures { CannotObey path.now result }
{
    match &lines.refusal {
        Some(refusal) => CliFault::refused(alloc, path, refusal.as_slice()),
        None => CliFault::no_memory(),
    }
}

/// The fault of a file with this path that cannot be read to its end.
fn broken<R>(alloc: Global, path: &str, reader: &FileReader<R>) -> CliFault
    ensures { CannotObey path.now result }
{
    match &reader.fault {
        Some(error) => CliFault::unread(alloc, path, error),
        None => CliFault::unread(alloc, path, &"it has too many octets"),
    }
}

/// Obeys the lines that a reader of the file with this path gives, in order, each as if an operator had sent it. It fails if the file
/// cannot be read to its end, or at the first line that is refused.
fn obey_reader<D: Desk, C: Clock + Drop, I: Read + Drop>(
    alloc: Global,
    path: &str,
    desk: &mut D,
    clock: C,
    input: I,
) -> Result<(), CliFault>
    ensures obeyed { OnOk result ((last : C) × AcceptsInput C.ticks D.calls None clock desk.old last desk.new) }
    ensures fault { IfErr result (CannotObey path.now) }
{
    let mut lines = FirstLines::new(clock);
    let mut reader = FileReader::new(input);
    match obey_lines(alloc, desk, &mut lines, &mut reader) {
        Ok(Ended::EndOfInput) => Ok(()),
        Ok(Ended::Stop) => Err(refused(alloc, path, &lines)),
        Err(_) => Err(broken(alloc, path, &reader)),
    }
}

/// Obeys the lines of a file in order, each as if an operator had sent it. It fails if the file cannot be read to its end, or at
/// the first line that is refused.
pub fn obey_file<D: Desk, C: Clock + Drop, R: Files>(
    rt: &R,
    alloc: Global,
    path: &str,
    desk: &mut D,
    clock: C,
) -> Result<(), CliFault>
    // Nothing but its lines was obeyed at the desk. No clause can say which octets a file has.
    ensures obeyed { OnOk result ((last : C) × AcceptsInput C.ticks D.calls None clock desk.old last desk.new) }
    ensures fault { IfErr result (CannotObey path.now) }
{
    match fs::open(rt, path) {
        Ok(file) => obey_reader(alloc, path, desk, clock, file),
        Err(error) => Err(CliFault::unread(alloc, path, &error)),
    }
}

/// Obeys the lines of a FIFO as `obey_file` does those of a file, while operators are looked at. It also fails once one of them has
/// sent `stop`.
pub fn obey_fifo<D: Desk, C: Clock + Drop, R: Threads + Wait + std::rt::Clock, L: Lookout>(
    rt: &R,
    alloc: Global,
    path: &str,
    desk: &mut D,
    clock: C,
    lookout: &mut L,
) -> Result<(), CliFault>
    ensures obeyed { OnOk result ((last : C) × AcceptsInput C.ticks D.calls None clock desk.old last desk.new) }
    ensures fault { IfErr result (CannotObey path.now) }
{
    match WatchedFifo::open(rt, alloc, path, lookout) {
        Ok(fifo) => obey_reader(alloc, path, desk, clock, fifo),
        Err(error) => {
            if error.kind() == ErrorKind::OutOfMemory {
                return Err(CliFault::no_memory());
            }
            Err(CliFault::unread(alloc, path, &error))
        }
    }
}
