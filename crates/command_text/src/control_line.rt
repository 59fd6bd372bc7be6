//! The effect of one control line.

ghost use Rattle.std.specs.Prelude.{◌≡◌, false, Ok};
ghost use Rattle.streams.specs.Text.{octets_in};
ghost use Rattle.command_text.specs.Control.{IsAsked, IsReadAs, DoesAt, Controls};

use crate::fault::LineFault;
use crate::line::{Line, is_silent, read_line};
use crate::request::{Request, event_at};
use crate::text::{answer_text, line_fault_text};
use crate::words::Channel;
use clock::Clock;
use history::Desk;
use std::alloc::Global;
use streams::{LineReply, Text};

/// The reply to a line that does not stop the service.
fn going_on(text: Text) -> LineReply
    ensures { result ≡ record { text = text; stops = false } }
{
    LineReply { text, stops: false }
}

/// Gives the desk a request at the clock's moment, and returns its answer as text.
fn ask_at<C: Clock, D: Desk>(alloc: Global, clock: &mut C, desk: &mut D, request: Request) -> Text
    ensures { IsAsked C.ticks D.calls clock.old desk.old request (octets_in result) clock.new desk.new }
{
    let moment = clock.now();
    let answer = desk.call(event_at(moment, request));
    answer_text(alloc, &answer)
}

/// Obeys a line that was read.
fn obey_line<C: Clock, D: Desk>(alloc: Global, clock: &mut C, desk: &mut D, line: Line) -> LineReply
    ensures { DoesAt C.ticks D.calls clock.old desk.old (Ok line) (octets_in result.text) result.stops clock.new desk.new }
{
    match line {
        Line::Silent => going_on(Text::Fixed(b"")),
        Line::Request(request) => going_on(ask_at(alloc, clock, desk, request)),
        Line::Stop => LineReply {
            text: Text::Fixed(b"ok stopping\n"),
            stops: true,
        },
        // Unreachable: on the control socket `read_line` does not know these commands.
        Line::At { .. } | Line::Admit(_) | Line::Deny(_) => {
            going_on(line_fault_text(LineFault::Unknown))
        }
        // On a control socket a service answers these two before they come here.
        Line::Status | Line::Stats => going_on(line_fault_text(LineFault::Unknown)),
    }
}

/// Reads a control line. An empty line or a comment says nothing, however long it is.
pub fn read_control(alloc: Global, line: &[u8]) -> Result<Line, LineFault>
    ensures { IsReadAs line.now result }
{
    if is_silent(line) {
        return Ok(Line::Silent);
    }
    match read_line(alloc, Channel::Control, line) {
        Ok(said) => Ok(said),
        Err(fault) => Err(fault),
    }
}

/// Obeys a control line that was read. Returns the reply, and whether the line was `stop`.
pub fn obey_said<C: Clock, D: Desk>(
    alloc: Global,
    clock: &mut C,
    desk: &mut D,
    said: Result<Line, LineFault>,
) -> LineReply
    ensures { DoesAt C.ticks D.calls clock.old desk.old said (octets_in result.text) result.stops clock.new desk.new }
{
    match said {
        Ok(line) => obey_line(alloc, clock, desk, line),
        Err(fault) => going_on(line_fault_text(fault)),
    }
}

/// Obeys a control line. Returns the reply, and whether the line was `stop`.
pub(crate) fn obey_control<C: Clock, D: Desk>(
    alloc: Global,
    clock: &mut C,
    desk: &mut D,
    line: &[u8],
) -> LineReply
    ensures { Controls C.ticks D.calls clock.old desk.old line.now (octets_in result.text) result.stops clock.new desk.new }
{
    if is_silent(line) {
        return going_on(Text::Fixed(b""));
    }
    match read_line(alloc, Channel::Control, line) {
        Ok(said) => obey_line(alloc, clock, desk, said),
        Err(fault) => going_on(line_fault_text(fault)),
    }
}
