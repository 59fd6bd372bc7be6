//! The lines of an operator: the service answers `status`, `stats` and `what_undo` by itself, and its book the others.

ghost use Rattle.std.specs.Prelude.{◌≡◌, IfSome};
ghost use Rattle.streams.specs.Text.{octets_in};
ghost use Rattle.resolver_cli.specs.OperatorLines.{AnswersLine, AnswersSaid, IsOwn};

use crate::keeping_up::Pace;
use crate::what_undo::what_undo;
use crate::worker::Lent;
use clock::Clock;
use command_text::{Line, LineFault, Request, obey_said, read_control};
use history::{Ask, Command, Desk};
use shared_book::CallLedger;
use std::alloc::{AllocError, Global};
use std::sync::Wait;
use std::sync::atomic::Ordering;
use streams::{LineReply, Obeyer, Text};

/// A line that a service answers by itself.
#[derive(Clone, Copy)]
enum OwnLine {
    Status,
    Stats,
    WhatUndo,
}

/// The line of the service's own that was read, if it is one.
fn own_of(said: &Result<Line, LineFault>) -> Option<OwnLine>
    ensures { IfSome result (λ _. IsOwn said.now) }
{
    match said {
        Ok(Line::Status) => Some(OwnLine::Status),
        Ok(Line::Stats) => Some(OwnLine::Stats),
        Ok(Line::Request(Request::Look(Ask::NextUndo))) => Some(OwnLine::WhatUndo),
        _ => None,
    }
}

/// The text of a reply, or of the fault if there is no memory for it.
fn text_of(made: Result<String, AllocError>) -> Text {
    match made {
        Ok(text) => Text::Made(text.into_bytes()),
        Err(_) => Text::Fixed(b"error no_memory\n"),
    }
}

/// A service as the lines of its operators need it: its runtime, its parts, its clock and their pace.
#[derive(Drop)]
pub(crate) struct Served<'a, 'l, C, L: CallLedger, R> {
    rt: &'a R,
    lent: &'a Lent<'l, L>,
    clock: C,
    pace: Pace,
}

impl<'a, 'l, C, L: CallLedger, R> Served<'a, 'l, C, L, R> {
    /// The service with these parts, by this clock.
    pub fn new(rt: &'a R, lent: &'a Lent<'l, L>, clock: C) -> Served<'a, 'l, C, L, R>
        ensures { result.clock ≡ clock }
    {
        Served {
            rt,
            lent,
            clock,
            pace: Pace::new(),
        }
    }

    /// Counts a line that was read, unless it is empty or a comment.
    fn count(&self, said: &Result<Line, LineFault>) {
        if !matches!(said, Ok(Line::Silent)) {
            let _ = self.lent.gauges.lines.fetch_add(1, Ordering::SeqCst);
        }
    }
}

impl<'a, 'l, C: Clock, L: CallLedger, R: Wait + std::rt::Clock> Served<'a, 'l, C, L, R> {
    /// Counts a line that was read as the flush of a zone, if it is one, and lets the cache keep up.
    fn keep_up(&self, said: &Result<Line, LineFault>) {
        if matches!(
            said,
            Ok(Line::Request(Request::Do(Command::FlushZone { .. })))
        ) {
            self.pace.count(self.rt, self.lent);
        }
    }

    /// The reply to a line of the service's own.
    fn reply_to<D: Desk>(&mut self, alloc: Global, desk: &mut D, own: OwnLine) -> Text {
        let moment = self.clock.now();
        match own {
            OwnLine::Status => text_of(self.lent.gauges.status(alloc, moment)),
            OwnLine::Stats => text_of(self.lent.gauges.stats(alloc, moment)),
            OwnLine::WhatUndo => what_undo(self.rt, alloc, self.lent, desk, moment),
        }
    }

    /// Answers a line that was read, if it is one of the service's own, and else obeys it.
    fn answer<D: Desk>(
        &mut self,
        alloc: Global,
        desk: &mut D,
        said: Result<Line, LineFault>,
    ) -> LineReply
        ensures { AnswersSaid C.ticks D.calls self.old.clock desk.old said (octets_in result.text) result.stops self.new.clock desk.new }
    {
        match own_of(&said) {
            Some(own) => LineReply {
                text: self.reply_to(alloc, desk, own),
                stops: false,
            },
            None => obey_said(alloc, &mut self.clock, desk, said),
        }
    }
}

/// Obeys the lines of an operator.
pub(crate) struct OperatorLines;

impl<'a, 'l, C: Clock, D: Desk, L: CallLedger, R: Wait + std::rt::Clock> Obeyer<
    Served<'a, 'l, C, L, R>,
    D,
> for OperatorLines {
    ghost obeys = { λ old before line text ends new after. AnswersLine C.ticks D.calls old.clock before line text ends new.clock after };

    fn obey(
        alloc: Global,
        served: &mut Served<'a, 'l, C, L, R>,
        desk: &mut D,
        line: &[u8],
    ) -> LineReply {
        let said = read_control(alloc, line);
        served.count(&said);
        served.keep_up(&said);
        served.answer(alloc, desk, said)
    }
}
