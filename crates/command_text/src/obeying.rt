//! The effect of one script line.

ghost use Rattle.std.specs.Prelude.{◌≡◌, Ok, IfOk, codes};
ghost use Rattle.streams.specs.Split.{with_end};
ghost use Rattle.streams.specs.Text.{octets_in};
ghost use Rattle.command_text.specs.declared.line.Line.TheVariants.{At, Admit, Deny, Request as RequestLine};
ghost use Rattle.command_text.specs.Admission.{IsFindOf};
ghost use Rattle.command_text.specs.Denial.{IsDenialOf};
ghost use Rattle.command_text.specs.Obeying.{AsksByHistory, DoesByHistory, ObeysByHistory};

use crate::admission_find::Admission;
use crate::denial_find::Denial;
use crate::fault::LineFault;
use crate::line::{Line, is_silent, read_line};
use crate::request::{Request, event_at};
use crate::text::{answer_text, line_fault_text};
use crate::words::Channel;
use history::{Book, Desk, Event};
use ranked::SharedFind;
use std::alloc::{AllocError, Global};
use streams::Text;

/// Gives the book an event, and returns its answer as text.
fn ask<B: Book>(alloc: Global, book: &mut B, event: Event) -> Text
    ensures asks { AsksByHistory B.stands_for B.settings book.old event (octets_in result) book.new }
    ensures settings { B.settings book.new ≡ B.settings book.old }
{
    let answer = book.call(event);
    answer_text(alloc, &answer)
}

/// Sets the moment of the lines after it.
fn obey_at(moment: &mut u64, given: u64) -> Text
    ensures moment { moment.new ≡ given }
    ensures text { octets_in result ≡ with_end (codes "ok") }
{
    *moment = given;
    Text::Fixed(b"ok\n")
}

fn share_find(alloc: Global, admission: Admission) -> Result<SharedFind, AllocError>
    ensures { IfOk result (λ find. IsFindOf admission find) }
{
    SharedFind::new(alloc, admission.into_find())
}

fn obey_admit<B: Book>(alloc: Global, book: &mut B, moment: u64, admission: Admission) -> Text
    ensures does { DoesByHistory B.stands_for B.settings moment book.old (Ok (Admit admission)) (octets_in result) moment book.new }
    ensures settings { B.settings book.new ≡ B.settings book.old }
{
    match share_find(alloc, admission) {
        Ok(find) => ask(alloc, book, Event::Admit { moment, find }),
        Err(_) => line_fault_text(LineFault::NoMemory),
    }
}

fn share_denial(alloc: Global, denial: Denial) -> Result<SharedFind, AllocError>
    ensures { IfOk result (λ find. IsDenialOf denial find) }
{
    SharedFind::new(alloc, denial.into_find())
}

fn obey_deny<B: Book>(alloc: Global, book: &mut B, moment: u64, denial: Denial) -> Text
    ensures does { DoesByHistory B.stands_for B.settings moment book.old (Ok (Deny denial)) (octets_in result) moment book.new }
    ensures settings { B.settings book.new ≡ B.settings book.old }
{
    match share_denial(alloc, denial) {
        Ok(find) => ask(alloc, book, Event::Admit { moment, find }),
        Err(_) => line_fault_text(LineFault::NoMemory),
    }
}

fn obey_request<B: Book>(alloc: Global, book: &mut B, moment: u64, request: Request) -> Text
    ensures does { DoesByHistory B.stands_for B.settings moment book.old (Ok (RequestLine request)) (octets_in result) moment book.new }
    ensures settings { B.settings book.new ≡ B.settings book.old }
{
    ask(alloc, book, event_at(moment, request))
}

/// Obeys a line that was read.
fn obey_line<B: Book>(alloc: Global, book: &mut B, moment: &mut u64, line: Line) -> Text
    ensures does { DoesByHistory B.stands_for B.settings moment.old book.old (Ok line) (octets_in result) moment.new book.new }
    ensures settings { B.settings book.new ≡ B.settings book.old }
{
    match line {
        Line::Silent => Text::Fixed(b""),
        Line::At { moment: given } => obey_at(moment, given),
        Line::Admit(admission) => obey_admit(alloc, book, *moment, admission),
        Line::Deny(denial) => obey_deny(alloc, book, *moment, denial),
        Line::Request(request) => obey_request(alloc, book, *moment, request),
        // Unreachable: in a script `read_line` does not know these commands.
        Line::Stop => line_fault_text(LineFault::Unknown),
        Line::Status => line_fault_text(LineFault::Unknown),
        Line::Stats => line_fault_text(LineFault::Unknown),
    }
}

/// Obeys a script line and returns the reply. The moment is that of the events of the lines to come.
pub(crate) fn obey<B: Book>(alloc: Global, book: &mut B, moment: &mut u64, line: &[u8]) -> Text
    ensures obeys { ObeysByHistory B.stands_for B.settings moment.old book.old line.now (octets_in result) moment.new book.new }
    ensures settings { B.settings book.new ≡ B.settings book.old }
{
    if is_silent(line) {
        return Text::Fixed(b"");
    }
    match read_line(alloc, Channel::Script, line) {
        Ok(said) => obey_line(alloc, book, moment, said),
        Err(fault) => line_fault_text(fault),
    }
}
