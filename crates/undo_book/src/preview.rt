//! What a lookup would see right after an undo or a redo, by a replay in which one command has another flag.

ghost use Rattle.std.specs.Prelude.{◌≡◌, IfOk};
ghost use Rattle.history.specs.declared.event.Move.TheVariants as move;
ghost use Rattle.history.specs.Journal.{command_at, commands_of, next_undo};
ghost use Rattle.history.specs.Reply.{answer_after, next_seen};
ghost use Rattle.undo_book.specs.Plain.{content_of, marks_in, question_of};
ghost use Rattle.undo_book.specs.PlainPast.{past_in};
ghost use Rattle.undo_book.specs.Preview.{answer_with, cell_with};

use crate::listing::{command_at, commands};
use crate::log::Logged;
use crate::plain_history::PlainPast;
use crate::replay::replay_entry;
use crate::tables::replay_tables;
use dns_name::{Name, NoMemory};
use dns_text::Question;
use history::{CellSource, Journalled, Move, Refusal, Seen, over, question_sight};
use ranked::{Cell, Held, SharedFind};
use std::alloc::Global;

/// The cell of a question by a log in which the command of a ticket has this flag.
fn replay_cell<'a>(
    owner: &Name,
    kind: u16,
    log: &'a Vec<Logged>,
    ticket: u64,
    struck: bool,
) -> Cell<&'a SharedFind>
    ensures { content_of result.held ≡ cell_with ticket struck log.now.items (question_of owner.now kind) }
{
    let mut cell = Cell::empty();
    for logged in log {
        let flag = logged.flag_with(ticket, struck);
        cell = replay_entry(owner, kind, flag, cell, &logged.entry);
    }
    cell
}

/// A history in which the command of a ticket has this flag.
#[derive(Clone, Copy, Drop)]
struct Turned<'a> {
    past: &'a PlainPast,
    ticket: u64,
    struck: bool,
}

impl<'b> CellSource for Turned<'b> {
    ghost use Rattle.undo_book.specs.Preview.{shows_with};

    ghost shows_at = { λ turned moment question. shows_with turned.past.now turned.ticket turned.struck moment question };

    fn shows<'a>(&'a self, owner: &Name, kind: u16, moment: u64) -> Option<Held<'a>> {
        let cell = replay_cell(owner, kind, &self.past.log, self.ticket, self.struck);
        cell.at(self.past.moment.max(moment))
    }
}

/// The answer to a question, if the command of a ticket has this flag.
fn answer_with(
    alloc: Global,
    past: &PlainPast,
    question: &Question,
    moment: u64,
    ticket: u64,
    struck: bool,
) -> Result<Seen, NoMemory>
    ensures { IfOk result (λ s. s ≡ answer_with past.now ticket struck question.now moment) }
{
    let tables = replay_tables(alloc, &past.log, ticket, struck)?;
    let cells = Turned {
        past,
        ticket,
        struck,
    };
    question_sight(&cells, &tables.local, question, moment).to_seen(alloc)
}

/// The answer to a question right after an undo or a redo, or why that is refused.
pub(crate) fn answer_after(
    alloc: Global,
    past: &PlainPast,
    step: Move,
    question: &Question,
    moment: u64,
) -> Result<Seen, NoMemory>
    ensures { IfOk result (λ s. s ≡ answer_after past.now.settings.journal (past_in past.now) step question.now moment) }
{
    match step {
        Move::Undo => match past.marks.last_done() {
            Some(ticket) => answer_with(alloc, past, question, moment, ticket, true),
            None => Ok(Seen::Refused(Refusal::NothingToUndo)),
        },
        Move::Redo => match past.marks.last_undone() {
            Some(ticket) => answer_with(alloc, past, question, moment, ticket, false),
            None => Ok(Seen::Refused(Refusal::NothingToRedo)),
        },
        Move::UndoOf { ticket } => answer_without(alloc, past, ticket, question, moment),
    }
}

/// The same for the undo of a ticket.
fn answer_without(
    alloc: Global,
    past: &PlainPast,
    ticket: u64,
    question: &Question,
    moment: u64,
) -> Result<Seen, NoMemory>
    ensures { IfOk result (λ s. s
        ≡ answer_after past.now.settings.journal (past_in past.now) (move.UndoOf ticket) question.now moment) }
{
    if !past.marks.done.contains(&ticket) {
        return Ok(Seen::Refused(Refusal::NotKept));
    }
    let commands = commands(alloc, past)?;
    match over(&commands, ticket) {
        Some(other) => Ok(Seen::Refused(Refusal::Buried { ticket: other })),
        None => answer_with(alloc, past, question, moment, ticket, true),
    }
}

/// The command that an undo would take back.
pub(crate) fn next_undo(alloc: Global, past: &PlainPast) -> Result<Seen, NoMemory>
    ensures { IfOk result (λ s. s ≡ next_seen (next_undo (marks_in past.now.marks) (commands_of (past_in past.now)))) }
{
    match past.marks.last_done() {
        Some(ticket) => {
            let commands = commands(alloc, past)?;
            seen_command(&commands, ticket)
        }
        None => Ok(Seen::Refused(Refusal::NothingToUndo)),
    }
}

/// A copy of the command of a ticket, if it is one of these.
fn seen_command(commands: &[Journalled], ticket: u64) -> Result<Seen, NoMemory>
    ensures { IfOk result (λ s. s ≡ next_seen (command_at commands.now ticket)) }
{
    match command_at(commands, ticket)? {
        Some(held) => Ok(Seen::Command(held)),
        None => Ok(Seen::Refused(Refusal::NothingToUndo)),
    }
}
