//! Undos and redos of one command: of the last one, or of that of a ticket.

use crate::books::give_command;
use anyhow::anyhow;
use command_text::{Channel, Line, Request, read_line};
use history::{Book, Command, Event, Reply};
use std::alloc::Global;

/// The command that is undone and redone: the last one, or that of a ticket.
#[derive(Clone, Copy)]
pub enum Moved {
    Last,
    Of(u64),
}

fn undo(moved: Moved) -> Event {
    let moment = 0;
    match moved {
        Moved::Last => Event::Undo { moment },
        Moved::Of(ticket) => Event::UndoOf { moment, ticket },
    }
}

fn redo(moved: Moved) -> Event {
    let moment = 0;
    match moved {
        Moved::Last => Event::Redo { moment },
        Moved::Of(ticket) => Event::RedoOf { moment, ticket },
    }
}

/// The ticket that an undo or a redo moves.
fn ticket_moved<B: Book>(book: &mut B, event: Event) -> anyhow::Result<u64> {
    match book.step(event)? {
        Reply::Undone { ticket } => Ok(ticket),
        Reply::Redone { ticket } => Ok(ticket),
        other => {
            drop(other);
            Err(anyhow!("no command was undone or redone"))
        }
    }
}

/// Undoes and redoes a command so many times, and returns a sum over the tickets that moved.
pub fn move_many<B: Book>(book: &mut B, moved: Moved, count: u32) -> anyhow::Result<u32> {
    let mut sum = 0u64;
    for _ in 0..count {
        sum = sum.wrapping_add(ticket_moved(book, undo(moved))?);
        sum = sum.wrapping_add(ticket_moved(book, redo(moved))?);
    }
    Ok((sum % (1 << 32)) as u32)
}

fn command_of(line: Line) -> anyhow::Result<Command> {
    match line {
        Line::Request(Request::Do(command)) => Ok(command),
        other => {
            drop(other);
            Err(anyhow!("the line gives no command"))
        }
    }
}

/// Gives a book the command of a line, and returns its ticket.
pub fn obey<B: Book>(alloc: Global, book: &mut B, line: &str) -> anyhow::Result<u64> {
    match read_line(alloc, Channel::Script, line.as_bytes()) {
        Ok(line) => give_command(book, command_of(line)?),
        Err(_) => Err(anyhow!("the line gives no command")),
    }
}
