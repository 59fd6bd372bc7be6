//! The commands that the journal holds, the oldest first.

ghost use Rattle.std.specs.Prelude.{◌≡◌, ◌++◌, [], IfOk, OnOk};
ghost use Rattle.std.specs.List.{cons_option};
ghost use Rattle.history.specs.Journal.{buried_in, command_at, commands_of, held_as, held_with};
ghost use Rattle.undo_book.specs.Plain.{marks_in, held_of};
ghost use Rattle.undo_book.specs.PlainPast.{past_in};

use crate::marks::PlainMarks;
use crate::plain_history::PlainPast;
use dns_name::NoMemory;
use history::{BuriedCommand, Command, Entry, Event, Journalled, buried};
use std::alloc::Global;

/// A copy of each command that can be undone or redone.
pub(crate) fn commands(alloc: Global, past: &PlainPast) -> Result<Vec<Journalled>, NoMemory>
    ensures { IfOk result (λ v. v.items ≡ commands_of (past_in past.now)) }
{
    let mut commands = Vec::new(alloc);
    for logged in &past.log {
        add_command(&past.marks, &logged.entry, &mut commands)?;
    }
    Ok(commands)
}

/// Those of them that another must be undone, or redone, before.
pub(crate) fn buried_commands(
    alloc: Global,
    past: &PlainPast,
) -> Result<Vec<BuriedCommand>, NoMemory>
    ensures { IfOk result (λ v. v.items ≡ buried_in (commands_of (past_in past.now))) }
{
    let commands = commands(alloc, past)?;
    buried(alloc, commands.as_slice())
}

/// A copy of the command of a ticket, if it is one of these.
pub(crate) fn command_at(
    commands: &[Journalled],
    ticket: u64,
) -> Result<Option<Journalled>, NoMemory>
    ensures { IfOk result (λ o. o ≡ command_at commands.now ticket) }
{
    for held in commands {
        if held.ticket == ticket {
            return Ok(Some(Journalled {
                ticket,
                done: held.done,
                command: held.command.copy()?,
            }));
        }
    }
    Ok(None)
}

/// Adds what the journal holds of an entry.
fn add_command(
    marks: &PlainMarks,
    entry: &Entry,
    commands: &mut Vec<Journalled>,
) -> Result<(), NoMemory>
    ensures { OnOk result (commands.new.items ≡ commands.old.items ++ cons_option (held_of marks.now entry.now) []) }
{
    match journalled(marks, entry)? {
        Some(command) => Ok(commands.push(command)?),
        None => Ok(()),
    }
}

/// What the journal holds of an entry.
fn journalled(marks: &PlainMarks, entry: &Entry) -> Result<Option<Journalled>, NoMemory>
    ensures { IfOk result (λ o. o ≡ held_of marks.now entry.now) }
{
    match &entry.event {
        Event::Do { command, .. } => match entry.ticket {
            Some(ticket) => held_command(marks, ticket, command),
            None => Ok(None),
        },
        _ => Ok(None),
    }
}

/// A copy of the command of a ticket, if the journal holds it.
fn held_command(
    marks: &PlainMarks,
    ticket: u64,
    command: &Command,
) -> Result<Option<Journalled>, NoMemory>
    ensures { IfOk result (λ o. o ≡ held_with (marks_in marks.now) ticket command.now) }
{
    match held_as(marks, ticket) {
        Some(done) => Ok(Some(Journalled {
            ticket,
            done,
            command: command.copy()?,
        })),
        None => Ok(None),
    }
}

/// Whether the command of a ticket is done, if it can be undone or redone.
fn held_as(marks: &PlainMarks, ticket: u64) -> Option<bool>
    ensures { result ≡ held_as (marks_in marks.now) ticket }
{
    if marks.done.contains(&ticket) {
        Some(true)
    } else if marks.undone.contains(&ticket) {
        Some(false)
    } else {
        None
    }
}
