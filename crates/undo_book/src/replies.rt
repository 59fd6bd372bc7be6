//! The reply to an event, and the tables after it.

ghost use Rattle.std.specs.Prelude.{◌≡◌, IfOk, OnErr, OnOk, ◌+◌, ◌<◌, ◌^◌};
ghost use Rattle.history.specs.Changes.{reason_on, unless_refused};
ghost use Rattle.history.specs.History.{followed_by, tables_of};
ghost use Rattle.history.specs.Marks.{last_of};
ghost use Rattle.undo_book.specs.Plain.{marks_in};
ghost use Rattle.undo_book.specs.PlainPast.{past_in, reply_to_redo_in, reply_to_undo_in};
ghost use Rattle.undo_book.specs.Replayed.{tables_by_reply};
ghost use Rattle.history.specs.Reply.{reply_of, reply_to_command, reply_to_redo, reply_to_undo};

use crate::changes::change;
use crate::listing::commands;
use crate::lookup_result::seen;
use crate::plain_history::PlainPast;
use crate::tables::replay_tables;
use dns_name::NoMemory;
use history::{Command, Event, Reply, Tables, over, under};
use std::alloc::Global;

/// What is replied to an event. The tables are as they are after the event then, and as they were where memory is refused.
pub(crate) fn reply(
    alloc: Global,
    past: &PlainPast,
    tables: &mut Tables,
    event: &Event,
) -> Result<Reply, NoMemory>
    requires tabled { tables.old ≡ tables_of (past_in past.now) }
    requires few { past.now.marks.tickets + 1 < 2 ^ 64 }
    ensures told { IfOk result (λ r. r ≡ reply_of past.now.settings (past_in past.now) event.now) }
    ensures tabled { OnOk result (tables.new ≡ tables_of (followed_by past.now.settings.journal (past_in past.now) event.now)) }
    ensures same { OnErr result (tables.new ≡ tables.old) }
{
    match event {
        Event::Admit { moment, find } => Ok(past.fate(find, *moment)),
        Event::Look { moment, ask } => {
            let seen = seen(alloc, past, tables, ask, *moment)?;
            Ok(Reply::Seen(seen))
        }
        Event::Sweep { .. } => Ok(Reply::Swept),
        Event::Forget { .. } => Ok(Reply::Forgotten),
        Event::Do { command, .. } => reply_to_command(past, tables, command),
        Event::Undo { .. } => reply_to_undo(alloc, past, tables),
        Event::Redo { .. } => reply_to_redo(alloc, past, tables),
        Event::UndoOf { ticket, .. } => reply_to_undo_of(alloc, past, tables, *ticket),
        Event::RedoOf { ticket, .. } => reply_to_redo_of(alloc, past, tables, *ticket),
    }
}

fn reply_to_command(
    past: &PlainPast,
    tables: &mut Tables,
    command: &Command,
) -> Result<Reply, NoMemory>
    requires few { past.now.marks.tickets + 1 < 2 ^ 64 }
    ensures told { IfOk result (λ r. r ≡ reply_to_command (marks_in past.now.marks) (reason_on tables.old command.now)) }
    ensures changed { OnOk result (tables.new ≡ unless_refused (reason_on tables.old command.now) command.now tables.old) }
    ensures same { OnErr result (tables.new ≡ tables.old) }
{
    match change(tables, command)? {
        Some(reason) => Ok(Reply::Refused(reason)),
        None => Ok(Reply::Done {
            ticket: past.marks.tickets + 1,
        }),
    }
}

fn reply_to_undo(alloc: Global, past: &PlainPast, tables: &mut Tables) -> Result<Reply, NoMemory>
    ensures told { IfOk result (λ r. r ≡ reply_to_undo (last_of past.now.marks.done.items)) }
    ensures changed { IfOk result (λ r. tables.new ≡ tables_by_reply r past.now.log.items tables.old) }
    ensures same { OnErr result (tables.new ≡ tables.old) }
{
    match past.marks.last_done() {
        Some(ticket) => {
            *tables = replay_tables(alloc, &past.log, ticket, true)?;
            Ok(Reply::Undone { ticket })
        }
        None => Ok(Reply::NothingToUndo),
    }
}

fn reply_to_redo(alloc: Global, past: &PlainPast, tables: &mut Tables) -> Result<Reply, NoMemory>
    ensures told { IfOk result (λ r. r ≡ reply_to_redo (last_of past.now.marks.undone.items)) }
    ensures changed { IfOk result (λ r. tables.new ≡ tables_by_reply r past.now.log.items tables.old) }
    ensures same { OnErr result (tables.new ≡ tables.old) }
{
    match past.marks.last_undone() {
        Some(ticket) => {
            *tables = replay_tables(alloc, &past.log, ticket, false)?;
            Ok(Reply::Redone { ticket })
        }
        None => Ok(Reply::NothingToRedo),
    }
}

fn reply_to_undo_of(
    alloc: Global,
    past: &PlainPast,
    tables: &mut Tables,
    ticket: u64,
) -> Result<Reply, NoMemory>
    ensures told { IfOk result (λ r. r ≡ reply_to_undo_in past.now ticket) }
    ensures changed { IfOk result (λ r. tables.new ≡ tables_by_reply r past.now.log.items tables.old) }
    ensures same { OnErr result (tables.new ≡ tables.old) }
{
    if !past.marks.done.contains(&ticket) {
        return Ok(Reply::NotKept);
    }
    let commands = commands(alloc, past)?;
    match over(&commands, ticket) {
        Some(other) => Ok(Reply::Buried { ticket: other }),
        None => {
            *tables = replay_tables(alloc, &past.log, ticket, true)?;
            Ok(Reply::Undone { ticket })
        }
    }
}

fn reply_to_redo_of(
    alloc: Global,
    past: &PlainPast,
    tables: &mut Tables,
    ticket: u64,
) -> Result<Reply, NoMemory>
    ensures told { IfOk result (λ r. r ≡ reply_to_redo_in past.now ticket) }
    ensures changed { IfOk result (λ r. tables.new ≡ tables_by_reply r past.now.log.items tables.old) }
    ensures same { OnErr result (tables.new ≡ tables.old) }
{
    if !past.marks.undone.contains(&ticket) {
        return Ok(Reply::NotKept);
    }
    let commands = commands(alloc, past)?;
    match under(&commands, ticket) {
        Some(other) => Ok(Reply::Buried { ticket: other }),
        None => {
            *tables = replay_tables(alloc, &past.log, ticket, false)?;
            Ok(Reply::Redone { ticket })
        }
    }
}
