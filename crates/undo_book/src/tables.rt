//! Local zones, records and stubs, by a replay of a log.

ghost use Rattle.std.specs.Prelude.{◌≡◌, ◌&&◌, not, fold, is_some, IfOk, OnOk};
ghost use Rattle.history.specs.Changes.{no_tables};
ghost use Rattle.undo_book.specs.Plain.{with_flag};
ghost use Rattle.undo_book.specs.Replayed.{tables_after_flagged};

use crate::changes::obey;
use crate::log::Logged;
use dns_name::NoMemory;
use history::{Event, Tables};
use std::alloc::Global;

/// The tables of a log in which the command of this ticket has this flag.
pub(crate) fn replay_tables(
    alloc: Global,
    log: &Vec<Logged>,
    ticket: u64,
    struck: bool,
) -> Result<Tables, NoMemory>
    ensures { IfOk result (λ t. t ≡ fold (tables_after_flagged ticket struck) no_tables log.now.items) }
{
    let mut tables = Tables::new(alloc);
    for logged in log {
        replay_command(&mut tables, logged, ticket, struck)?;
    }
    Ok(tables)
}

/// Obeys the command of an entry, if it is in force.
fn replay_command(
    tables: &mut Tables,
    logged: &Logged,
    ticket: u64,
    struck: bool,
) -> Result<(), NoMemory>
    ensures { OnOk result (tables.new ≡ tables_after_flagged ticket struck tables.old logged.now) }
{
    match &logged.entry.event {
        Event::Do { command, .. } => {
            if stands(logged, ticket, struck) {
                obey(tables, command)
            } else {
                Ok(())
            }
        }
        _ => Ok(()),
    }
}

/// Whether the command of an entry was accepted and is not struck.
fn stands(logged: &Logged, ticket: u64, struck: bool) -> bool
    ensures { result ≡ (is_some logged.now.entry.ticket && not (with_flag ticket struck logged.now).struck) }
{
    logged.entry.ticket.is_some() && !logged.flag_with(ticket, struck)
}
