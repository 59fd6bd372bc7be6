//! The commands in the way of an undo or a redo of a ticket.

ghost use Rattle.std.specs.Prelude.{◌≡◌, ◌++◌, [], IfOk, OnOk};
ghost use Rattle.std.specs.List.{cons_option};
ghost use Rattle.history.specs.Journal.{buried_in, buried_one, is_one_table, lies_on, lies_under, over, over_or_under, table_at, under};

use crate::event::{BuriedCommand, Journalled};
use dns_name::NoMemory;
use std::alloc::Global;

/// The greatest later ticket of its table that is done.
pub fn over(commands: &[Journalled], ticket: u64) -> Option<u64>
    ensures { result ≡ over commands.now ticket }
{
    let table = table_at(commands, ticket);
    let mut last = None;
    for held in commands {
        if lies_on(held, ticket, table) {
            last = Some(held.ticket);
        }
    }
    last
}

/// The least earlier ticket of its table that is undone.
pub fn under(commands: &[Journalled], ticket: u64) -> Option<u64>
    ensures { result ≡ under commands.now ticket }
{
    let table = table_at(commands, ticket);
    for held in commands {
        if lies_under(held, ticket, table) {
            return Some(held.ticket);
        }
    }
    None
}

// The table that the command of a ticket changes.
fn table_at(commands: &[Journalled], ticket: u64) -> Option<u8>
    ensures { result ≡ table_at commands.now ticket }
{
    for held in commands {
        if held.ticket == ticket {
            return held.command.table();
        }
    }
    None
}

fn lies_on(held: &Journalled, ticket: u64, table: Option<u8>) -> bool
    ensures { result ≡ lies_on ticket table held.now }
{
    held.done && ticket < held.ticket && is_one_table(table, held.command.table())
}

fn lies_under(held: &Journalled, ticket: u64, table: Option<u8>) -> bool
    ensures { result ≡ lies_under ticket table held.now }
{
    !held.done && held.ticket < ticket && is_one_table(table, held.command.table())
}

fn is_one_table(a: Option<u8>, b: Option<u8>) -> bool
    ensures { result ≡ is_one_table a b }
{
    match (a, b) {
        (Some(a), Some(b)) => a == b,
        _ => false,
    }
}

/// The commands that another must be undone, or redone, before, the oldest first.
pub fn buried(alloc: Global, commands: &[Journalled]) -> Result<Vec<BuriedCommand>, NoMemory>
    ensures { IfOk result (λ v. v.items ≡ buried_in commands.now) }
{
    let mut buried = Vec::new(alloc);
    for held in commands {
        push_buried(commands, held, &mut buried)?;
    }
    Ok(buried)
}

// Adds a command, if another is in its way.
fn push_buried(
    commands: &[Journalled],
    held: &Journalled,
    buried: &mut Vec<BuriedCommand>,
) -> Result<(), NoMemory>
    ensures { OnOk result (buried.new.items ≡ buried.old.items ++ cons_option (buried_one commands.now held.now) []) }
{
    match over_or_under(commands, held) {
        Some(by) => {
            buried.push(BuriedCommand {
                ticket: held.ticket,
                by,
            })?;
            Ok(())
        }
        None => Ok(()),
    }
}

// The command in the way of an undo of a done command, or of a redo of an undone one.
fn over_or_under(commands: &[Journalled], held: &Journalled) -> Option<u64>
    ensures { result ≡ over_or_under commands.now held.now }
{
    if held.done {
        over(commands, held.ticket)
    } else {
        under(commands, held.ticket)
    }
}
